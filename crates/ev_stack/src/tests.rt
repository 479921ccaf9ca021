use super::{Siblings, StackErr};
use std::test::Fail;

// The ids from bottom to top, 0 where there are fewer than four.
fn ids(siblings: &Siblings) -> [u64; 4] {
    let mut ids = [0; 4];
    let mut found = siblings.bottom();
    for place in 0..4 {
        let Some(id) = found else {
            return ids;
        };
        ids[place] = id;
        found = siblings.next_above(id);
    }
    ids
}

#[test]
fn edits(rt: HostRuntime) -> Result<(), Fail> {
    let mut siblings = Siblings::new(rt.alloc());
    assert!(rt; siblings.is_empty());
    siblings.push_top(1, 0)?;
    siblings.push_top(2, 5)?;
    siblings.push_top(3, 0)?;
    siblings.push_top(4, -1)?;
    assert_eq!(rt; ids(&siblings), [4, 1, 3, 2]);
    assert_eq!(rt; siblings.raise(1), Ok(()));
    assert_eq!(rt; ids(&siblings), [4, 3, 1, 2]);
    assert_eq!(rt; siblings.lower(1), Ok(()));
    assert_eq!(rt; ids(&siblings), [4, 1, 3, 2]);
    assert_eq!(rt; siblings.above(1, 3), Ok(()));
    assert_eq!(rt; ids(&siblings), [4, 3, 1, 2]);
    assert_eq!(rt; siblings.below(1, 3), Ok(()));
    assert_eq!(rt; siblings.relayer(4, 5), Ok(()));
    assert_eq!(rt; siblings.relayer(2, 5), Ok(()));
    assert_eq!(rt; ids(&siblings), [1, 3, 2, 4]);
    assert_eq!(rt; siblings.above(9, 9), Err(StackErr::Unknown));
    assert_eq!(rt; siblings.above(1, 1), Err(StackErr::Itself));
    assert_eq!(rt; siblings.below(1, 2), Err(StackErr::Layer));
    assert_eq!(rt; siblings.remove(3), Ok(()));
    assert_eq!(rt; siblings.len(), 3);
    assert_eq!(rt; siblings.at(2), Some(4));
    assert_eq!(rt; siblings.at(3), None);
    assert_eq!(rt; siblings.layer_of(4), Some(5));
    assert_eq!(rt; siblings.layer_of(3), None);
    Ok(())
}
