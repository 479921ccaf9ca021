use super::{LinkErr, Links};
use ev_model::Kind;
use std::test::Fail;

#[test]
fn edits(rt: HostRuntime) -> Result<(), Fail> {
    let mut links = Links::new(rt.alloc());
    assert!(rt; links.is_empty());
    links.add(1, Kind::Rect)?;
    links.add(2, Kind::Rect)?;
    links.add(3, Kind::Smart)?;
    links.add(4, Kind::Smart)?;
    links.add(5, Kind::Text)?;
    for (id, clipper, answer) in [
        (1, 9, Err(LinkErr::Unknown)),
        (1, 1, Err(LinkErr::Itself)),
        (1, 4, Err(LinkErr::Kind)),
        (1, 2, Ok(())),
        (2, 1, Err(LinkErr::Cycle)),
    ] {
        assert_eq!(rt; links.clip(id, clipper), answer);
    }
    for (id, smart, answer) in [
        (9, 3, Err(LinkErr::Unknown)),
        (3, 3, Err(LinkErr::Itself)),
        (5, 1, Err(LinkErr::Kind)),
        (5, 3, Ok(())),
        (3, 4, Ok(())),
        (4, 3, Err(LinkErr::Cycle)),
        (2, 3, Err(LinkErr::Clipping)),
    ] {
        assert_eq!(rt; links.join(id, smart), answer);
    }
    assert_eq!(rt; links.clip(5, 1), Err(LinkErr::Sibling));
    assert_eq!(rt; links.next_up(1), Some(2));
    assert_eq!(rt; links.up(5, 2), Some(4));
    assert_eq!(rt; links.up(5, 3), None);
    assert!(rt; links.inside(5, 4) && !links.inside(4, 5));
    assert_eq!(rt; links.below_of(2), 1);
    assert_eq!(rt; links.leave(2), Err(LinkErr::Clipping));
    assert_eq!(rt; links.unclip(1), Ok(()));
    assert_eq!(rt; links.leave(5), Ok(()));
    assert_eq!(rt; links.next_up(5), None);
    assert_eq!(rt; links.len(), 5);
    Ok(())
}

#[test]
fn removal(rt: HostRuntime) -> Result<(), Fail> {
    let mut links = Links::new(rt.alloc());
    links.add(1, Kind::Rect)?;
    assert_eq!(rt; links.drop_id(1), Ok(()));
    assert_eq!(rt; links.len(), 0);
    Ok(())
}

#[test]
fn removal_of_many(rt: HostRuntime) -> Result<(), Fail> {
    let mut links = Links::new(rt.alloc());
    links.add(1, Kind::Smart)?;
    links.drop_all(&[1, 2]);
    assert!(rt; links.is_empty());
    Ok(())
}
