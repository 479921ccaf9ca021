use super::{Rect, is_place, is_side};
use std::test::Fail;

fn rect(x: i64, y: i64, w: i64, h: i64) -> Result<Rect, Fail> {
    Ok(Rect::new(x, y, w, h).ok_or("limits")?)
}

#[test]
fn limits(rt: HostRuntime) -> Result<(), Fail> {
    assert!(rt; Rect::new(-1_000_000, 1_000_000, 0, 1_000_000).is_some());
    assert!(rt; Rect::new(1_000_001, 0, 1, 1).is_none());
    assert!(rt; Rect::new(0, 0, 1, -1).is_none());
    assert!(rt; is_place(-1_000_000) && !is_place(-1_000_001));
    assert!(rt; is_side(0) && !is_side(-1));
    assert_eq!(rt; rect(3, 4, 5, 6)?.moved(-5, 1), Some(rect(-2, 5, 5, 6)?));
    assert!(rt; rect(3, 4, 5, 6)?.moved(i64::MAX, 0).is_none());
    Ok(())
}

#[test]
fn pixels(rt: HostRuntime) -> Result<(), Fail> {
    let a = rect(0, 0, 4, 4)?;
    assert!(rt; a.contains(3, 0) && !a.contains(4, 0));
    assert_eq!(rt; a.meet(&rect(2, -1, 9, 3)?), rect(2, 0, 2, 2)?);
    assert_eq!(rt; a.meet(&rect(4, 0, 4, 4)?), Rect::NOWHERE);
    assert!(rt; a.meet(&rect(4, 0, 4, 4)?).is_empty());
    assert_eq!(rt; a.placed(7, 8).sized(1, 2), rect(7, 8, 1, 2)?);
    assert_eq!(rt; Rect::at_origin(4, 4), a);
    Ok(())
}
