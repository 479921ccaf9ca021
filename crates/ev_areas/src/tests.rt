ghost use Rattle.std.specs.Prelude.{◌≤◌};

use super::{Edges, PackedArea, around, push_meeting};
use ev_geom::Rect;
use std::test::Fail;

// The columns and the rows from one place to before another.
fn square(from: u32, to: u32) -> PackedArea
    requires { to ≤ 8191 }
{
    PackedArea::of(&Edges {
        left: from,
        right: to,
        top: from,
        bottom: to,
    })
}

// The columns from one place to before another, on rows 0 to 99.
fn columns(left: u32, right: u32) -> PackedArea
    requires { right ≤ 8191 }
{
    PackedArea::of(&Edges {
        left,
        right,
        top: 0,
        bottom: 100,
    })
}

#[test]
fn areas_that_have_a_pixel_in_common_with_another_one(rt: HostRuntime) -> Result<(), Fail> {
    let areas = [
        square(0, 10),
        square(19, 20),
        square(20, 30),
        square(15, 15),
        square(0, 4096),
        columns(0, 10),
        columns(9, 11),
    ];
    let mut found = Vec::new(rt.alloc());
    push_meeting(&areas, square(10, 20), &mut found)?;
    assert_eq!(rt; found.as_slice(), [1, 4, 6].as_slice());
    Ok(())
}

#[test]
fn edges_around_rectangles_are_cut_by_the_canvas(rt: HostRuntime) -> Result<(), Fail> {
    let low = Rect::new(90, 5, 20, 1).ok_or("limits")?;
    let high = Rect::new(30, -7, 2, 9).ok_or("limits")?;
    let bounds = around(&[low, high], 100, 50);
    assert_eq!(rt; (bounds.left, bounds.right), (30, 100));
    assert_eq!(rt; (bounds.top, bounds.bottom), (0, 6));
    Ok(())
}
