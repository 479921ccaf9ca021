// Small planes, worked by hand.
use crate::solid::put_solid;
use crate::text::put_bits;
use ev_argb::{Pixel, Plane};
use ev_cmds::Patch;
use ev_model::Op;
use std::test::Fail;

#[test]
fn one_colour_on_a_patch(rt: HostRuntime) -> Result<(), Fail> {
    let glass = Pixel::new(0x80, 0, 0, 0x80);
    let patch = Patch {
        left: 1,
        right: 3,
        top: 1,
        bottom: 3,
    };
    let mut plane = Plane::new(rt.alloc(), 4, 3)?;
    put_solid(patch, Op::Blend, glass, &mut plane);
    put_solid(patch, Op::Blend, glass, &mut plane);
    assert_eq!(rt; plane.painted(), 20);
    assert_eq!(rt; plane.get(0, 1).bits(), 0);
    assert_eq!(rt; plane.get(1, 0).bits(), 0);
    assert_eq!(rt; plane.get(1, 1).bits(), 0xc00000c0);
    assert_eq!(rt; plane.get(2, 2).bits(), 0xc00000c0);
    put_solid(patch, Op::Copy, glass, &mut plane);
    assert_eq!(rt; plane.get(2, 2).bits(), 0x80000080);
    assert_eq!(rt; plane.painted(), 24);
    Ok(())
}

#[test]
fn bits_in_one_colour(rt: HostRuntime) -> Result<(), Fail> {
    let red = Pixel::new(0xff, 0xff, 0, 0);
    let mut plane = Plane::new(rt.alloc(), 5, 2)?;
    let bits = [true, true, false, true];
    put_bits(&bits, Op::Copy, red, 1, 1, &mut plane);
    assert_eq!(rt; plane.painted(), 13);
    assert_eq!(rt; plane.get(1, 0).bits(), 0);
    assert_eq!(rt; plane.get(2, 1), red);
    assert_eq!(rt; plane.get(3, 1).bits(), 0);
    assert_eq!(rt; plane.get(4, 1), red);
    Ok(())
}
