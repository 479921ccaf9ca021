use super::{NoMemory, Picture, Pixel, Plane, mul, over, tint};
use std::test::Fail;

fn pixel(bits: u32) -> Result<Pixel, Fail> {
    Ok(Pixel::from_bits(bits).ok_or("not premultiplied")?)
}

#[test]
fn arithmetic(rt: HostRuntime) -> Result<(), Fail> {
    assert_eq!(rt; mul(77, 255), 77);
    assert_eq!(rt; mul(77, 0), 0);
    assert_eq!(rt; mul(128, 128), 64);
    let white = pixel(0xffffffff)?;
    assert_eq!(rt; over(pixel(0x80800000)?, white).bits(), 0xffff7f7f);
    assert_eq!(rt; over(pixel(0xfefe0000)?, white).bits(), 0xffff0101);
    assert_eq!(rt; over(Pixel::CLEAR, pixel(0x80402010)?).bits(), 0x80402010);
    assert_eq!(rt; tint(pixel(0x80402010)?, white).bits(), 0x80402010);
    assert_eq!(rt; tint(white, pixel(0x80402010)?).bits(), 0x80402010);
    assert_eq!(rt; Pixel::new(0x40, 0x80, 0x20, 0x40).bits(), 0x40402040);
    assert!(rt; Pixel::from_bits(0x40410000).is_none());
    Ok(())
}

#[test]
fn spans_are_counted(rt: HostRuntime) -> Result<(), Fail> {
    let red = pixel(0xffff0000)?;
    let glass = pixel(0x80000080)?;
    let mut plane = Plane::new(rt.alloc(), 4, 3)?;
    plane.copy_span(1, 1, &[red, red]);
    plane.blend_span(2, 1, &[glass, glass]);
    assert_eq!(rt; plane.painted(), 16);
    assert_eq!(rt; plane.get(0, 1).bits(), 0);
    assert_eq!(rt; plane.get(1, 1).bits(), 0xffff0000);
    assert_eq!(rt; plane.get(2, 1).bits(), 0xff7f0080);
    assert_eq!(rt; plane.get(3, 1).bits(), 0x80000080);
    Ok(())
}

#[test]
fn one_pixel_on_a_rectangle(rt: HostRuntime) -> Result<(), Fail> {
    let mut plane = Plane::new(rt.alloc(), 7, 3)?;
    plane.fill_rect(1, 1, 5, 2, pixel(0x80000080)?);
    plane.blend_rect(2, 2, 5, 1, pixel(0x80800000)?);
    assert_eq!(rt; plane.painted(), 36);
    assert_eq!(rt; plane.get(5, 0).bits(), 0);
    assert_eq!(rt; plane.get(5, 1).bits(), 0x80000080);
    assert_eq!(rt; plane.get(5, 2).bits(), 0xc0800040);
    assert_eq!(rt; plane.get(6, 2).bits(), 0x80800000);
    assert_eq!(rt; plane.width(), 7);
    assert_eq!(rt; plane.height(), 3);
    Ok(())
}

#[test]
fn planes_come_and_go(rt: HostRuntime) -> Result<(), Fail> {
    let red = pixel(0xffff0000)?;
    let mut picture = Picture::new(rt.alloc(), 70, 65)?;
    picture.set(69, 64, red);
    assert_eq!(rt; picture.get(69, 64), red);
    let mut row = vec![in rt.alloc(); Pixel::CLEAR; 70]?;
    picture.row(64, &mut row);
    assert_eq!(rt; row[68], Pixel::CLEAR);
    assert_eq!(rt; row[69], red);
    let plane = picture.take_plane(3).ok_or("out")?;
    assert_eq!(rt; plane.painted(), 7);
    assert!(rt; !picture.is_whole());
    picture.put_plane(3, plane);
    assert!(rt; picture.is_whole());
    Ok(())
}
