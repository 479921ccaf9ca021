// Tiles of a canvas of 4 by 4, drawn from records and worked by hand.
ghost use Rattle.std.specs.Prelude.{◌≡◌, ◌≤◌, ◌<◌, IfOk};
ghost use Rattle.ev_geom.specs.Bands.{has_pixel};
ghost use Rattle.ev_region.specs.Count.{LiesWithin};
ghost use Rattle.ev_model.specs.Capture.{IsLookOn};
ghost use Rattle.ev_model.specs.Limits.{IsContent, IsObject};
ghost use Rattle.ev_model.specs.Look.{look_of};
ghost use Rattle.ev_model.specs.Small.{AreSmall};
ghost use Rattle.ev_model.specs.Stage.{canvas_on};
ghost use Rattle.ev_draw.specs.SmallPlanes.{IsSmallPlane};

use crate::{TileJob, draw};
use ev_argb::{Pixel, Plane};
use ev_cmds::Commands;
use ev_geom::Rect;
use ev_model::{
    Border, Content, Fill, Image, ImagePart, LoadedImage, Name, NoMemory, Object, Op, Record,
};
use ev_region::Region;
use ev_state::{Shared, Tally};
use std::alloc::Global;
use std::sync::Arc;
use std::test::Fail;

fn white() -> Pixel {
    Pixel::new(255, 255, 255, 255)
}

// An object of 4 by 4 at 0, 0.
fn object(name: Name, content: Content) -> Object
    ensures limits { IsContent content → IsObject result }
    ensures rect { result.rect ≡ canvas_on 4 4 }
{
    Object {
        id: 1,
        name,
        rect: Rect::at_origin(4, 4),
        shown: true,
        color: white(),
        op: Op::Blend,
        layer: 0,
        clipper: None,
        parent: None,
        content,
    }
}

// The record of such an object, all of which is painted in a colour.
fn record(alloc: Global, name: Name, color: Pixel, content: Content) -> Result<Record, NoMemory>
    requires { IsContent content }
    ensures { IfOk result (λ r. IsLookOn 4 4 (look_of r)) }
{
    let mut tally = Tally::new();
    let object = object(name, content);
    let object = Shared::make(alloc, object, &mut tally)?;
    Ok(Record {
        id: 1,
        area: Rect::at_origin(4, 4),
        color,
        object,
    })
}

// A white rectangle and what lies above it.
fn over_white(alloc: Global, color: Pixel, content: Content) -> Result<[Record; 2], Fail>
    requires { IsContent content }
    ensures { IfOk result AreSmall }
{
    let name = Name::read(b"o").ok_or("name")?;
    let lower = record(alloc, name, white(), Content::Rect)?;
    let upper = record(alloc, name, color, content)?;
    Ok([lower, upper])
}

// An image of 3 by 3 equal pixels with a border of 1 on each side, whose centre isn't shown.
fn frame_of(alloc: Global, pixel: Pixel) -> Result<Content, Fail>
    ensures { IfOk result IsContent }
{
    let pixels = vec![in alloc; pixel; 9]?;
    let image = Arc::new(alloc, Image::new(3, 3, pixels))?;
    Ok(Content::Image(ImagePart {
        key: None,
        loaded: Some(LoadedImage::new(1, image)),
        fill: Fill::Filled,
        border: Border {
            l: 1,
            r: 1,
            t: 1,
            b: 1,
        },
        center: false,
    }))
}

// The pixels of the first columns and rows.
fn corner(alloc: Global, side: u32) -> Result<Region, NoMemory>
    requires { side ≤ 4 }
    ensures { IfOk result (λ work. LiesWithin 4 4 (has_pixel work)) }
{
    let mut work = Region::new(alloc);
    work.add_rect(&Rect::at_origin(side, side))?;
    Ok(work)
}

// A plane of 4 by 4 pixels of one colour. All of them count as painted twice.
fn plane_of(alloc: Global, pixel: Pixel) -> Result<Plane, NoMemory>
    ensures { IfOk result (λ plane. IsSmallPlane plane × (plane.painted ≡ 32)) }
{
    let mut plane = Plane::new(alloc, 4, 4)?;
    plane.fill_rect(0, 0, 4, 4, pixel);
    Ok(plane)
}

// The one tile of the canvas, drawn on a plane of green pixels.
fn drawn(alloc: Global, records: &[Record; 2], work: &Region) -> Result<Plane, Fail>
    requires records { AreSmall records.now }
    requires work { LiesWithin 4 4 (has_pixel work.now) }
    ensures { IfOk result IsSmallPlane }
{
    let [lower, upper] = records;
    let commands = Commands::build(alloc, &[lower, upper], work, 4, 4)?;
    if commands.tiles() != 1 {
        return Err("tiles".into());
    }
    commands.for_tile(0);
    let plane = plane_of(alloc, Pixel::new(255, 0, 255, 0))?;
    let commands = Arc::new(alloc, commands)?;
    Ok(draw(TileJob::new(commands, 0, plane)).plane())
}

// The pixels of a row.
fn row(plane: &Plane, y: u32) -> [u32; 4]
    requires plane { IsSmallPlane plane.now }
    requires row { y < 4 }
{
    let mut found = [0; 4];
    for x in 0..4 {
        found[x as usize] = plane.get(x, y).bits();
    }
    found
}

#[test]
fn nearly_opaque_colours_let_white_through(rt: HostRuntime) -> Result<(), Fail> {
    let red = Pixel::new(254, 254, 0, 0);
    let records = over_white(rt.alloc(), red, Content::Rect)?;
    let work = corner(rt.alloc(), 4)?;
    let plane = drawn(rt.alloc(), &records, &work)?;
    assert_eq!(rt; row(&plane, 0), [0xffff_0101; 4]);
    assert_eq!(rt; row(&plane, 3), [0xffff_0101; 4]);
    assert_eq!(rt; plane.painted(), 32 + 32);
    Ok(())
}

#[test]
fn white_stays_where_a_centre_is_off(rt: HostRuntime) -> Result<(), Fail> {
    let content = frame_of(rt.alloc(), Pixel::new(255, 0, 0, 255))?;
    let records = over_white(rt.alloc(), white(), content)?;
    let work = corner(rt.alloc(), 4)?;
    let plane = drawn(rt.alloc(), &records, &work)?;
    let whole = [0xff00_00ff; 4];
    let framed = [0xff00_00ff, 0xffff_ffff, 0xffff_ffff, 0xff00_00ff];
    assert_eq!(rt; row(&plane, 0), whole);
    assert_eq!(rt; row(&plane, 1), framed);
    assert_eq!(rt; row(&plane, 2), framed);
    assert_eq!(rt; row(&plane, 3), whole);
    Ok(())
}

#[test]
fn only_the_work_region_is_drawn_and_nothing_that_is_hidden(rt: HostRuntime) -> Result<(), Fail> {
    let red = Pixel::new(255, 255, 0, 0);
    let records = over_white(rt.alloc(), red, Content::Rect)?;
    let work = corner(rt.alloc(), 2)?;
    let plane = drawn(rt.alloc(), &records, &work)?;
    let half = [0xffff_0000, 0xffff_0000, 0xff00_ff00, 0xff00_ff00];
    assert_eq!(rt; row(&plane, 0), half);
    assert_eq!(rt; row(&plane, 1), half);
    assert_eq!(rt; row(&plane, 2), [0xff00_ff00; 4]);
    assert_eq!(rt; plane.painted(), 32 + 4);
    Ok(())
}
