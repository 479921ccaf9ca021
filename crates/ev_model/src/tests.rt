// Names, copies, and two records that are painted.
ghost use Rattle.std.specs.Prelude.{◌≡◌, ◌≤◌, IfOk};
ghost use Rattle.ev_model.specs.Capture.{IsLookOn};
ghost use Rattle.ev_model.specs.Limits.{IsContent, IsObject};
ghost use Rattle.ev_model.specs.Look.{look_of};
ghost use Rattle.ev_model.specs.Small.{AreSmall};
ghost use Rattle.ev_model.specs.Stage.{canvas_on};

use crate::{
    Border, Content, Fill, Image, ImagePart, Kind, LoadedImage, Name, Object, Op, Record,
    full_redraw,
};
use ev_argb::{Picture, Pixel};
use ev_geom::Rect;
use ev_state::{Copied, Shared, Tally};
use std::alloc::{AllocError, Global};
use std::sync::Arc;
use std::test::Fail;

#[test]
fn names_begin_with_no_mark_but_an_underscore(rt: HostRuntime) -> Result<(), Fail> {
    let name = Name::read(b"_list-1.a").expect(&rt, "a name");
    assert!(rt; name.bytes() == b"_list-1.a".as_slice());
    assert!(rt; Name::read(b".a").is_none());
    assert!(rt; Name::read(b"").is_none());
    assert!(rt; Name::read(b"a b").is_none());
    assert!(rt; Name::read(&[b'a'; 64]).is_some());
    assert!(rt; Name::read(&[b'a'; 65]).is_none());
    Ok(())
}

// An object of 4 by 4 at 0, 0.
fn object(id: u64, name: Name, color: Pixel, clipper: Option<u64>, content: Content) -> Object
    ensures limits { IsContent content → IsObject result }
    ensures rect { result.rect ≡ canvas_on 4 4 }
{
    Object {
        id,
        name,
        rect: Rect::at_origin(4, 4),
        shown: true,
        color,
        op: Op::Blend,
        layer: 0,
        clipper,
        parent: None,
        content,
    }
}

// The number of the load of an image.
fn load_number(content: &Content) -> Option<u64> {
    match content {
        Content::Image(part) => part.loaded.as_ref().map(|loaded| loaded.number()),
        _ => None,
    }
}

#[test]
fn copies_share_a_loaded_image(rt: HostRuntime) -> Result<(), Fail> {
    let name = Name::read(b"i").expect(&rt, "a name");
    let pixels = vec![in rt.alloc(); Pixel::CLEAR; 1]?;
    let image = Arc::new(rt.alloc(), Image::new(1, 1, pixels))?;
    let part = ImagePart {
        key: Some(name),
        loaded: Some(LoadedImage::new(7, image)),
        fill: Fill::Filled,
        border: Border {
            l: 0,
            r: 0,
            t: 0,
            b: 0,
        },
        center: true,
    };
    let object = object(1, name, Pixel::CLEAR, None, Content::Image(part));
    let copy = object.copied()?;
    assert_eq!(rt; copy.content.kind(), Kind::Image);
    assert_eq!(rt; load_number(&copy.content), Some(7));
    Ok(())
}

// The record of a white rectangle of 4 by 4, of which these columns are left, tinted by a colour.
fn record(alloc: Global, name: Name, columns: u32, color: Pixel) -> Result<Record, AllocError>
    requires some { 1 ≤ columns }
    requires inside { columns ≤ 4 }
    ensures { IfOk result (λ r. IsLookOn 4 4 (look_of r)) }
{
    let white = Pixel::new(255, 255, 255, 255);
    let mut tally = Tally::new();
    let object = object(1, name, white, None, Content::Rect);
    let object = Shared::make(alloc, object, &mut tally)?;
    Ok(Record {
        id: 1,
        area: Rect::at_origin(columns, 4),
        color,
        object,
    })
}

// Two such records, of which the upper one has two columns left.
fn records(alloc: Global, lower: Pixel, upper: Pixel) -> Result<[Record; 2], Fail>
    ensures { IfOk result AreSmall }
{
    let name = Name::read(b"o").ok_or("name")?;
    let lower = record(alloc, name, 4, lower)?;
    let upper = record(alloc, name, 2, upper)?;
    Ok([lower, upper])
}

#[test]
fn records_tint_and_nothing_shines_through(rt: HostRuntime) -> Result<(), Fail> {
    let half = Pixel::new(128, 128, 128, 128);
    let red = Pixel::new(128, 128, 0, 0);
    let records = records(rt.alloc(), half, red)?;
    let mut picture = Picture::new(rt.alloc(), 4, 4)?;
    picture.set(3, 3, Pixel::new(255, 255, 255, 255));
    full_redraw(&records, &mut picture);
    assert!(rt; 3 < picture.width() && 3 < picture.height());
    assert_eq!(rt; picture.get(3, 3).bits(), 0x8080_8080);
    assert_eq!(rt; picture.get(0, 0).bits(), 0xc0c0_4040);
    Ok(())
}
