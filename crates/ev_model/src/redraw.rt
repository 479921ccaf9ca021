// The plain full redraw: record by record, from the lowest to the highest.
ghost use Rattle.std.specs.Prelude.{◌≡◌, All, flat_map, pos, ◌<◌, ◌≤◌, ◌≤ℤ◌, ◌<ℤ◌, ◌+ℤ◌};
ghost use Rattle.std.specs.List.{range_with_len};
ghost use Rattle.ev_argb.specs.Grid.{IsWhole, row_of};
ghost use Rattle.ev_model.specs.Capture.{capture_on, IsLookOn};
ghost use Rattle.ev_model.specs.Limits.{IsObject};
ghost use Rattle.ev_model.specs.Look.{look_of};
ghost use Rattle.ev_model.specs.Paint.{IsRedrawn, redrawn, painted, put_sample, sample_at, put};
ghost use Rattle.ev_model.specs.Remade.{cleared, Remakes, RemakesRow};

use crate::sample::sample_at;
use crate::{Op, Record};
use ev_argb::{Picture, Pixel, over, tint};

/// Paints records on a whole picture, the lowest first, in place of what stood there: afterwards each
/// pixel has the value that docs/CANVAS.md, "Painting" gives to it. The picture has at most 4096
/// columns and rows. Each record's area isn't empty, and lies in the picture and in the rectangle of
/// its object. It takes no memory.
pub fn full_redraw(records: &[Record], picture: &mut Picture)
    requires whole { IsWhole picture.old }
    requires width { picture.old.w ≤ 4096 }
    requires height { picture.old.h ≤ 4096 }
    requires looks { All (λ r. IsLookOn picture.old.w picture.old.h (look_of r)) records.now }
    ensures redrawn { IsRedrawn (capture_on picture.old.w picture.old.h records.now) picture.new }
    ensures rows { flat_map (row_of picture.new) (range_with_len 0 picture.new.h) ≡ redrawn (capture_on picture.old.w picture.old.h records.now) }
{
    clear(picture);
    for one in records {
        paint_record(one, picture);
    }
}

// Makes all pixels clear.
fn clear(picture: &mut Picture)
    requires whole { IsWhole picture.old }
    ensures { Remakes cleared picture.old picture.new }
{
    for y in 0..picture.height() {
        clear_row(picture, y);
    }
}

fn clear_row(picture: &mut Picture, y: u32)
    requires whole { IsWhole picture.old }
    requires row { y < picture.old.h }
    ensures { RemakesRow cleared picture.old picture.new y }
{
    for x in 0..picture.width() {
        picture.set(x, y, Pixel::CLEAR);
    }
}

// Paints a record on a picture in which its area lies.
fn paint_record(one: &Record, picture: &mut Picture)
    requires whole { IsWhole picture.old }
    requires width { picture.old.w ≤ 4096 }
    requires height { picture.old.h ≤ 4096 }
    requires look { IsLookOn picture.old.w picture.old.h (look_of one.now) }
    ensures { Remakes (painted (look_of one.now)) picture.old picture.new }
{
    let top = one.area.y() as u32;
    for y in top..top + one.area.h() as u32 {
        paint_row(one, picture, y);
    }
}

// Paints row y of a record.
fn paint_row(one: &Record, picture: &mut Picture, y: u32)
    requires whole { IsWhole picture.old }
    requires width { picture.old.w ≤ 4096 }
    requires height { picture.old.h ≤ 4096 }
    requires look { IsLookOn picture.old.w picture.old.h (look_of one.now) }
    requires row { y < picture.old.h }
    requires top { one.now.area.y ≤ℤ pos y }
    requires bottom { pos y <ℤ (one.now.area.y +ℤ one.now.area.h) }
    ensures { RemakesRow (painted (look_of one.now)) picture.old picture.new y }
{
    let left = one.area.x() as u32;
    for x in left..left + one.area.w() as u32 {
        let below = picture.get(x, y);
        picture.set(x, y, painted(one, x, y, below));
    }
}

// A value in a record's area, once the record was painted there.
fn painted(one: &Record, x: u32, y: u32, below: Pixel) -> Pixel
    requires column { x < 4096 }
    requires row { y < 4096 }
    requires limits { IsObject one.now.object.value }
    ensures { result ≡ put_sample one.now.object.value.op one.now.color (sample_at one.now.object.value x y) below }
{
    let object = one.object.get();
    match sample_at(object, x, y) {
        Some(q) => put(object.op, tint(q, one.color), below),
        None => below,
    }
}

fn put(op: Op, q: Pixel, value: Pixel) -> Pixel
    ensures { result ≡ put op q value }
{
    match op {
        Op::Copy => q,
        Op::Blend => over(q, value),
    }
}
