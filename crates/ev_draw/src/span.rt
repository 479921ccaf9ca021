// Spans of a plane, each pixel of which is put there.
ghost use Rattle.std.specs.Prelude.{◌≡◌, ◌+◌, ◌*◌, ◌<◌, ◌≤◌, ◌^◌, true, length, map};
ghost use Rattle.ev_argb.specs.Argb.{tint};
ghost use Rattle.ev_model.specs.Paint.{put};
ghost use Rattle.ev_model.specs.Sample.{white};
ghost use Rattle.ev_draw.specs.Making.{Paints, rectangle, span, pixel_of};

use ev_argb::{Pixel, Plane, are_opaque, tint};
use ev_model::Op;

// Puts pixels in place of, or over, those from column x of row y on.
pub(crate) fn put_span(op: Op, x: u32, y: u32, row: &[Pixel], plane: &mut Plane)
    requires columns { x + length row.now ≤ plane.old.w }
    requires row { y < plane.old.h }
    requires count { plane.old.painted + length row.now < 2 ^ 64 }
    ensures { Paints (span x y (length row.now)) (λ i j value. put op (pixel_of row.now x i) value) (length row.now) plane.old plane.new }
{
    match op {
        Op::Copy => plane.copy_span(x, y, row),
        Op::Blend => plane.blend_span(x, y, row),
    }
}

// Puts one colour in place of, or over, the pixels of w columns from column x on and h rows from row y on.
#[inline(always)]
pub(crate) fn put_color(op: Op, color: Pixel, x: u32, y: u32, w: u32, h: u32, plane: &mut Plane)
    requires columns { x + w ≤ plane.old.w }
    requires rows { y + h ≤ plane.old.h }
    requires count { plane.old.painted + w * h < 2 ^ 64 }
    ensures { Paints (rectangle x y w h) (λ i j value. put op color value) (w * h) plane.old plane.new }
{
    match op {
        Op::Copy => plane.fill_rect(x, y, w, h, color),
        Op::Blend => plane.blend_rect(x, y, w, h, color),
    }
}

// Tints each pixel of a row.
pub(crate) fn tint_row(row: &mut [Pixel], color: Pixel)
    ensures { row.new ≡ map (λ p. tint p color) row.old }
{
    if is_white(color) {
        // White leaves pixels as they are. The proof takes from this call that these are premultiplied.
        are_opaque(row);
    } else {
        tint_each(row, color);
    }
}

fn is_white(color: Pixel) -> bool
    ensures { result ≡ true → color ≡ white }
{
    color == Pixel::new(255, 255, 255, 255)
}

// Tints each pixel, whatever the colour.
fn tint_each(row: &mut [Pixel], color: Pixel)
    ensures { row.new ≡ map (λ p. tint p color) row.old }
{
    for i in 0..row.len() {
        row[i] = tint(row[i], color);
    }
}
