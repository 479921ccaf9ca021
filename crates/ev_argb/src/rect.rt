// One pixel on a rectangle of rows of pixels. Columns are taken 16, 4 or 1 at a time, each through all rows, so that the
// compiler sees how many pixels a step has.
ghost use Rattle.std.specs.Prelude.{◌≡◌, ◌+◌, ◌-◌, ◌*◌, ◌<◌, ◌≤◌, length, map};
ghost use Rattle.ev_argb.specs.Argb as argb;
ghost use Rattle.ev_argb.specs.Tile.{PutsRect, made};

use crate::pixel::{Pixel, over};

// How one pixel is put on others.
#[derive(Clone, Copy, Debug, PartialEq, Eq)]
pub(crate) enum Way {
    Fill,
    Blend,
}

// Puts a pixel on a rectangle of rows that are `across` wide.
#[inline(always)]
pub(crate) fn put_rect(
    to: &mut [Pixel],
    way: Way,
    pixel: Pixel,
    across: usize,
    x: usize,
    y: usize,
    w: usize,
    h: usize,
)
    requires columns { x + w ≤ across }
    requires small { y + h ≤ 64 }
    requires rows { (y + h) * across ≤ length to.old }
    ensures { PutsRect across x y w h (made way pixel) to.old to.new }
{
    let end = x + w;
    let from = put_steps(to, way, pixel, across, x, end, 16, y, h);
    let from = put_steps(to, way, pixel, across, from, end, 4, y, h);
    put_steps(to, way, pixel, across, from, end, 1, y, h);
}

// Puts a pixel on columns as long as a whole step fits, and returns the first column that is left.
#[inline(always)]
fn put_steps(
    to: &mut [Pixel],
    way: Way,
    pixel: Pixel,
    across: usize,
    x: usize,
    end: usize,
    step: usize,
    y: usize,
    h: usize,
) -> usize
    requires some { 0 < step }
    requires order { x ≤ end }
    requires columns { end ≤ across }
    requires small { y + h ≤ 64 }
    requires rows { (y + h) * across ≤ length to.old }
    ensures after { x ≤ result }
    ensures within { result ≤ end }
    ensures close { end < result + step }
    ensures put { PutsRect across x y (result - x) h (made way pixel) to.old to.new }
{
    let mut from = x;
    while end - from >= step {
        put_columns(to, way, pixel, across, from, step, y, h);
        from += step;
    }
    from
}

// Puts a pixel on columns of all rows of a rectangle.
#[inline(always)]
fn put_columns(
    to: &mut [Pixel],
    way: Way,
    pixel: Pixel,
    across: usize,
    x: usize,
    w: usize,
    y: usize,
    h: usize,
)
    requires columns { x + w ≤ across }
    requires small { y + h ≤ 64 }
    requires rows { (y + h) * across ≤ length to.old }
    ensures { PutsRect across x y w h (made way pixel) to.old to.new }
{
    for j in y..y + h {
        let at = j * across + x;
        put_all(&mut to[at..at + w], way, pixel);
    }
}

// Puts a pixel on each of `to`.
#[inline(always)]
fn put_all(to: &mut [Pixel], way: Way, pixel: Pixel)
    ensures { to.new ≡ map (made way pixel) to.old }
{
    for i in 0..to.len() {
        to[i] = put_on(way, pixel, to[i]);
    }
}

// What a pixel that is put on another makes of it.
#[inline(always)]
fn put_on(way: Way, pixel: Pixel, under: Pixel) -> Pixel
    ensures { result ≡ made way pixel under }
{
    match way {
        Way::Fill => pixel,
        Way::Blend => over(pixel, under),
    }
}
