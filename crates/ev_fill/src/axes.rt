// The axes of an image that fills an object: its columns, and the row that is shown.
ghost use Rattle.std.specs.Prelude.{◌≡◌, ◌+◌, ◌≤◌, ◌<◌, ◌&&◌, not, IfSome};
ghost use Rattle.ev_model.specs.Axis.{IsAxis, is_middle, phase, source_at};
ghost use Rattle.ev_model.specs.Limits.{IsFill};

use ev_model::{Axis, Image, ImagePart};

/// The row of an image that a row of an object shows, and whether it is shown without what lies
/// between the borders of its columns. Rows of an object that show the same have the same samples
/// (docs/CANVAS.md, "Samples").
#[derive(Clone, Copy, PartialEq, Eq)]
pub struct ShownRow {
    pub(crate) y: u32,
    pub(crate) hidden: bool,
}

impl ShownRow {
    ghost use Rattle.ev_fill.specs.Parts.{shown_row};

    // What row j of an object of height h shows. None where the image has nothing there.
    pub(crate) fn at(part: &ImagePart, image: &Image, h: u32, j: u32) -> Option<ShownRow>
        requires fill { IsFill part.now.fill }
        requires height { h ≤ 1000000 }
        requires place { j < h }
        ensures value { result ≡ shown_row image.now part.now h j }
        ensures within { IfSome result (λ shown. shown.y < image.now.h) }
    {
        let rows = part.rows(image, h);
        let v = place_of(&rows, j);
        let y = source_of(&rows, v)?;
        let hidden = is_hidden(&rows, part.center, v);
        Some(ShownRow { y, hidden })
    }
}

// The place in the fill of place i of the object. Most lie before the fill begins anew, and need no
// division.
pub(crate) fn place_of(axis: &Axis, i: u32) -> u32
    requires axis { IsAxis axis.now }
    requires place { i ≤ 2000000 }
    ensures value { result ≡ phase axis.now i }
    ensures within { result < axis.now.len }
{
    let far = i64::from(i) - i64::from(axis.start);
    if 0 <= far && far < i64::from(axis.len) {
        far as u32
    } else {
        axis.phase(i)
    }
}

// The place in the image of place u of the fill. Where the middle keeps its size, this needs no division.
fn source_of(axis: &Axis, u: u32) -> Option<u32>
    requires axis { IsAxis axis.now }
    requires place { u < axis.now.len }
    ensures value { result ≡ source_at axis.now u }
    ensures within { IfSome result (λ x. x < axis.now.source) }
{
    if axis.len == axis.source {
        Some(u)
    } else {
        axis.source_at(u)
    }
}

// Whether the middle of the columns is hidden in a row at place v of the fill.
fn is_hidden(rows: &Axis, center: bool, v: u32) -> bool
    ensures { result ≡ (not center && is_middle rows.now v) }
{
    !center && rows.is_middle(v)
}
