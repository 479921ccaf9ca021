// Samples of an image that fills an object of w by h.
ghost use Rattle.std.specs.Prelude.{◌≡◌, ℕ, ◌+◌, ◌≤◌, ◌<◌, IfSome, length, map};
ghost use Rattle.std.specs.List.{range_with_len};
ghost use Rattle.ev_model.specs.Limits.{IsFill};
ghost use Rattle.ev_model.specs.Sample.{image_sample};
ghost use Rattle.ev_fill.specs.Parts.{shown_row};

use crate::axes::{ShownRow, place_of};
use crate::form::Form;
use crate::row::{fill_row, place_sample};
use crate::run::empty;
use ev_argb::Pixel;
use ev_model::{Image, ImagePart};

// The sample at column i and row j.
pub(crate) fn image_sample(
    image: &Image,
    part: &ImagePart,
    w: u32,
    h: u32,
    i: u32,
    j: u32,
) -> Option<Pixel>
    requires fill { IsFill part.now.fill }
    requires size { (w ≤ 1000000) × (h ≤ 1000000) }
    requires place { (i < w) × (j < h) }
    ensures { result ≡ image_sample image.now part.now w h i j }
{
    let columns = part.columns(image, w);
    let shown = ShownRow::at(part, image, h, j)?;
    place_sample(image.row(shown.y), &columns, shown.hidden, columns.phase(i))
}

// The samples of row j from column i on, in the form of `into`.
pub(crate) fn image_row<T: Form>(
    image: &Image,
    part: &ImagePart,
    w: u32,
    h: u32,
    i: u32,
    j: u32,
    into: &mut [T],
)
    requires fill { IsFill part.now.fill }
    requires size { (w ≤ 1000000) × (h ≤ 1000000) }
    requires place { (i < w) × (j < h) }
    requires room { i + length into.old ≤ w }
    ensures { into.new ≡ map (λ column. T.form (image_sample image.now part.now w h column j)) (range_with_len i (length into.old)) }
{
    let shown = ShownRow::at(part, image, h, j);
    shown_samples(image, part, w, i, shown, into);
}

// The samples from column i on of each row that shows this, in the form of `into`.
pub(crate) fn shown_samples<T: Form>(
    image: &Image,
    part: &ImagePart,
    w: u32,
    i: u32,
    shown: Option<ShownRow>,
    into: &mut [T],
)
    requires fill { IsFill part.now.fill }
    requires width { w ≤ 1000000 }
    requires place { i < w }
    requires room { i + length into.old ≤ w }
    requires row { IfSome shown (λ shown. shown.y < image.now.h) }
    ensures samples { (h j : ℕ) → j < h → shown_row image.now part.now h j ≡ shown → into.new ≡ map (λ column. T.form (image_sample image.now part.now w h column j)) (range_with_len i (length into.old)) }
    ensures len { length into.new ≡ length into.old }
{
    let columns = part.columns(image, w);
    match shown {
        Some(shown) => {
            let phase = place_of(&columns, i);
            fill_row(image.row(shown.y), &columns, shown.hidden, phase, into);
        }
        None => empty(into),
    }
}
