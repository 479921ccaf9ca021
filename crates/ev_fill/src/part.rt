// Samples of an image object.
ghost use Rattle.std.specs.Prelude.{◌≡◌, ℕ, ◌+◌, ◌≤◌, ◌<◌, IfSome, length};
ghost use Rattle.ev_model.specs.Limits.{IsFill};
ghost use Rattle.ev_model.specs.Sample.{sample};
ghost use Rattle.ev_model.specs.declared.content.Content.TheVariants.{Image};
ghost use Rattle.ev_fill.specs.Rows as rows;

use crate::axes::ShownRow;
use crate::image::{image_row, image_sample, shown_samples};
use crate::run::empty;
use ev_argb::Pixel;
use ev_model::ImagePart;

/// The sample at column i and row j of an image object of w by h pixels, counted from its top left.
/// None where the object shows nothing there (docs/CANVAS.md, "Samples").
pub fn sample(part: &ImagePart, w: u32, h: u32, i: u32, j: u32) -> Option<Pixel>
    requires fill { IsFill part.now.fill }
    requires size { (w ≤ 1000000) × (h ≤ 1000000) }
    requires place { (i < w) × (j < h) }
    ensures { result ≡ sample (Image part.now) w h i j }
{
    match &part.loaded {
        Some(loaded) => image_sample(loaded.image(), part, w, h, i, j),
        None => None,
    }
}

/// The samples in row j of an image object of w by h pixels: place k of `into` becomes the sample
/// at column i + k (docs/CANVAS.md, "Samples").
pub fn sample_row(part: &ImagePart, w: u32, h: u32, i: u32, j: u32, into: &mut [Option<Pixel>])
    requires fill { IsFill part.now.fill }
    requires size { (w ≤ 1000000) × (h ≤ 1000000) }
    requires place { (i < w) × (j < h) }
    requires room { i + length into.old ≤ w }
    ensures { into.new ≡ rows.sample_row part.now w h i j (length into.old) }
{
    match &part.loaded {
        Some(loaded) => image_row(loaded.image(), part, w, h, i, j, into),
        None => empty(into),
    }
}

/// The samples in row j of an image object of w by h pixels, ready to be blended: place k of `into`
/// becomes the sample at column i + k, or `00000000` where that is nothing. This pixel may stand for
/// nothing, since it stays the same under every tint and changes no pixel that it is blended over
/// (docs/CANVAS.md, "Samples" and "Painting"). The operation copy would write it; there `sample_row`
/// tells which places have a sample.
pub fn pixel_row(part: &ImagePart, w: u32, h: u32, i: u32, j: u32, into: &mut [Pixel])
    requires fill { IsFill part.now.fill }
    requires size { (w ≤ 1000000) × (h ≤ 1000000) }
    requires place { (i < w) × (j < h) }
    requires room { i + length into.old ≤ w }
    ensures { into.new ≡ rows.pixel_row part.now w h i j (length into.old) }
{
    match &part.loaded {
        Some(loaded) => image_row(loaded.image(), part, w, h, i, j, into),
        None => empty(into),
    }
}

/// What row j of an image object, h pixels high, shows of its image. None where it shows nothing
/// (docs/CANVAS.md, "Samples").
pub fn shown_row(part: &ImagePart, h: u32, j: u32) -> Option<ShownRow>
    requires fill { IsFill part.now.fill }
    requires height { h ≤ 1000000 }
    requires place { j < h }
    ensures value { result ≡ rows.shown_row part.now h j }
    ensures within { IfSome result (rows.HasRow part.now) }
{
    match &part.loaded {
        Some(loaded) => ShownRow::at(part, loaded.image(), h, j),
        None => None,
    }
}

/// As `pixel_row`, for each row of an image object, w pixels wide, that shows this: place k of `into`
/// becomes the sample at column i + k, or `00000000` where that is nothing (docs/CANVAS.md, "Samples").
pub fn shown_pixels(part: &ImagePart, w: u32, i: u32, shown: Option<ShownRow>, into: &mut [Pixel])
    requires fill { IsFill part.now.fill }
    requires width { w ≤ 1000000 }
    requires place { i < w }
    requires room { i + length into.old ≤ w }
    requires row { IfSome shown (rows.HasRow part.now) }
    ensures pixels { (h j : ℕ) → j < h → rows.shown_row part.now h j ≡ shown → into.new ≡ rows.pixel_row part.now w h i j (length into.old) }
    ensures len { length into.new ≡ length into.old }
{
    match &part.loaded {
        Some(loaded) => shown_samples(loaded.image(), part, w, i, shown, into),
        None => empty(into),
    }
}
