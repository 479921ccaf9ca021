// What an object shows at one of its places.
ghost use Rattle.std.specs.Prelude.{◌≡◌, ◌+◌, ◌-◌, ◌*◌, ◌<◌, ◌≤◌, ◌==◌, pos, ◌-ℤ◌, unsigned_abs};
ghost use Rattle.std.specs.Int.{bit_at};
ghost use Rattle.ev_geom.specs.Area.{IsPlace};
ghost use Rattle.ev_model.specs.Axis.{IsAxis};
ghost use Rattle.ev_model.specs.Limits.{IsContent, IsFill, IsObject};
ghost use Rattle.ev_model.specs.Glyphs.{IsCharacter, IsText, glyph_bit, text_bit, width_of, row_of};
ghost use Rattle.ev_model.specs.Sample.{axes_sample, image_sample, text_sample, sample};
ghost use Rattle.ev_model.specs.Paint.{sample_at};

use crate::{Axis, Content, Font, Image, ImagePart, Object};
use ev_argb::Pixel;

// The sample of an object at a place of the canvas that lies in it.
pub fn sample_at(object: &Object, x: u32, y: u32) -> Option<Pixel>
    requires column { x < 4096 }
    requires row { y < 4096 }
    requires limits { IsObject object.now }
    ensures { result ≡ sample_at object.now x y }
{
    let w = object.rect.w().unsigned_abs();
    let h = object.rect.h().unsigned_abs();
    let i = offset(object.rect.x(), x);
    let j = offset(object.rect.y(), y);
    sample(&object.content, w, h, i, j)
}

fn offset(from: i32, at: u32) -> u32
    requires at { at < 4096 }
    requires from { IsPlace from }
    ensures offset { result ≡ unsigned_abs (pos at -ℤ from) }
    ensures near { result ≤ 2000000 }
{
    (at as i32 - from).unsigned_abs()
}

fn sample(content: &Content, w: u32, h: u32, i: u32, j: u32) -> Option<Pixel>
    requires size { (w ≤ 1000000) × (h ≤ 1000000) }
    requires place { (i ≤ 2000000) × (j ≤ 2000000) }
    requires limits { IsContent content.now }
    ensures { result ≡ sample content.now w h i j }
{
    match content {
        Content::Rect => Some(Pixel::new(255, 255, 255, 255)),
        Content::Smart => None,
        Content::Image(part) => match &part.loaded {
            Some(loaded) => image_sample(loaded.image(), part, w, h, i, j),
            None => None,
        },
        Content::Text(part) => match &part.loaded {
            Some(loaded) => text_sample(loaded.font(), part.text.bytes(), i, j),
            None => None,
        },
    }
}

fn image_sample(image: &Image, part: &ImagePart, w: u32, h: u32, i: u32, j: u32) -> Option<Pixel>
    requires size { (w ≤ 1000000) × (h ≤ 1000000) }
    requires place { (i ≤ 2000000) × (j ≤ 2000000) }
    requires fill { IsFill part.now.fill }
    ensures { result ≡ image_sample image.now part.now w h i j }
{
    let columns = part.columns(image, w);
    let rows = part.rows(image, h);
    if 0 < columns.len && 0 < rows.len {
        axes_sample(image, &columns, &rows, part.center, i, j)
    } else {
        None
    }
}

fn axes_sample(
    image: &Image,
    columns: &Axis,
    rows: &Axis,
    center: bool,
    i: u32,
    j: u32,
) -> Option<Pixel>
    requires columns { IsAxis columns.now }
    requires rows { IsAxis rows.now }
    requires place { (i ≤ 2000000) × (j ≤ 2000000) }
    ensures { result ≡ axes_sample image.now columns.now rows.now center i j }
{
    let u = columns.phase(i);
    let v = rows.phase(j);
    if !center && columns.is_middle(u) && rows.is_middle(v) {
        return None;
    }
    let x = columns.source_at(u)?;
    let y = rows.source_at(v)?;
    let at = y as usize * image.width() as usize + x as usize;
    image.pixels().get(at).copied()
}

fn text_sample(font: &Font, text: &[u8], i: u32, j: u32) -> Option<Pixel>
    requires { IsText text.now }
    ensures { result ≡ text_sample font.now text.now i j }
{
    if text_bit(font, text, i, j) {
        Some(Pixel::new(255, 255, 255, 255))
    } else {
        None
    }
}

// Whether column x of row y of a text is set.
fn text_bit(font: &Font, text: &[u8], x: u32, y: u32) -> bool
    requires { IsText text.now }
    ensures { result ≡ text_bit font.now text.now x y }
{
    let mut x = x;
    for c in text {
        let width = width_of(font, *c);
        if x < width {
            return glyph_bit(font, *c, x, y);
        }
        x -= width;
    }
    false
}

fn width_of(font: &Font, c: u8) -> u32
    requires { IsCharacter c }
    ensures width { result ≡ width_of font.now c }
    ensures narrow { result ≤ 32 }
{
    u32::from(font.widths()[c as usize - 32])
}

fn glyph_bit(font: &Font, c: u8, x: u32, y: u32) -> bool
    requires { IsCharacter c }
    ensures { result ≡ glyph_bit font.now c x y }
{
    x < width_of(font, c) && y < font.height() && is_set(row_of(font, c, y), x)
}

// The bits of row y of a glyph.
fn row_of(font: &Font, c: u8, y: u32) -> u32
    requires character { IsCharacter c }
    requires row { y < font.now.height }
    ensures { result ≡ row_of font.now c y }
{
    font.rows()[(c as usize - 32) * font.height() as usize + y as usize]
}

fn is_set(row: u32, x: u32) -> bool
    requires { x < 32 }
    ensures { result ≡ (bit_at row x == 1) }
{
    (row >> x) & 1 == 1
}
