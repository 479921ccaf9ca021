// Text in a font: its glyphs stand one after the other from the left.
ghost use Rattle.std.specs.Prelude.{◌≡◌, ℕ, ◌+◌, ◌≤◌, ◌<◌, ◌^◌, ◌==◌, length, map, replicate, None};
ghost use Rattle.std.specs.List.{range_with_len};
ghost use Rattle.std.specs.Int.{bit_at};
ghost use Rattle.ev_model.specs.Glyphs.{IsText, text_bit, text_width};
ghost use Rattle.ev_model.specs.Sample.{text_sample};
ghost use Rattle.ev_text.specs.TextRows as rows;

use crate::form::Form;
use crate::glyph::{has_bit, row_of, width_of};
use ev_argb::Pixel;
use ev_model::Font;

/// The width of a text, which is the sum of its glyphs' widths, and the height of its font.
pub fn text_size(font: &Font, text: &[u8]) -> (u32, u32)
    requires { IsText text.now }
    ensures width { result.0 ≡ text_width font.now text.now }
    ensures height { result.1 ≡ font.now.height }
{
    let mut width = 0;
    for character in text {
        width += width_of(font, *character);
    }
    (width, font.height())
}

/// The rest of a text from the glyph at column x on, and the column of that glyph at which x stands.
/// So a row from column x on is that row of the rest from this column on: whoever draws many rows
/// from the same column finds the glyph once.
pub fn text_from<'a>(font: &Font, text: &'a [u8], x: u32) -> (&'a [u8], u32)
    requires { IsText text.now }
    ensures same { (y j : ℕ) → text_bit font.now result.0.now (result.1 + j) y ≡ text_bit font.now text.now (x + j) y }
    ensures first { rows.IsInFirst font.now result.0.now result.1 }
    ensures before { result.1 ≤ x }
    ensures text { IsText result.0.now }
{
    let mut left = x;
    for (i, character) in text.iter().enumerate() {
        let width = width_of(font, *character);
        if left < width {
            return (&text[i..], left);
        }
        left -= width;
    }
    (&[], left)
}

/// Which samples of row y of a text are pixels: place k of `into` becomes whether the one at column
/// x + k is (docs/CANVAS.md, "Samples").
pub fn text_row(font: &Font, text: &[u8], x: u32, y: u32, into: &mut [bool])
    requires text { IsText text.now }
    requires end { x + length into.old < 2 ^ 32 }
    ensures { into.new ≡ rows.text_row font.now text.now x y (length into.old) }
{
    fill_row(font, text, x, y, into);
}

/// The samples in row y of a text, ready to be drawn: place k of `into` becomes the sample at column
/// x + k, which is `ffffffff`, or `00000000` where that is nothing. So may nothing be drawn:
/// `00000000` stays as it is under every tint, and blending it changes no pixel (docs/CANVAS.md,
/// "Samples" and "Painting").
pub fn text_pixels(font: &Font, text: &[u8], x: u32, y: u32, into: &mut [Pixel])
    requires text { IsText text.now }
    requires end { x + length into.old < 2 ^ 32 }
    ensures { into.new ≡ rows.text_pixels font.now text.now x y (length into.old) }
{
    fill_row(font, text, x, y, into);
}

// A row of a text, glyph by glyph, in the form of `into`.
fn fill_row<T: Form>(font: &Font, text: &[u8], x: u32, y: u32, into: &mut [T])
    requires text { IsText text.now }
    requires end { x + length into.old < 2 ^ 32 }
    ensures { into.new ≡ map (λ column. T.form (text_sample font.now text.now column y)) (range_with_len x (length into.old)) }
{
    if y >= font.height() {
        empty(into);
        return;
    }
    let mut rest = text;
    let mut column = x;
    let mut done = 0;
    while done < into.len() {
        let (next, from) = text_from(font, rest, column);
        match next {
            [] => {
                empty(&mut into[done..]);
                return;
            }
            [character, ..] => {
                let width = width_of(font, *character) - from;
                let len = (width as usize).min(into.len() - done);
                put_bits(
                    row_of(font, *character, y),
                    from,
                    &mut into[done..done + len],
                );
                rest = next;
                column = from + len as u32;
                done += len;
            }
        }
    }
}

// Columns of one row of a glyph.
fn put_bits<T: Form>(row: u32, from: u32, into: &mut [T])
    requires { from + length into.old ≤ 32 }
    ensures { into.new ≡ map (λ column. T.form (rows.bit_sample (bit_at row column == 1))) (range_with_len from (length into.old)) }
{
    for k in 0..into.len() {
        into[k] = T::of(has_bit(row, from + k as u32));
    }
}

// No samples at all.
fn empty<T: Form>(into: &mut [T])
    ensures { into.new ≡ replicate (length into.old) (T.form None) }
{
    for k in 0..into.len() {
        into[k] = T::of(false);
    }
}
