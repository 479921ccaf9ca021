// From bytes to a font.
ghost use Rattle.std.specs.Prelude.{◌≡◌, ◌+◌, ◌*◌, ◌≤◌, ◌<◌, length, IfOk, IfErr, IfSome, IfNone, Ok};
ghost use Rattle.std.specs.List.{position, All};
ghost use Rattle.ev_model.specs.Glyphs.{Glyphs};
ghost use Rattle.ev_text.specs.FontFormat.{Stands};
ghost use Rattle.ev_text.specs.FontReading.{begins, height_at, is_wide, widths_at, rows_of, bad_glyph, checked_rows, rows_at, font_at, IsFault, Gives};

use crate::fault::BadFont;
use crate::rows::{bad_glyph, rows_of};
use ev_model::Font;
use std::alloc::Global;

// How many bytes stand before the rows, and where the widths begin.
const HEAD_LEN: usize = 100;

const WIDTHS_PLACE: usize = 5;

// The largest width and the largest height of a glyph.
const MAX_SIDE: u8 = 32;

/// The font that the bytes stand for (docs/FORMATS.md, "Fonts"). An error is the first fault of the
/// bytes, or NoMemory where they have none and there is no room for the font.
pub fn decode_font(alloc: Global, bytes: &[u8]) -> Result<Font, BadFont>
    // What is read stands in the bytes.
    ensures found { IfOk result (λ font. Stands bytes.now font) }
    // What stands in the bytes is read, unless memory runs out.
    ensures only { (font : Glyphs) → Stands bytes.now font → Gives (λ font. font) result (Ok font) }
    // Which fault it is.
    ensures exact { Gives (λ font. font) result (font_at bytes.now) }
{
    font_at(alloc, bytes)
}

// What `decode_font` gives, before it is known which fonts stand in which bytes.
#[tactic(auto, unfolding(crate::specs::FontReading::font_at))]
fn font_at(alloc: Global, bytes: &[u8]) -> Result<Font, BadFont>
    ensures { Gives (λ font. font) result (font_at bytes.now) }
{
    let height = height_at(bytes)?;
    let widths = widths_at(bytes)?;
    let rows = rows_at(alloc, height, widths, bytes)?;
    Ok(Font::new(height, Vec::from_slice(alloc, widths)?, rows))
}

// Whether the first four bytes begin this word.
fn begins(word: &[u8], bytes: &[u8]) -> bool
    ensures { result ≡ begins word.now bytes.now }
{
    word.starts_with(&bytes[..bytes.len().min(4)])
}

// The height, where all bytes before the rows are there.
#[tactic(auto, unfolding(crate::specs::FontReading::height_at))]
fn height_at(bytes: &[u8]) -> Result<u32, BadFont>
    ensures height { result ≡ height_at bytes.now }
    ensures long { IfOk result (λ height. (100 ≤ length bytes.now) × (1 ≤ height) × (height ≤ 32)) }
    ensures fault { IfErr result IsFault }
{
    if !begins(b"EVF1", bytes) {
        return Err(BadFont::Magic);
    }
    let len = bytes.len();
    if len < HEAD_LEN {
        return Err(BadFont::Short { at: len as u64 });
    }
    let height = bytes[4];
    if 1 <= height && height <= MAX_SIDE {
        Ok(u32::from(height))
    } else {
        Err(BadFont::Height)
    }
}

// The widths of the glyphs.
#[tactic(auto, unfolding(crate::specs::FontReading::widths_at))]
fn widths_at(bytes: &[u8]) -> Result<&[u8], BadFont>
    requires { 100 ≤ length bytes.now }
    ensures widths { Gives (λ widths. widths.now) result (widths_at bytes.now) }
    ensures narrow { IfOk result (λ widths. All (λ width. width ≤ 32) widths.now) }
    ensures count { IfOk result (λ widths. length widths.now ≡ 95) }
    ensures fault { IfErr result IsFault }
{
    let widths = &bytes[WIDTHS_PLACE..HEAD_LEN];
    if let Some(glyph) = wide_glyph(widths) {
        return Err(BadFont::Width {
            glyph: glyph as u32,
        });
    }
    Ok(widths)
}

// The first glyph that is too wide.
fn wide_glyph(widths: &[u8]) -> Option<usize>
    ensures first { result ≡ position is_wide widths.now }
    ensures within { IfSome result (λ glyph. glyph < length widths.now) }
    ensures narrow { IfNone result (All (λ width. width ≤ 32) widths.now) }
{
    widths.iter().position(|width| *width > MAX_SIDE)
}

// The rows of the glyphs, which end the bytes.
#[tactic(auto, unfolding(crate::specs::FontReading::rows_at))]
fn rows_at(alloc: Global, height: u32, widths: &[u8], bytes: &[u8]) -> Result<Vec<u32>, BadFont>
    requires height { height ≤ 32 }
    requires widths { All (λ width. width ≤ 32) widths.now }
    requires count { length widths.now ≡ 95 }
    requires head { 100 ≤ length bytes.now }
    ensures { Gives (λ rows. rows.items) result (rows_at height widths.now bytes.now) }
{
    let len = bytes.len();
    let end = HEAD_LEN + 380 * height as usize;
    if len < end {
        return Err(BadFont::Short { at: len as u64 });
    }
    if end < len {
        return Err(BadFont::Long { at: end as u64 });
    }
    checked_rows(alloc, height, widths, &bytes[HEAD_LEN..])
}

// The rows of these bytes, where no glyph has a bit at or above its width.
fn checked_rows(
    alloc: Global,
    height: u32,
    widths: &[u8],
    bytes: &[u8],
) -> Result<Vec<u32>, BadFont>
    requires height { height ≤ 32 }
    requires widths { All (λ width. width ≤ 32) widths.now }
    requires count { length widths.now ≡ 95 }
    requires bytes { length bytes.now ≡ 380 * height }
    ensures { Gives (λ rows. rows.items) result (checked_rows (rows_of bytes.now) (bad_glyph 0 height widths.now (rows_of bytes.now))) }
{
    if let Some(glyph) = bad_glyph(height, widths, bytes) {
        return Err(BadFont::Bits { glyph });
    }
    Ok(rows_of(alloc, bytes)?)
}
