// The rows of glyphs and their bytes: four for a row, the lowest first.
ghost use Rattle.std.specs.Prelude.{◌≡◌, ◌+◌, ◌*◌, ◌≤◌, length, take, drop, IfOk};
ghost use Rattle.std.specs.List.{list_all, All};
ghost use Rattle.std.specs.Int.{w32, from_le_bytes};
ghost use Rattle.ev_text.specs.FontReading.{rows_of, fits, bad_glyph};

use crate::NoMemory;
use std::alloc::Global;

// The first glyph with a bit at or above its width.
pub(crate) fn bad_glyph(height: u32, widths: &[u8], bytes: &[u8]) -> Option<u32>
    requires height { height ≤ 32 }
    requires widths { All (λ width. width ≤ 32) widths.now }
    requires count { length widths.now ≡ 95 }
    requires bytes { length bytes.now ≡ 380 * height }
    ensures { result ≡ bad_glyph 0 height widths.now (rows_of bytes.now) }
{
    let mut rest = bytes;
    for (glyph, width) in widths.iter().enumerate() {
        let (rows, after) = rest.split_at(4 * height as usize);
        if !fits(*width, rows) {
            return Some(glyph as u32);
        }
        rest = after;
    }
    None
}

// Whether no row has a bit at or above the width.
fn fits(width: u8, bytes: &[u8]) -> bool
    requires { width ≤ 32 }
    ensures { result ≡ list_all (fits width) (rows_of bytes.now) }
{
    let end = 1u64 << u32::from(width);
    for i in 0..bytes.len() / 4 {
        if u64::from(row_at(4 * i, bytes)) >= end {
            return false;
        }
    }
    true
}

// The rows of four bytes each, or `NoMemory` where there is no room for them.
pub(crate) fn rows_of(alloc: Global, bytes: &[u8]) -> Result<Vec<u32>, NoMemory>
    ensures { IfOk result (λ rows. rows.items ≡ rows_of bytes.now) }
{
    let mut rows = Vec::with_capacity(alloc, bytes.len() / 4)?;
    for i in 0..bytes.len() / 4 {
        rows.push(row_at(4 * i, bytes))?;
    }
    Ok(rows)
}

// The row of the four bytes from a place on.
fn row_at(at: usize, bytes: &[u8]) -> u32
    requires { at + 4 ≤ length bytes.now }
    ensures { result ≡ from_le_bytes w32 (take 4 (drop at bytes.now)) }
{
    u32::from_le_bytes([bytes[at], bytes[at + 1], bytes[at + 2], bytes[at + 3]])
}
