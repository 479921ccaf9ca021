// The glyph of a character.
ghost use Rattle.std.specs.Prelude.{◌≡◌, ◌<◌, ◌≤◌, ◌==◌};
ghost use Rattle.std.specs.Int.{bit_at};
ghost use Rattle.ev_model.specs.Glyphs.{IsCharacter, width_of, row_of, glyph_bit};

use ev_model::Font;

/// Whether the glyph of a character has a bit at column x and row y, counted from its top left.
/// False outside the glyph (docs/FORMATS.md, "Fonts").
pub fn glyph_bit(font: &Font, character: u8, x: u32, y: u32) -> bool
    requires { IsCharacter character }
    ensures { result ≡ glyph_bit font.now character x y }
{
    x < width_of(font, character) && y < font.height() && has_bit(row_of(font, character, y), x)
}

// How wide the glyph of a character is.
pub(crate) fn width_of(font: &Font, character: u8) -> u32
    requires { IsCharacter character }
    ensures value { result ≡ width_of font.now character }
    ensures narrow { result ≤ 32 }
{
    u32::from(font.widths()[character as usize - 32])
}

// The bits of row y of the glyph of a character.
pub(crate) fn row_of(font: &Font, character: u8, y: u32) -> u32
    requires character { IsCharacter character }
    requires row { y < font.now.height }
    ensures { result ≡ row_of font.now character y }
{
    let glyph = character as usize - 32;
    font.rows()[glyph * font.height() as usize + y as usize]
}

// Whether a row of a glyph has a bit at column x.
#[inline(always)]
pub(crate) fn has_bit(row: u32, x: u32) -> bool
    requires { x < 32 }
    ensures { result ≡ (bit_at row x == 1) }
{
    (row >> x) & 1 == 1
}
