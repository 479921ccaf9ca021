// A bitmap font. Clauses see its height, its widths and its rows.
ghost use Rattle.std.specs.Prelude.{◌≡◌};
ghost use Rattle.ev_model.specs.Glyphs.{Glyphs, IsFont};

use std::marker::Model;

/// A glyph for each of the characters 32 to 126, all of the font's height and each of its own width.
#[derive(Drop)]
pub struct Font {
    height: u32,
    widths: Vec<u8>,
    rows: Vec<u32>,
}

impl Model for Font {
    ghost use Rattle.ev_model.specs.Glyphs.{Glyphs, IsFont};

    ghost Value = { Glyphs };

    ghost view = { λ f. record { height = f.height; widths = f.widths.items; rows = f.rows.items } };

    ghost invariant = { λ f. IsFont (record { height = f.height; widths = f.widths.items; rows = f.rows.items }) };
}

impl Font {
    /// The font of these widths and rows: glyph by glyph, and in a glyph from the top.
    pub fn new(height: u32, widths: Vec<u8>, rows: Vec<u32>) -> Font
        requires { IsFont (record { height = height; widths = widths.items; rows = rows.items }) }
        ensures { result ≡ record { height = height; widths = widths.items; rows = rows.items } }
    {
        Font {
            height,
            widths,
            rows,
        }
    }

    /// How many rows each glyph has, 1 to 32.
    pub fn height(&self) -> u32
        ensures value { result ≡ self.now.height }
        ensures font { IsFont self.now }
    {
        self.height
    }

    /// The widths of the 95 glyphs, each 0 to 32.
    pub fn widths(&self) -> &[u8]
        ensures value { result.now ≡ self.now.widths }
        ensures font { IsFont self.now }
    {
        self.widths.as_slice()
    }

    /// The rows of all glyphs. Bit k of a row is its column k.
    pub fn rows(&self) -> &[u32]
        ensures value { result.now ≡ self.now.rows }
        ensures font { IsFont self.now }
    {
        self.rows.as_slice()
    }
}
