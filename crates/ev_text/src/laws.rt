// What the format promises by itself.
ghost use Rattle.std.specs.Prelude.{◌≡◌, ℕ, ◌<◌, List, Ok};
ghost use Rattle.std.specs.List.{All};
ghost use Rattle.ev_model.specs.Glyphs.{Glyphs, IsFont};
ghost use Rattle.ev_text.specs.FontFormat.{Stands, spelling};
ghost use Rattle.ev_text.specs.FontReading.{font_at};

/// A law: bytes stand for one font at most.
pub fn one_font()
    ensures { (bytes : List ℕ) (a b : Glyphs) → Stands bytes a → Stands bytes b → a ≡ b }
{}

/// A law: the spelling of a font is read as that font.
pub fn read_again()
    ensures { (font : Glyphs) → IsFont font → font_at (spelling font) ≡ Ok font }
{}

/// A law: what is read as a font stands in the bytes.
pub fn reads_only_fonts()
    ensures { (bytes : List ℕ) (font : Glyphs) → All (λ b. b < 256) bytes → font_at bytes ≡ Ok font → Stands bytes font }
{}
