// Why bytes gave no font.
ghost use Rattle.std.specs.Prelude.{◌≡◌};
ghost use Rattle.ev_text.specs.declared.fault.BadFont.TheVariants.{NoMemory};

use std::alloc::AllocError;
use thiserror::Error;

/// The first fault of bytes that hold no font (docs/FORMATS.md, "Fonts"), or want of memory where
/// they hold one. Places and numbers are in bytes; glyph g is the one of character 32 + g.
#[derive(Clone, Copy, Debug, PartialEq, Eq, Error)]
pub enum BadFont {
    /// They do not begin `EVF1`.
    #[error("not EVF1")]
    Magic,
    /// The height is not 1 to 32.
    #[error("a height out of range")]
    Height,
    /// A glyph is wider than 32 columns, this one first.
    #[error("glyph {glyph} is too wide")]
    Width { glyph: u32 },
    /// The bytes end too early; there are so many.
    #[error("only {at} bytes")]
    Short { at: u64 },
    /// More follows the last row, from this place on.
    #[error("bytes after the last row, from byte {at} on")]
    Long { at: u64 },
    /// A glyph has a bit at or above its width, this one first.
    #[error("glyph {glyph} has a bit outside its width")]
    Bits { glyph: u32 },
    /// The bytes hold a font, and there is no room for it.
    #[error("no room for the font")]
    NoMemory,
}

impl From<AllocError> for BadFont {
    ghost from_gives = { λ _ e. e ≡ NoMemory };

    fn from(_: AllocError) -> BadFont {
        BadFont::NoMemory
    }
}
