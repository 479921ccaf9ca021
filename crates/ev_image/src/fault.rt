// Why bytes gave no image.
ghost use Rattle.std.specs.Prelude.{◌≡◌};
ghost use Rattle.ev_image.specs.declared.fault.BadImage.TheVariants.{NoMemory};

use std::alloc::AllocError;
use thiserror::Error;

/// The first fault of bytes that hold no image (docs/FORMATS.md, "Images"), or want of memory where
/// they hold one. Places and numbers are in bytes.
#[derive(Clone, Copy, Debug, PartialEq, Eq, Error)]
pub enum BadImage {
    /// They begin neither `EVI1` nor `EVI2`.
    #[error("neither EVI1 nor EVI2")]
    Magic,
    /// EVI2 with a kind of pixels above 1.
    #[error("an unknown kind of pixels")]
    Kind,
    /// The width or the height, which begin at this place, is not 1 to 4096.
    #[error("a width or a height out of range at byte {at}")]
    Size { at: u64 },
    /// The bytes end too early; there are so many.
    #[error("only {at} bytes")]
    Short { at: u64 },
    /// More follows the last pixel, from this place on.
    #[error("bytes after the last pixel, from byte {at} on")]
    Long { at: u64 },
    /// A colour is above its alpha, first in the pixel at this place.
    #[error("a colour above its alpha in the pixel at byte {at}")]
    Premul { at: u64 },
    /// The bytes hold an image, and there is no room for it.
    #[error("no room for the image")]
    NoMemory,
}

impl From<AllocError> for BadImage {
    ghost from_gives = { λ _ e. e ≡ NoMemory };

    fn from(_: AllocError) -> BadImage {
        BadImage::NoMemory
    }
}
