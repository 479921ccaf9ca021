// What the log tells of an end.
ghost use Rattle.std.specs.Prelude.{◌≡◌};
ghost use Rattle.ev_preload.specs.Faults.{image_fault, font_fault, fault_of};

use crate::LoadEnd;
use ev_image::BadImage;
use ev_model::{FontFault, ImageFault, LoadFault};
use ev_text::BadFont;

/// The fault that the log tells of an end (docs/FORMATS.md). None for an image and a font.
pub fn fault_of(end: &LoadEnd) -> Option<LoadFault>
    ensures { result ≡ fault_of end.now }
{
    match end {
        LoadEnd::Done(_) | LoadEnd::Font(_) => None,
        LoadEnd::Missing => Some(LoadFault::Missing),
        LoadEnd::TooLarge => Some(LoadFault::Large),
        LoadEnd::BadImage(fault) => Some(image_fault(*fault)),
        LoadEnd::BadFont(fault) => Some(font_fault(*fault)),
        LoadEnd::Failed { .. } => Some(LoadFault::Store),
        LoadEnd::NoMemory => Some(LoadFault::Memory),
    }
}

// Faults of a format's first bytes are told with their place.
fn image_fault(fault: BadImage) -> LoadFault
    ensures { result ≡ image_fault fault }
{
    let (kind, at) = match fault {
        BadImage::Magic => (ImageFault::Magic, 0),
        BadImage::Kind => (ImageFault::Kind, 4),
        BadImage::Size { at } => (ImageFault::Size, at),
        BadImage::Short { at } => (ImageFault::Short, at),
        BadImage::Long { at } => (ImageFault::Long, at),
        BadImage::Premul { at } => (ImageFault::Premul, at),
        BadImage::NoMemory => return LoadFault::Memory,
    };
    LoadFault::Image { kind, at }
}

fn font_fault(fault: BadFont) -> LoadFault
    ensures { result ≡ font_fault fault }
{
    let (kind, at) = match fault {
        BadFont::Magic => (FontFault::Magic, 0),
        BadFont::Height => (FontFault::Height, 4),
        BadFont::Width { glyph } => (FontFault::Width, u64::from(glyph)),
        BadFont::Short { at } => (FontFault::Short, at),
        BadFont::Long { at } => (FontFault::Long, at),
        BadFont::Bits { glyph } => (FontFault::Bits, u64::from(glyph)),
        BadFont::NoMemory => return LoadFault::Memory,
    };
    LoadFault::Font { kind, at }
}
