// Why a line, a command or a load came to nothing.
ghost use Rattle.std.specs.Prelude.{◌≡◌};
ghost use Rattle.ev_model.specs.declared.refusal.Refusal.TheVariants.{NoMemory};

use std::alloc::{AllocError, AllocFailed};

/// Why a line is no command (docs/SCRIPT.md, "Lines"). The first that holds is told.
#[derive(Clone, Copy, Debug, PartialEq, Eq)]
pub enum BadLine {
    /// More than 1,024 bytes.
    Long,
    /// A byte outside 32 to 126.
    Byte,
    /// A word that is no command, or none of the words to choose from.
    Word,
    /// Too few words or too many.
    Count,
    /// A word that should be a number and isn't.
    Number,
    /// A word that should be a name and isn't.
    Name,
}

/// Why a command was refused (docs/SCRIPT.md, "Commands"). Each has a number of its own.
#[derive(Clone, Copy, Debug, PartialEq, Eq)]
pub enum Refusal {
    /// An object of this name is there.
    Exists = 1,
    /// No object of this name is there.
    Unknown = 2,
    /// An object is of another kind than is needed.
    Kind = 3,
    /// A number is out of its range.
    Range = 4,
    /// Both names are one object's.
    Itself = 5,
    /// The two objects stand in different layers.
    Layer = 6,
    /// The two objects have different parents.
    Sibling = 7,
    /// An object would stand over itself.
    Cycle = 8,
    /// The object clips or is clipped.
    Clipping = 9,
    /// As many are there as there may be.
    Full = 10,
    /// The object has no file to load.
    NoFile = 11,
    /// A load of the object is running.
    Loading = 12,
    /// No load of the object is running.
    NotLoading = 13,
    /// A frame is running.
    Busy = 14,
    /// No frame was drawn yet.
    NoFrame = 15,
    /// There is no room for what the command needs.
    NoMemory = 16,
}

impl From<AllocError> for Refusal {
    ghost from_gives = { λ _ e. e ≡ NoMemory };

    fn from(_: AllocError) -> Refusal {
        Refusal::NoMemory
    }
}

impl<T: Drop> From<AllocFailed<T>> for Refusal {
    ghost from_gives = { λ _ e. e ≡ NoMemory };

    fn from(_: AllocFailed<T>) -> Refusal {
        Refusal::NoMemory
    }
}

/// What is wrong with the bytes of an image (docs/FORMATS.md, "Images"). The first that holds is told.
#[derive(Clone, Copy, Debug, PartialEq, Eq)]
pub enum ImageFault {
    /// They begin with no format's four characters.
    Magic,
    /// The kind of pixels is none that there is.
    Kind,
    /// They end too early.
    Short,
    /// A side is not 1 to 4096.
    Size,
    /// More follows the last pixel.
    Long,
    /// A pixel has a colour channel above its alpha.
    Premul,
}

/// What is wrong with the bytes of a font (docs/FORMATS.md, "Fonts"). The first that holds is told.
#[derive(Clone, Copy, Debug, PartialEq, Eq)]
pub enum FontFault {
    /// They don't begin with the format's four characters.
    Magic,
    /// They end too early.
    Short,
    /// The height is not 1 to 32.
    Height,
    /// A width is above 32.
    Width,
    /// More follows the last row.
    Long,
    /// A row has a bit at or above its glyph's width.
    Bits,
}

/// Why a load gave nothing (docs/CANVAS.md, "Loads").
#[derive(Clone, Copy, Debug, PartialEq, Eq)]
pub enum LoadFault {
    /// The store failed.
    Store,
    /// The store has no such file.
    Missing,
    /// The file is larger than any that is read.
    Large,
    /// The file is no image; `at` is the place or the number that the fault is told with.
    Image { kind: ImageFault, at: u64 },
    /// The file is no font; `at` likewise.
    Font { kind: FontFault, at: u64 },
    /// There was no room for it.
    Memory,
}
