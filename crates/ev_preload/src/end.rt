// How a load ends.
use ev_image::BadImage;
use ev_model::{Font, Image};
use ev_text::BadFont;

/// The end of a load (docs/CANVAS.md, "Loads").
#[derive(Drop)]
pub enum LoadEnd {
    /// The file's image, for an image object.
    Done(Image),
    /// The file's font, for a text object.
    Font(Font),
    /// No file has this key.
    Missing,
    /// The file has more bytes than any that is read.
    TooLarge,
    /// The file is no image; the first fault of its bytes.
    BadImage(BadImage),
    /// The file is no font; the first fault of its bytes.
    BadFont(BadFont),
    /// The store failed; its counts of faults before and after.
    Failed { before: u64, after: u64 },
    /// There was no room for the bytes, or for what they hold.
    NoMemory,
}
