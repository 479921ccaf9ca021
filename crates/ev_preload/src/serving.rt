// How a load is served: its bytes are fetched and decoded.
ghost use Rattle.std.specs.Prelude.{◌≡◌, ◌≤◌, true};
ghost use Rattle.ev_image.specs.Reading.{image_at};
ghost use Rattle.ev_text.specs.FontReading.{font_at};
ghost use Rattle.ev_preload.specs.Job.{is_loadable};
ghost use Rattle.ev_preload.specs.Ends.{image_end, font_end, read_end, EndsAs, EndsBy, StandsIn, StandsBy, IsOfKind, HasCounts, IsFaultless};

use crate::{LoadEnd, LoadJob};
use ev_image::{BadImage, decode};
use ev_model::Kind;
use ev_port::{Store, StoreErr};
use ev_text::{BadFont, decode_font};
use std::alloc::Global;

/// Serves a load: fetches the bytes of its key and decodes them, an image for an image object and a
/// font for a text object (docs/CANVAS.md, "Loads"). `Missing`: no file has the key. `TooLarge`: the
/// file has more than `ev_port::LARGEST_FILE` bytes. `BadImage`, `BadFont`: the first fault of the
/// bytes. `Failed`: the store failed. `NoMemory`: there was no room for the bytes, or for the image
/// or font that they hold.
pub fn load_one<T: Store>(alloc: Global, store: &mut T, job: &LoadJob) -> LoadEnd
    // Where the store tells its files, what is due by them, unless a fault or want of memory came first.
    ensures end { EndsBy (T.files store.old) job.now.key job.now.kind result }
    // An image or a font is the one that stands in the bytes of the key.
    ensures stands { StandsBy (T.files store.old) job.now.key result }
    // Told or not, images come for image objects alone, and fonts for text objects.
    ensures kind { IsOfKind job.now.kind result }
    // `Failed` carries the store's counts of faults.
    ensures counts { HasCounts (T.faults store.old) (T.faults store.new) result }
    ensures later { T.faults store.old ≤ T.faults store.new }
    ensures files { T.files store.new ≡ T.files store.old }
{
    let before = store.faults();
    let mut bytes = Vec::new(alloc);
    match store.fetch(job.key().bytes(), &mut bytes) {
        Ok(()) => read_end(alloc, job.kind(), &bytes),
        Err(StoreErr::Missing) => LoadEnd::Missing,
        Err(StoreErr::TooLarge) => LoadEnd::TooLarge,
        Err(StoreErr::Failed) => LoadEnd::Failed {
            before,
            after: store.faults(),
        },
        Err(StoreErr::NoMemory) => LoadEnd::NoMemory,
    }
}

// The end that bytes give for an object of this kind.
fn read_end(alloc: Global, kind: Kind, bytes: &[u8]) -> LoadEnd
    requires { is_loadable kind ≡ true }
    ensures end { EndsAs (read_end kind bytes.now) result }
    ensures stands { StandsIn bytes.now result }
    ensures kind { IsOfKind kind result }
    ensures no_fault { IsFaultless result }
{
    match kind {
        Kind::Text => font_end(alloc, bytes),
        _ => image_end(alloc, bytes),
    }
}

// The end that bytes give for an image object. Want of memory is no fault of the bytes.
fn image_end(alloc: Global, bytes: &[u8]) -> LoadEnd
    ensures end { EndsAs (image_end (image_at bytes.now)) result }
    ensures stands { StandsIn bytes.now result }
    ensures kind { IsOfKind Kind.Image result }
    ensures no_fault { IsFaultless result }
{
    match decode(alloc, bytes) {
        Ok(image) => LoadEnd::Done(image),
        Err(BadImage::NoMemory) => LoadEnd::NoMemory,
        Err(fault) => LoadEnd::BadImage(fault),
    }
}

// The end that bytes give for a text object. Want of memory is no fault of the bytes.
fn font_end(alloc: Global, bytes: &[u8]) -> LoadEnd
    ensures end { EndsAs (font_end (font_at bytes.now)) result }
    ensures stands { StandsIn bytes.now result }
    ensures kind { IsOfKind Kind.Text result }
    ensures no_fault { IsFaultless result }
{
    match decode_font(alloc, bytes) {
        Ok(font) => LoadEnd::Font(font),
        Err(BadFont::NoMemory) => LoadEnd::NoMemory,
        Err(fault) => LoadEnd::BadFont(fault),
    }
}
