// From bytes to an image.
ghost use Rattle.std.specs.Prelude.{◌≡◌, ◌+◌, ◌*◌, ◌≤◌, ◌<◌, ◌^◌, length, IfOk, IfErr, Ok};
ghost use Rattle.ev_model.specs.Raster.{Raster};
ghost use Rattle.ev_image.specs.Format.{Stands, head_len};
ghost use Rattle.ev_image.specs.Reading.{AreSides, begins, kind_of, format_at, number_at, is_side, sides_at, bad_pixel, checked_pixels, pixels_at, body_at, image_at, IsFault, Gives};

use crate::fault::BadImage;
use crate::format::Format;
use crate::pixels::{bad_pixel, even_pixels, good_pixels};
use ev_argb::{MAX_SIDE, Pixel};
use ev_model::Image;
use std::alloc::Global;

/// The image that the bytes stand for, in any of the formats (docs/FORMATS.md, "Images"). An error
/// is the first fault of the bytes, or NoMemory where they have none and there is no room for the
/// pixels.
pub fn decode(alloc: Global, bytes: &[u8]) -> Result<Image, BadImage>
    // What is read stands in the bytes.
    ensures found { IfOk result (λ image. Stands bytes.now image) }
    // What stands in the bytes is read, unless memory runs out.
    ensures only { (image : Raster) → Stands bytes.now image → Gives (λ image. image) result (Ok image) }
    // Which fault it is.
    ensures exact { Gives (λ image. image) result (image_at bytes.now) }
{
    image_at(alloc, bytes)
}

// What `decode` gives, before it is known which images stand in which bytes.
#[tactic(auto, unfolding(crate::specs::Reading::image_at))]
fn image_at(alloc: Global, bytes: &[u8]) -> Result<Image, BadImage>
    ensures { Gives (λ image. image) result (image_at bytes.now) }
{
    let format = format_at(bytes)?;
    let (w, h) = sides_at(format.sides_place(), bytes)?;
    let pixels = body_at(alloc, format, w as usize * h as usize, bytes)?;
    Ok(Image::new(w, h, pixels))
}

// Whether the first four bytes begin this word.
fn begins(word: &[u8], bytes: &[u8]) -> bool
    ensures { result ≡ begins word.now bytes.now }
{
    word.starts_with(&bytes[..bytes.len().min(4)])
}

// The format that the bytes begin, all of whose bytes before the pixels are there.
#[tactic(auto, unfolding(crate::specs::Reading::format_at))]
fn format_at(bytes: &[u8]) -> Result<Format, BadImage>
    ensures format { result ≡ format_at bytes.now }
    ensures long { IfOk result (λ format. head_len format ≤ length bytes.now) }
    ensures fault { IfErr result IsFault }
{
    let len = bytes.len();
    if begins(b"EVI1", bytes) {
        if len < Format::Evi1.head_len() {
            return Err(BadImage::Short { at: len as u64 });
        }
        Ok(Format::Evi1)
    } else if begins(b"EVI2", bytes) {
        if len < Format::Evi2Argb.head_len() {
            return Err(BadImage::Short { at: len as u64 });
        }
        kind_of(bytes[4])
    } else {
        Err(BadImage::Magic)
    }
}

// The format of EVI2 with this kind.
fn kind_of(byte: u8) -> Result<Format, BadImage>
    ensures format { result ≡ kind_of byte }
    ensures fault { IfErr result IsFault }
{
    match byte {
        0 => Ok(Format::Evi2Argb),
        1 => Ok(Format::Evi2Alpha),
        _ => Err(BadImage::Kind),
    }
}

// Four bytes, the lowest first.
fn number_at(at: usize, bytes: &[u8]) -> u32
    requires { at + 4 ≤ length bytes.now }
    ensures { result ≡ number_at at bytes.now }
{
    u32::from_le_bytes([bytes[at], bytes[at + 1], bytes[at + 2], bytes[at + 3]])
}

// Whether a side may be so long.
fn is_side(n: u32) -> bool
    ensures { result ≡ is_side n }
{
    1 <= n && n <= MAX_SIDE
}

// The width, which stands at `at`, and the height behind it.
#[tactic(auto, unfolding(crate::specs::Reading::sides_at))]
fn sides_at(at: usize, bytes: &[u8]) -> Result<(u32, u32), BadImage>
    requires { at + 8 ≤ length bytes.now }
    ensures sides { result ≡ sides_at at bytes.now }
    ensures within { IfOk result (λ sides. AreSides sides.0 sides.1) }
    ensures fault { IfErr result IsFault }
{
    let w = number_at(at, bytes);
    let h = number_at(at + 4, bytes);
    if is_side(w) && is_side(h) {
        Ok((w, h))
    } else {
        Err(BadImage::Size { at: at as u64 })
    }
}

// The pixels, so many, which end the bytes.
#[tactic(auto, unfolding(crate::specs::Reading::body_at))]
fn body_at(
    alloc: Global,
    format: Format,
    count: usize,
    bytes: &[u8],
) -> Result<Vec<Pixel>, BadImage>
    requires head { head_len format ≤ length bytes.now }
    requires count { count ≤ 16777216 }
    ensures { Gives (λ pixels. pixels.items) result (body_at format count bytes.now) }
{
    let len = bytes.len();
    let end = format.head_len() + format.pixel_len() * count;
    if len < end {
        return Err(BadImage::Short { at: len as u64 });
    }
    if end < len {
        return Err(BadImage::Long { at: end as u64 });
    }
    pixels_at(alloc, format, &bytes[format.head_len()..])
}

// The pixels of the bytes behind the first ones.
fn pixels_at(alloc: Global, format: Format, bytes: &[u8]) -> Result<Vec<Pixel>, BadImage>
    requires { length bytes.now + 13 < 2 ^ 64 }
    ensures { Gives (λ pixels. pixels.items) result (pixels_at format (head_len format) bytes.now) }
{
    match format {
        Format::Evi1 | Format::Evi2Argb => argb_pixels_at(alloc, format.head_len() as u64, bytes),
        Format::Evi2Alpha => Ok(even_pixels(alloc, bytes)?),
    }
}

// The pixels of four bytes each, the first of which stands at `at`.
fn argb_pixels_at(alloc: Global, at: u64, bytes: &[u8]) -> Result<Vec<Pixel>, BadImage>
    requires { at + length bytes.now < 2 ^ 64 }
    ensures { Gives (λ pixels. pixels.items) result (checked_pixels bytes.now (bad_pixel at bytes.now)) }
{
    if let Some(pixels) = good_pixels(alloc, bytes) {
        return Ok(pixels);
    }
    match bad_pixel(at, bytes) {
        Some(at) => Err(BadImage::Premul { at }),
        None => Err(BadImage::NoMemory),
    }
}
