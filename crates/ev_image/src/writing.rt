// From an image to bytes.
ghost use Rattle.std.specs.Prelude.{◌≡◌, ◌++◌, IfOk, OnOk};
ghost use Rattle.std.specs.List.{flat_map};
ghost use Rattle.ev_image.specs.Format.{channels, are_even, pixel, spelling, CanSpell, Stands, evi2};

use crate::NoMemory;
use crate::format::Format;
use crate::pixels::{channels, is_even};
use ev_argb::Pixel;
use ev_model::Image;
use std::alloc::Global;

/// The bytes of an image in EVI1 (docs/FORMATS.md, "Images"). NoMemory where there is no room for
/// them.
pub fn encode(alloc: Global, image: &Image) -> Result<Vec<u8>, NoMemory>
    ensures spelled { IfOk result (λ bytes. bytes.items ≡ spelling Format.Evi1 image.now) }
    ensures stands { IfOk result (λ bytes. Stands bytes.items image.now) }
{
    spelled(alloc, Format::Evi1, image)
}

/// The bytes of an image in EVI2, of kind 1 exactly where each pixel has four equal channels
/// (docs/FORMATS.md, "Images"). NoMemory where there is no room for them.
pub fn encode2(alloc: Global, image: &Image) -> Result<Vec<u8>, NoMemory>
    ensures spelled { IfOk result (λ bytes. bytes.items ≡ spelling (evi2 image.now) image.now) }
    ensures stands { IfOk result (λ bytes. Stands bytes.items image.now) }
{
    if are_even(image.pixels()) {
        spelled(alloc, Format::Evi2Alpha, image)
    } else {
        spelled(alloc, Format::Evi2Argb, image)
    }
}

// Whether each pixel has four equal channels.
fn are_even(pixels: &[Pixel]) -> bool
    ensures { result ≡ are_even pixels.now }
{
    pixels.iter().all(|p| is_even(*p))
}

// The bytes of an image in a format that can spell it.
fn spelled(alloc: Global, format: Format, image: &Image) -> Result<Vec<u8>, NoMemory>
    requires { CanSpell format image.now }
    ensures spelled { IfOk result (λ bytes. bytes.items ≡ spelling format image.now) }
    ensures stands { IfOk result (λ bytes. Stands bytes.items image.now) }
{
    let pixels = image.pixels();
    let len = format.head_len() + format.pixel_len() * pixels.len();
    let mut bytes = Vec::with_capacity(alloc, len)?;
    bytes.extend_from_slice(format.magic())?;
    bytes.extend_from_slice(&image.width().to_le_bytes())?;
    bytes.extend_from_slice(&image.height().to_le_bytes())?;
    put_pixels(&mut bytes, format, pixels)?;
    Ok(bytes)
}

fn put_pixels(bytes: &mut Vec<u8>, format: Format, pixels: &[Pixel]) -> Result<(), NoMemory>
    ensures { OnOk result (bytes.new.items ≡ bytes.old.items ++ flat_map (pixel format) pixels.now) }
{
    match format {
        Format::Evi1 | Format::Evi2Argb => put_channels(bytes, pixels),
        Format::Evi2Alpha => put_alphas(bytes, pixels),
    }
}

fn put_channels(bytes: &mut Vec<u8>, pixels: &[Pixel]) -> Result<(), NoMemory>
    ensures { OnOk result (bytes.new.items ≡ bytes.old.items ++ flat_map channels pixels.now) }
{
    for p in pixels {
        bytes.extend_from_slice(&channels(*p))?;
    }
    Ok(())
}

fn put_alphas(bytes: &mut Vec<u8>, pixels: &[Pixel]) -> Result<(), NoMemory>
    ensures { OnOk result (bytes.new.items ≡ bytes.old.items ++ flat_map (pixel Format.Evi2Alpha) pixels.now) }
{
    for p in pixels {
        bytes.push(p.a())?;
    }
    Ok(())
}
