// Pixels and their bytes: alpha first, then red, green and blue.
ghost use Rattle.std.specs.Prelude.{◌≡◌, ◌+◌, ◌/◌, ◌<◌, ◌^◌, length, map, None, IsTrue, IfOk, IfSome};
ghost use Rattle.ev_image.specs.Format.{channels, even, is_even};
ghost use Rattle.ev_image.specs.Reading.{bad_pixel, pixel_of, pixels_of};

use crate::NoMemory;
use ev_argb::Pixel;
use std::alloc::Global;

// The place of the first four bytes that are no pixel, where the first of the bytes stands at `at`.
pub(crate) fn bad_pixel(at: u64, bytes: &[u8]) -> Option<u64>
    requires { at + length bytes.now < 2 ^ 64 }
    ensures { result ≡ bad_pixel at bytes.now }
{
    for i in 0..bytes.len() / 4 {
        let alpha = bytes[4 * i];
        if bytes[4 * i + 1] > alpha || bytes[4 * i + 2] > alpha || bytes[4 * i + 3] > alpha {
            return Some(at + 4 * i as u64);
        }
    }
    None
}

// The pixels of four bytes each. None where one of them is no pixel, or there is no room for them.
pub(crate) fn good_pixels(alloc: Global, bytes: &[u8]) -> Option<Vec<Pixel>>
    ensures good { IfSome result (λ _. bad_pixel 0 bytes.now ≡ None) }
    ensures value { IfSome result (λ pixels. pixels.items ≡ pixels_of bytes.now) }
{
    let mut pixels = vec![in alloc; Pixel::CLEAR; bytes.len() / 4].ok()?;
    if fill(&mut pixels, bytes) {
        Some(pixels)
    } else {
        None
    }
}

// Fills in the pixels of four bytes each, and tells whether all of them are pixels. The loop has no
// way out before its end, so that a compiler may turn it into steps of several pixels.
fn fill(into: &mut [Pixel], bytes: &[u8]) -> bool
    requires { length into.old ≡ length bytes.now / 4 }
    ensures good { IsTrue result → bad_pixel 0 bytes.now ≡ None }
    ensures value { IsTrue result → into.new ≡ pixels_of bytes.now }
{
    let mut good = true;
    for i in 0..into.len() {
        let found = pixel(
            bytes[4 * i],
            bytes[4 * i + 1],
            bytes[4 * i + 2],
            bytes[4 * i + 3],
        );
        good = good & found.is_some();
        into[i] = found.unwrap_or(Pixel::CLEAR);
    }
    good
}

// The pixel of these channels. None where a colour is above alpha.
#[inline(always)]
fn pixel(a: u8, r: u8, g: u8, b: u8) -> Option<Pixel>
    ensures { result ≡ pixel_of a r g b }
{
    Pixel::from_bits(u32::from_be_bytes([a, r, g, b]))
}

// The pixels whose four channels are each of these bytes.
pub(crate) fn even_pixels(alloc: Global, bytes: &[u8]) -> Result<Vec<Pixel>, NoMemory>
    ensures { IfOk result (λ pixels. pixels.items ≡ map even bytes.now) }
{
    bytes.iter().map(|byte| even(*byte)).collect(alloc)
}

#[inline(always)]
fn even(channel: u8) -> Pixel
    ensures { result ≡ even channel }
{
    Pixel::new(channel, channel, channel, channel)
}

// Whether the four channels are equal.
#[inline(always)]
pub(crate) fn is_even(p: Pixel) -> bool
    ensures { result ≡ is_even p }
{
    p.r() == p.a() && p.g() == p.a() && p.b() == p.a()
}

/// The four bytes of a pixel in EVI1: alpha, red, green and blue (docs/FORMATS.md, "Images").
#[inline(always)]
pub fn channels(p: Pixel) -> [u8; 4]
    ensures { result ≡ channels p }
{
    [p.a(), p.r(), p.g(), p.b()]
}
