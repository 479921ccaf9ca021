// Spans of pixels.
ghost use Rattle.std.specs.Prelude.{◌≡◌, ◌&&◌, ◌==◌, length, All};
ghost use Rattle.std.specs.Simd.Lanes.{zip2};
ghost use Rattle.ev_argb.specs.Argb as argb;

use crate::pixel::{Pixel, over};

// Each pixel of `from` painted over the one at the same place of `to`. The loop by index is the form
// that the compiler turns into steps of several pixels.
pub(crate) fn blend(to: &mut [Pixel], from: &[Pixel])
    requires { length to.old ≡ length from.now }
    ensures { to.new ≡ zip2 argb.over from.now to.old }
{
    for i in 0..to.len() {
        to[i] = over(from[i], to[i]);
    }
}

/// Whether all alphas are 255. The clauses also tell that each pixel is premultiplied, as all are.
pub fn are_opaque(pixels: &[Pixel]) -> bool
    ensures value { result ≡ argb.are_opaque pixels.now }
    ensures premultiplied { All argb.IsPremultiplied pixels.now }
{
    let mut opaque = true;
    for i in 0..pixels.len() {
        opaque = is_opaque_too(opaque, pixels[i]);
    }
    opaque
}

// Whether all was opaque so far, and this pixel is.
#[inline(always)]
fn is_opaque_too(so_far: bool, p: Pixel) -> bool
    ensures value { result ≡ (so_far && p.a == 255) }
    ensures premultiplied { argb.IsPremultiplied p }
{
    so_far & (p.a() == 255)
}
