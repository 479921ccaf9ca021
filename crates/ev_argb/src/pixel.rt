// A pixel is one word, with alpha in its highest byte. Clauses see its four channels.
ghost use Rattle.std.specs.Prelude.{◌≡◌, ℕ, ◌+◌, ◌*◌, ◌<◌, ◌≤◌, ◌↔◌, IsSome, IfSome};
ghost use Rattle.ev_argb.specs.Argb as argb;

use std::marker::Model;

/// A pixel of four channels from 0 to 255, whose red, green and blue are at most its alpha
/// (docs/CANVAS.md, Painting).
#[derive(Clone, Copy, Debug, PartialEq, Eq)]
pub struct Pixel {
    bits: u32,
}

impl Model for Pixel {
    ghost use Rattle.std.specs.Prelude.{ℕ, ◌*◌, ◌+◌};
    ghost use Rattle.std.proofs.Common.{arith, ap};
    ghost use Rattle.ev_argb.specs.Argb.{Argb, IsPremultiplied, unpacked, packed};

    ghost Value = { Argb };

    ghost view = { λ p. unpacked p.bits };

    ghost invariant = { λ p. IsPremultiplied (unpacked p.bits) };

    ghost inverse = { λ v. record { bits = packed v } };
}

impl Pixel {
    /// Nothing at all: the pixel `00000000`.
    pub const CLEAR: Pixel = Pixel { bits: 0 };

    /// The pixel of these channels. A red, green or blue above alpha is taken as alpha.
    pub fn new(a: u8, r: u8, g: u8, b: u8) -> Pixel
        ensures { result ≡ argb.clamped a r g b }
    {
        pack(a, r.min(a), g.min(a), b.min(a))
    }

    /// The pixel of a word whose bytes are alpha, red, green and blue, alpha highest. None exactly
    /// where red, green or blue is above alpha.
    pub fn from_bits(bits: u32) -> Option<Pixel>
        ensures valid { IsSome result ↔ argb.IsPremultiplied (argb.unpacked bits) }
        ensures value { IfSome result (λ p. p ≡ argb.unpacked bits) }
    {
        let a = bits >> 24;
        let r = (bits >> 16) & 0xff;
        let g = (bits >> 8) & 0xff;
        let b = bits & 0xff;
        // every comparison is made, so that a row of pixels is checked without a branch for each
        if (r <= a) & (g <= a) & (b <= a) {
            Some(Pixel { bits })
        } else {
            None
        }
    }

    /// The word of the four channels: alpha in its highest byte, then red, green and blue.
    #[inline(always)]
    pub fn bits(self) -> u32
        ensures { result ≡ argb.packed self }
    {
        self.bits
    }

    /// The alpha channel.
    #[inline(always)]
    pub fn a(self) -> u8
        ensures { result ≡ self.a }
    {
        (self.bits >> 24) as u8
    }

    /// The red channel, which is at most alpha.
    #[inline(always)]
    pub fn r(self) -> u8
        ensures { result ≡ self.r }
    {
        ((self.bits >> 16) & 0xff) as u8
    }

    /// The green channel, which is at most alpha.
    #[inline(always)]
    pub fn g(self) -> u8
        ensures { result ≡ self.g }
    {
        ((self.bits >> 8) & 0xff) as u8
    }

    /// The blue channel, which is at most alpha.
    #[inline(always)]
    pub fn b(self) -> u8
        ensures { result ≡ self.b }
    {
        (self.bits & 0xff) as u8
    }
}

// The pixel of channels that are premultiplied.
#[tactic(auto, using(crate::proofs::Packing::joined))]
fn pack(a: u8, r: u8, g: u8, b: u8) -> Pixel
    requires red { r ≤ a }
    requires green { g ≤ a }
    requires blue { b ≤ a }
    ensures { result ≡ record { a = a; r = r; g = g; b = b } }
{
    Pixel {
        bits: (u32::from(a) << 24) | (u32::from(r) << 16) | (u32::from(g) << 8) | u32::from(b),
    }
}

/// The product of two channels, `(x * y + 255) / 256` rounded down. So `mul(x, 255)` is x and
/// `mul(x, 0)` is 0 (docs/CANVAS.md, Painting).
pub fn mul(x: u8, y: u8) -> u8
    ensures { result ≡ argb.mul x y }
{
    ((u16::from(x) * u16::from(y) + 255) / 256) as u8
}

/// The pixel p tinted by the colour c: each channel of p times the same channel of c, by `mul`
/// (docs/CANVAS.md, Painting).
#[inline(always)]
pub fn tint(p: Pixel, c: Pixel) -> Pixel
    ensures { result ≡ argb.tint p c }
{
    let a = product(p.bits / 0x1000000, c.bits / 0x1000000);
    let r = product(p.bits / 0x10000 % 0x100, c.bits / 0x10000 % 0x100);
    let g = product(p.bits / 0x100 % 0x100, c.bits / 0x100 % 0x100);
    let b = product(p.bits % 0x100, c.bits % 0x100);
    Pixel {
        bits: a * 0x1000000 + r * 0x10000 + g * 0x100 + b,
    }
}

/// The pixel s painted over d: in each channel that of s, and of d's what s lets through, which is
/// `(256 - alpha of s) * channel / 256` rounded down (docs/CANVAS.md, Painting).
#[inline(always)]
pub fn over(s: Pixel, d: Pixel) -> Pixel
    ensures { result ≡ argb.over s d }
{
    let keep = 256 - s.bits / 0x1000000;
    let low = scaled(d.bits, keep);
    let high = scaled(d.bits / 0x100, keep);
    Pixel {
        bits: s.bits + (low + high * 0x100),
    }
}

// `mul` in whole words, in which the compiler takes several pixels at a time.
#[inline(always)]
fn product(x: u32, y: u32) -> u32
    requires first { x < 256 }
    requires second { y < 256 }
    ensures value { result ≡ argb.mul x y }
    ensures byte { result < 256 }
{
    (x * y + 255) / 256
}

// The first and the third byte of a word, counted from its low end.
#[inline(always)]
fn even_bytes(word: u32) -> u32
    ensures { result ≡ argb.even_bytes word }
{
    word / 0x10000 % 0x100 * 0x10000 + word % 0x100
}

// The same two bytes, each times keep / 256: one multiplication for both.
#[inline(always)]
fn scaled(word: u32, keep: u32) -> u32
    requires { keep ≤ 256 }
    ensures { result ≡ argb.scaled keep word }
{
    even_bytes(even_bytes(word) * keep / 0x100)
}
