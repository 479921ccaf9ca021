// A line of the log, laid out before it is written, so that it is one call of the sink.
ghost use Rattle.std.specs.Prelude.{◌≡◌, ◌≤◌, ◌<◌, ◌+◌, ◌++◌, [], length};
ghost use Rattle.ev_model.specs.Text.{spaced, signed_spaced, hex, digit, pixel_text};

use ev_argb::Pixel;
use itoa::Buffer;
use std::marker::Model;

/// At most SIZE bytes.
#[derive(Drop)]
pub struct Draft<const SIZE: usize> {
    bytes: [u8; SIZE],
    len: usize,
}

impl<const SIZE: usize> Model for Draft<SIZE> {
    ghost use Rattle.std.specs.Prelude.{ℕ, ◌≤◌, List, take};

    ghost Value = { List ℕ };

    ghost view = { λ d. take d.len d.bytes };

    ghost invariant = { λ d. d.len ≤ SIZE };
}

impl<const SIZE: usize> Draft<SIZE> {
    /// A draft without bytes.
    pub fn new() -> Draft<SIZE>
        ensures { result ≡ [] }
    {
        Draft {
            bytes: [0; SIZE],
            len: 0,
        }
    }

    /// How many bytes it has.
    pub fn len(&self) -> usize
        ensures { result ≡ length self.now }
    {
        self.len
    }

    /// Drops all bytes.
    pub fn clear(&mut self)
        ensures { self.new ≡ [] }
    {
        self.len = 0;
    }

    /// Appends a piece.
    pub fn push(&mut self, piece: &[u8])
        requires { length self.old + length piece.now ≤ SIZE }
        ensures { self.new ≡ self.old ++ piece.now }
    {
        let end = self.len + piece.len();
        let bytes = &mut self.bytes[..];
        bytes[self.len..end].copy_from_slice(piece);
        self.len = end;
    }

    /// Appends a space and a number.
    pub fn number(&mut self, n: u64)
        requires { length self.old + 41 ≤ SIZE }
        ensures text { self.new ≡ self.old ++ spaced n }
        ensures short { length self.new ≤ length self.old + 41 }
    {
        self.push(b" ");
        let mut buffer = Buffer::new();
        self.push(buffer.format(n).as_bytes());
    }

    /// Appends a space and a number with its sign.
    pub fn signed(&mut self, n: i32)
        requires { length self.old + 41 ≤ SIZE }
        ensures text { self.new ≡ self.old ++ signed_spaced n }
        ensures short { length self.new ≤ length self.old + 41 }
    {
        self.push(b" ");
        let mut buffer = Buffer::new();
        self.push(buffer.format(n).as_bytes());
    }

    /// Appends the eight digits of a pixel.
    pub fn pixel(&mut self, p: Pixel)
        requires { length self.old + 8 ≤ SIZE }
        ensures { self.new ≡ self.old ++ pixel_text p }
    {
        self.push(&pixel_text(p));
    }

    /// The bytes.
    pub fn as_slice(&self) -> &[u8]
        ensures { result.now ≡ self.now }
    {
        let bytes = &self.bytes[..];
        &bytes[..self.len]
    }
}

fn pixel_text(p: Pixel) -> [u8; 8]
    ensures { result ≡ pixel_text p }
{
    let [a0, a1] = hex(p.a());
    let [r0, r1] = hex(p.r());
    let [g0, g1] = hex(p.g());
    let [b0, b1] = hex(p.b());
    [a0, a1, r0, r1, g0, g1, b0, b1]
}

fn hex(n: u8) -> [u8; 2]
    ensures { result ≡ hex n }
{
    [digit(n / 16), digit(n % 16)]
}

fn digit(n: u8) -> u8
    requires { n < 16 }
    ensures { result ≡ digit n }
{
    if n < 10 { b'0' + n } else { b'a' + (n - 10) }
}
