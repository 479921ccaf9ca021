// A decoded image over one vector. Clauses see its size and its pixels.
ghost use Rattle.std.specs.Prelude.{◌≡◌, ◌<◌, ◌+◌, ◌*◌};
ghost use Rattle.ev_model.specs.Raster.{Raster, IsRaster, IsImage, row};
ghost use Rattle.ev_argb.specs.Argb.{are_opaque};

use ev_argb::{Pixel, are_opaque};
use std::marker::Model;

/// An image of 1 to 4096 pixels each way. It knows whether it is opaque.
#[derive(Drop)]
pub struct Image {
    w: u32,
    h: u32,
    pixels: Vec<Pixel>,
    opaque: bool,
}

impl Model for Image {
    ghost use Rattle.std.specs.Prelude.{◌≡◌};
    ghost use Rattle.ev_argb.specs.Argb.{are_opaque};
    ghost use Rattle.ev_model.specs.Raster.{Raster, IsImage};

    ghost Value = { Raster };

    ghost view = { λ i. record { w = i.w; h = i.h; pixels = i.pixels.items } };

    ghost invariant = { λ i. IsImage (record { w = i.w; h = i.h; pixels = i.pixels.items }) × (i.opaque ≡ are_opaque i.pixels.items) };
}

impl Image {
    /// The image of these pixels, which stand row by row from the top.
    pub fn new(w: u32, h: u32, pixels: Vec<Pixel>) -> Image
        requires { IsRaster (record { w = w; h = h; pixels = pixels.items }) }
        ensures { result ≡ record { w = w; h = h; pixels = pixels.items } }
    {
        let opaque = are_opaque(pixels.as_slice());
        Image {
            w,
            h,
            pixels,
            opaque,
        }
    }

    /// How many columns it has.
    pub fn width(&self) -> u32
        ensures value { result ≡ self.now.w }
        ensures valid { IsImage self.now }
    {
        self.w
    }

    /// How many rows it has.
    pub fn height(&self) -> u32
        ensures value { result ≡ self.now.h }
        ensures valid { IsImage self.now }
    {
        self.h
    }

    /// Whether all alphas are 255. It is found once, when the image is made.
    pub fn opaque(&self) -> bool
        ensures { result ≡ are_opaque self.now.pixels }
    {
        self.opaque
    }

    /// All pixels, row by row from the top.
    pub fn pixels(&self) -> &[Pixel]
        ensures value { result.now ≡ self.now.pixels }
        ensures valid { IsImage self.now }
    {
        self.pixels.as_slice()
    }

    /// The pixels of row y, from left to right.
    pub fn row(&self, y: u32) -> &[Pixel]
        requires { y < self.now.h }
        ensures value { result.now ≡ row self.now y }
        ensures valid { IsImage self.now }
    {
        let from = y as usize * self.w as usize;
        &self.pixels[from..from + self.w as usize]
    }
}
