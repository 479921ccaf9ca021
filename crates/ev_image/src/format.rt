// The formats of stored images.
ghost use Rattle.std.specs.Prelude.{◌≡◌};

/// How an image is spelled (docs/FORMATS.md, "Images").
#[derive(Clone, Copy, Debug, PartialEq, Eq)]
pub enum Format {
    /// EVI1: four channels a pixel.
    Evi1,
    /// EVI2 of kind 0: four channels a pixel.
    Evi2Argb,
    /// EVI2 of kind 1: one byte a pixel, which is each of its channels.
    Evi2Alpha,
}

impl Format {
    ghost use Rattle.ev_image.specs.Format.{magic, sides_place, head_len, pixel_len};

    // The first bytes: four characters, and in EVI2 the kind.
    pub(crate) fn magic(self) -> &'static [u8]
        ensures { result.now ≡ magic self }
    {
        match self {
            Format::Evi1 => b"EVI1",
            Format::Evi2Argb => b"EVI2\0",
            Format::Evi2Alpha => b"EVI2\x01",
        }
    }

    // Where the width stands, and the height behind it.
    pub(crate) fn sides_place(self) -> usize
        ensures { result ≡ sides_place self }
    {
        match self {
            Format::Evi1 => 4,
            Format::Evi2Argb | Format::Evi2Alpha => 5,
        }
    }

    // How many bytes stand before the pixels.
    pub(crate) fn head_len(self) -> usize
        ensures { result ≡ head_len self }
    {
        self.sides_place() + 8
    }

    // How many bytes stand for one pixel.
    pub(crate) fn pixel_len(self) -> usize
        ensures { result ≡ pixel_len self }
    {
        match self {
            Format::Evi1 | Format::Evi2Argb => 4,
            Format::Evi2Alpha => 1,
        }
    }
}
