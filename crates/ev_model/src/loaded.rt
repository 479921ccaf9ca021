// What loads gave: images and fonts, which all objects and states share.
ghost use Rattle.std.specs.Prelude.{◌≡◌, IfOk};
ghost use Rattle.std.specs.Arc.{arc_value};

use crate::{Font, Image, NoMemory};
use std::alloc::Global;
use std::marker::Model;
use std::sync::Arc;

/// An image that a load gave, with the number of the load.
#[derive(Drop)]
pub struct LoadedImage {
    number: u64,
    image: Arc<Image, Global>,
}

impl Model for LoadedImage {
    ghost use Rattle.std.specs.Arc.{arc_value};
    ghost use Rattle.ev_model.specs.Raster.{Raster};
    ghost use Rattle.ev_model.specs.Loaded.{Loaded};

    ghost Value = { Loaded Raster };

    ghost view = { λ l. record { number = l.number; value = arc_value l.image } };
}

impl LoadedImage {
    /// The image of the load of this number.
    pub fn new(number: u64, image: Arc<Image, Global>) -> LoadedImage
        ensures { result ≡ record { number = number; value = arc_value image } }
    {
        LoadedImage { number, image }
    }

    /// The number of the load.
    pub fn number(&self) -> u64
        ensures { result ≡ self.now.number }
    {
        self.number
    }

    /// The image itself.
    pub fn image(&self) -> &Image
        ensures { result.now ≡ self.now.value }
    {
        &self.image
    }

    /// The same image once more. It is shared and takes no memory; `NoMemory` stands for more
    /// holders than can be counted.
    pub fn copied(&self) -> Result<LoadedImage, NoMemory>
        ensures { IfOk result (λ l. l ≡ self.now) }
    {
        let image = Arc::try_clone(&self.image)?;
        Ok(LoadedImage {
            number: self.number,
            image,
        })
    }
}

/// A font that a load gave, with the number of the load.
#[derive(Drop)]
pub struct LoadedFont {
    number: u64,
    font: Arc<Font, Global>,
}

impl Model for LoadedFont {
    ghost use Rattle.std.specs.Arc.{arc_value};
    ghost use Rattle.ev_model.specs.Glyphs.{Glyphs};
    ghost use Rattle.ev_model.specs.Loaded.{Loaded};

    ghost Value = { Loaded Glyphs };

    ghost view = { λ l. record { number = l.number; value = arc_value l.font } };
}

impl LoadedFont {
    /// The font of the load of this number.
    pub fn new(number: u64, font: Arc<Font, Global>) -> LoadedFont
        ensures { result ≡ record { number = number; value = arc_value font } }
    {
        LoadedFont { number, font }
    }

    /// The number of the load.
    pub fn number(&self) -> u64
        ensures { result ≡ self.now.number }
    {
        self.number
    }

    /// The font itself.
    pub fn font(&self) -> &Font
        ensures { result.now ≡ self.now.value }
    {
        &self.font
    }

    /// The same font once more. It is shared and takes no memory; `NoMemory` stands for more
    /// holders than can be counted.
    pub fn copied(&self) -> Result<LoadedFont, NoMemory>
        ensures { IfOk result (λ l. l ≡ self.now) }
    {
        let font = Arc::try_clone(&self.font)?;
        Ok(LoadedFont {
            number: self.number,
            font,
        })
    }
}
