// What an object shows.
ghost use Rattle.std.specs.Prelude.{◌≡◌, IfOk};
ghost use Rattle.ev_model.specs.Content.{kind_of};

use crate::{LoadedFont, LoadedImage, Name, NoMemory, Words};

/// The four kinds of objects (docs/CANVAS.md, "Objects").
#[derive(Clone, Copy, Debug, PartialEq, Eq)]
pub enum Kind {
    /// One colour.
    Rect,
    /// A loaded image.
    Image,
    /// Characters of a loaded font.
    Text,
    /// Nothing by itself; it holds members.
    Smart,
}

/// How many columns and rows of an image keep their size, at the left, the right, the top and the bottom.
#[derive(Clone, Copy, Debug, PartialEq, Eq)]
pub struct Border {
    pub l: u32,
    pub r: u32,
    pub t: u32,
    pub b: u32,
}

/// Where one copy of an image lies in its object: in all of it, or in an area that repeats.
#[derive(Clone, Copy, Debug, PartialEq, Eq)]
pub enum Fill {
    /// The whole object.
    Filled,
    /// A place and a size in pixels, counted from the object's top left.
    Area { x: i32, y: i32, w: u32, h: u32 },
}

/// The content of an image object. With the centre off, nothing shows between the borders of both
/// axes (docs/CANVAS.md, "Samples").
#[derive(Drop)]
pub struct ImagePart {
    /// The file that a load fetches.
    pub key: Option<Name>,
    pub loaded: Option<LoadedImage>,
    pub fill: Fill,
    pub border: Border,
    pub center: bool,
}

/// The content of a text object.
#[derive(Drop)]
pub struct TextPart {
    /// The file of the font that a load fetches.
    pub key: Option<Name>,
    pub loaded: Option<LoadedFont>,
    pub text: Words,
}

/// What an object shows, by its kind.
#[derive(Drop)]
pub enum Content {
    Rect,
    Smart,
    Image(ImagePart),
    Text(TextPart),
}

impl ImagePart {
    /// An equal part, which shares the loaded image.
    pub fn copied(&self) -> Result<ImagePart, NoMemory>
        ensures { IfOk result (λ part. part ≡ self.now) }
    {
        let loaded = match &self.loaded {
            Some(loaded) => Some(loaded.copied()?),
            None => None,
        };
        Ok(ImagePart {
            key: self.key,
            loaded,
            fill: self.fill,
            border: self.border,
            center: self.center,
        })
    }
}

impl TextPart {
    /// An equal part, which shares the loaded font. `NoMemory` where there is no room for its text.
    pub fn copied(&self) -> Result<TextPart, NoMemory>
        ensures { IfOk result (λ part. part ≡ self.now) }
    {
        let text = self.text.copied()?;
        let loaded = match &self.loaded {
            Some(loaded) => Some(loaded.copied()?),
            None => None,
        };
        Ok(TextPart {
            key: self.key,
            loaded,
            text,
        })
    }
}

impl Content {
    /// The kind of the objects that have such a content.
    pub fn kind(&self) -> Kind
        ensures { result ≡ kind_of self.now }
    {
        match self {
            Content::Rect => Kind::Rect,
            Content::Smart => Kind::Smart,
            Content::Image(_) => Kind::Image,
            Content::Text(_) => Kind::Text,
        }
    }

    /// An equal content. `NoMemory` where there is no room for a text.
    pub fn copied(&self) -> Result<Content, NoMemory>
        ensures { IfOk result (λ content. content ≡ self.now) }
    {
        match self {
            Content::Rect => Ok(Content::Rect),
            Content::Smart => Ok(Content::Smart),
            Content::Image(part) => Ok(Content::Image(part.copied()?)),
            Content::Text(part) => Ok(Content::Text(part.copied()?)),
        }
    }
}
