// What stands on a canvas.
ghost use Rattle.std.specs.Prelude.{◌≡◌, IfOk};

use crate::{Content, Name, NoMemory};
use ev_argb::Pixel;
use ev_geom::Rect;
use ev_state::Copied;

/// How an object's pixels change what lies below (docs/CANVAS.md, "Painting").
#[derive(Clone, Copy, Debug, PartialEq, Eq)]
pub enum Op {
    /// They are painted over it.
    Blend,
    /// They take its place.
    Copy,
}

/// One object (docs/CANVAS.md, "Objects"). Its clipper and its parent go by their ids.
#[derive(Drop)]
pub struct Object {
    pub id: u64,
    pub name: Name,
    /// In pixels of the canvas.
    pub rect: Rect,
    /// Its own visibility. What stands over it may hide it as well.
    pub shown: bool,
    pub color: Pixel,
    pub op: Op,
    /// From -32,768 to 32,767; higher layers lie above lower ones.
    pub layer: i32,
    pub clipper: Option<u64>,
    pub parent: Option<u64>,
    pub content: Content,
}

impl Object {
    ghost use Rattle.ev_model.specs.Up.{is_smart, is_clipped_by};

    /// Whether it is a smart object (docs/CANVAS.md, "Objects").
    pub fn is_smart(&self) -> bool
        ensures { result ≡ is_smart self.now }
    {
        matches!(self.content, Content::Smart)
    }

    /// Whether the object of this id is its clipper (docs/CANVAS.md, "Clippers and groups").
    pub fn is_clipped_by(&self, id: u64) -> bool
        ensures { result ≡ is_clipped_by id self.now }
    {
        match self.clipper {
            Some(clipper) => clipper == id,
            None => false,
        }
    }
}

impl Copied for Object {
    fn copied(&self) -> Result<Object, NoMemory> {
        let content = self.content.copied()?;
        Ok(Object {
            id: self.id,
            name: self.name,
            rect: self.rect,
            shown: self.shown,
            color: self.color,
            op: self.op,
            layer: self.layer,
            clipper: self.clipper,
            parent: self.parent,
            content,
        })
    }
}
