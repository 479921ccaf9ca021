// A scene as it was captured, and what is painted of an object.
ghost use Rattle.std.specs.Prelude.{◌≡◌, ◌++◌, ◌∷◌, [], OnOk, OnErr};

use crate::Object;
use ev_argb::Pixel;
use ev_geom::Rect;
use ev_state::Shared;
use std::alloc::{AllocFailed, Global};
use std::marker::Model;

/// Shared objects, in the order in which they are painted: the lowest first.
#[derive(Drop)]
pub struct Objects {
    states: Vec<Shared<Object>>,
}

impl Model for Objects {
    ghost use Rattle.std.specs.Prelude.{List};
    ghost use Rattle.ev_state.specs.Held.{Held};
    ghost use Rattle.ev_model.specs.declared.object.Object.{Object};

    ghost Value = { List (Held Object) };

    ghost view = { λ o. o.states.items };
}

impl Objects {
    /// No objects.
    pub fn new(alloc: Global) -> Objects
        ensures { result ≡ [] }
    {
        Objects {
            states: Vec::new(alloc),
        }
    }

    /// All of them, the lowest first.
    pub fn as_slice(&self) -> &[Shared<Object>]
        ensures { result.now ≡ self.now }
    {
        &self.states
    }

    /// Puts an object on top of the others. Where there is no room for it, the error gives it back.
    pub fn push(&mut self, state: Shared<Object>) -> Result<(), AllocFailed<Shared<Object>>>
        ensures ok { OnOk result (self.new ≡ self.old ++ state ∷ []) }
        ensures err { OnErr result (self.new ≡ self.old) }
    {
        self.states.push(state)
    }
}

/// A canvas of w by h pixels and what stands on it (docs/CANVAS.md, "Objects").
#[derive(Drop)]
pub struct Scene {
    pub w: u32,
    pub h: u32,
    pub objects: Objects,
}

/// What is painted of an object: the pixels of the canvas that it may change, and the colour that
/// tints it (docs/CANVAS.md, "Painting").
#[derive(Drop)]
pub struct Record {
    pub id: u64,
    pub area: Rect,
    pub color: Pixel,
    pub object: Shared<Object>,
}
