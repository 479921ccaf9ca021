// The canvas.
ghost use Rattle.std.specs.Prelude.{◌≡◌, ◌≤◌, IfOk};

use crate::NoMemory;
use crate::drawing::Drawing;
use crate::event::Events;
use ev_geom::Rect;
use ev_preload::Preloads;
use ev_scene::SceneBox;
use std::alloc::Global;
use std::marker::Model;

/// How a canvas is set up: how many buffers it draws in turn, 1 to 3, and the side of its cells in
/// pixels, 1 to 64 (docs/CANVAS.md, "Frames").
#[derive(Clone, Copy, Debug, PartialEq, Eq)]
pub struct Setup {
    pub buffers: u32,
    pub cell: u32,
}

/// A canvas: a scene that edits change, the frames that are started from it, and the loads of its
/// objects (docs/CANVAS.md). Each call that is refused leaves it as it was.
#[derive(Drop)]
pub struct Canvas {
    pub(crate) alloc: Global,
    pub(crate) setup: Setup,
    pub(crate) scene: SceneBox,
    // The rectangles given since the newest start, and the hidden ones in force.
    pub(crate) given: Vec<Rect>,
    pub(crate) areas: Vec<Rect>,
    // The newest start with its buffers, and what was drawn before it.
    pub(crate) drawing: Drawing,
    // The preloads that run, and the events that nobody took yet.
    pub(crate) preloads: Preloads,
    pub(crate) events: Events,
}

impl Model for Canvas {
    ghost use Rattle.ev_canvas.specs.Canvas.{Canvas, IsCanvas};
    ghost use Rattle.ev_canvas.specs.Drawings.{frames_of, painted_of};

    ghost Value = { Canvas };

    ghost view = { λ c. record {
      setup = c.setup;
      scene = c.scene;
      frames = frames_of c.given.items c.areas.items c.drawing;
      painted = painted_of c.drawing.newest;
      loads = c.preloads;
      events = c.events;
    } };

    ghost invariant = { λ c. IsCanvas c.setup c.scene c.drawing c.preloads };
}

impl Canvas {
    ghost use Rattle.ev_canvas.specs.Canvas.{opened};

    /// A canvas of 320 by 240 pixels without objects. `NoMemory` where there is no room for it.
    pub fn create(alloc: Global, setup: Setup) -> Result<Canvas, NoMemory>
        requires cell_low { 1 ≤ setup.cell }
        requires cell_high { setup.cell ≤ 64 }
        requires buffers_low { 1 ≤ setup.buffers }
        requires buffers_high { setup.buffers ≤ 3 }
        ensures { IfOk result (λ canvas. canvas ≡ opened setup) }
    {
        Ok(Canvas {
            alloc,
            setup,
            scene: SceneBox::new(alloc)?,
            given: Vec::new(alloc),
            areas: Vec::new(alloc),
            drawing: Drawing::nothing(alloc),
            preloads: Preloads::new(alloc)?,
            events: Events::new(alloc)?,
        })
    }
}
