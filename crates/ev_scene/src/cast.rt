// What is kept of a scene.
ghost use Rattle.std.specs.Prelude.{◌≡◌, [], ◌∷◌};
ghost use Rattle.ev_scene.specs.Board.{ids_in};
ghost use Rattle.ev_scene.specs.Cast.{IsCast, kept_of, board_of};

use crate::roll::Roll;
use ev_groups::Groups;
use ev_links::Links;
use std::alloc::Global;

// The size of the canvas, the objects, who stand together in which order, and what ties them.
#[derive(Drop)]
pub struct Cast {
    pub w: u32,
    pub h: u32,
    pub roll: Roll,
    pub groups: Groups,
    pub links: Links,
}

impl Cast {
    // A canvas of 320 by 240 pixels without objects.
    pub fn new(alloc: Global) -> Cast
        ensures empty { kept_of result
            ≡ record { w = 320; h = 240; made = 0; states = []; groups = [] ∷ [] } }
        ensures whole { IsCast result }
    {
        Cast {
            w: 320,
            h: 240,
            roll: Roll::new(alloc),
            groups: Groups::new(alloc),
            links: Links::new(alloc),
        }
    }
}
