// A tile to be drawn, and a tile that was drawn.
ghost use Rattle.std.specs.Prelude.{◌≡◌, ℤ, Bool};
ghost use Rattle.std.specs.Arc.{arc_value};
ghost use Rattle.ev_model.specs.Capture.{Capture};
ghost use Rattle.ev_cmds.specs.Cuts.{IsCutOf, most_painted};
ghost use Rattle.ev_cmds.specs.TileJobs.{IsPlaced};
ghost use Rattle.ev_cmds.specs.declared.tile.TileCommands.{TileCommands};
ghost use Rattle.ev_draw.specs.Making.{IsDrawn, PaintsAtMost};
ghost use Rattle.ev_draw.specs.DrawnTiles as jobs;

use crate::sheet::draw_sheet;
use ev_argb::Plane;
use ev_cmds::Commands;
use std::alloc::Global;
use std::marker::Model;
use std::sync::Arc;

/// A tile to be drawn: a share of the commands of a frame, the number of the tile among those that
/// the frame draws, and a plane of the tile's size (docs/ARCHITECTURE.md, Tiles).
#[derive(Drop)]
pub struct TileJob {
    commands: Arc<Commands, Global>,
    k: usize,
    plane: Plane,
}

impl Model for TileJob {
    ghost use Rattle.std.specs.Arc.{arc_value};
    ghost use Rattle.ev_draw.specs.DrawnTiles.{Job, IsJob};

    ghost Value = { Job };

    ghost view = { λ j. record { cut = arc_value j.commands; k = j.k; plane = j.plane } };

    ghost invariant = { λ j. IsJob (record { cut = arc_value j.commands; k = j.k; plane = j.plane }) };
}

/// A tile that was drawn. Clauses see its plane.
#[derive(Drop)]
pub struct TileDone {
    plane: Plane,
}

impl Model for TileDone {
    ghost use Rattle.ev_argb.specs.Tile.{Tile};

    ghost Value = { Tile };

    ghost view = { λ d. d.plane };
}

impl TileJob {
    /// The job to draw the k-th of a frame's tiles on a plane of its size, whose count is below 2^63.
    pub fn new(commands: Arc<Commands, Global>, k: usize, plane: Plane) -> TileJob
        requires { jobs.IsJob (record { cut = arc_value commands; k = k; plane = plane }) }
        ensures { result ≡ record { cut = arc_value commands; k = k; plane = plane } }
    {
        TileJob { commands, k, plane }
    }
}

impl TileDone {
    /// The plane on which the tile was drawn.
    pub fn plane(self) -> Plane
        ensures { result ≡ self }
    {
        self.plane
    }
}

/// Draws a tile: in the frame's work region the plane then has what all records paint there, and
/// elsewhere what it had; its count rises by at most the cost of the tile (docs/CANVAS.md, Painting;
/// docs/ARCHITECTURE.md, Tiles). It takes no memory.
pub fn draw(job: TileJob) -> TileDone
    ensures placed { (d : TileCommands) → IsPlaced job.cut.w job.cut.h (jobs.tile_of job d) }
    ensures most { PaintsAtMost most_painted job.plane result }
    ensures drawn { (work : ℤ → ℤ → Bool) (capture : Capture) (d : TileCommands) → IsCutOf work capture job.cut
        → IsDrawn work capture.looks (jobs.tile_of job d).left (jobs.tile_of job d).top job.plane result }
{
    let TileJob {
        commands,
        k,
        mut plane,
    } = job;
    let tile = commands.for_tile(k);
    draw_sheet(&tile.sheet, tile.left, tile.top, &mut plane);
    TileDone { plane }
}
