// Where the tiles that a frame draws stand among those of the canvas.
ghost use Rattle.std.specs.Prelude.{◌≡◌, ◌+◌, ◌*◌, ◌≤◌, ◌<◌, OnOk, length, slice_index, slice_set};
ghost use Rattle.ev_geom.specs.Tiles.{tiles_along};
ghost use Rattle.ev_model.specs.Capture.{IsLookOn};
ghost use Rattle.ev_model.specs.Look.{look_of};
ghost use Rattle.ev_cmds.specs.TileJobs as drawn;

use crate::opaque::is_paintable;
use crate::{NoMemory, Patch, TileCommands};
use ev_areas::Edges;
use ev_argb::PLANE_SIDE;
use ev_model::Record;

// A canvas of w by h pixels, with this many tiles side by side, the edges between which the work
// region lies, and for each tile 0, or one more than the number of its job.
#[derive(Drop)]
pub(crate) struct Table {
    pub(crate) w: u32,
    pub(crate) h: u32,
    pub(crate) columns: u32,
    pub(crate) bounds: Edges,
    pub(crate) places: Vec<usize>,
}

impl Table {
    // Takes in a record that lies below all that were taken in before.
    pub(crate) fn take(
        &self,
        one: &Record,
        jobs: &mut [TileCommands],
        spare: &mut Vec<Patch>,
    ) -> Result<(), NoMemory>
        requires table { drawn.IsTableOf self.now (drawn.tiles_of jobs.old) }
        requires look { IsLookOn self.now.w self.now.h (look_of one.now) }
        ensures { OnOk result (drawn.TakesAll self.now one.now jobs.old jobs.new) }
    {
        is_paintable(one, self.w, self.h);
        let seen = Edges::of(&one.area, self.w, self.h).meet(&self.bounds);
        for row in seen.top / PLANE_SIDE..tiles_along(seen.bottom) {
            self.take_row(one, &seen, row, jobs, spare)?;
        }
        Ok(())
    }

    // The same on one row of tiles.
    fn take_row(
        &self,
        one: &Record,
        seen: &Edges,
        row: u32,
        jobs: &mut [TileCommands],
        spare: &mut Vec<Patch>,
    ) -> Result<(), NoMemory>
        requires table { drawn.IsTableOf self.now (drawn.tiles_of jobs.old) }
        requires right { seen.now.right ≤ self.now.w }
        requires row { row < tiles_along self.now.h }
        requires rows { row < tiles_along seen.now.bottom }
        ensures { OnOk result (drawn.Moves self.now.w self.now.h one.now seen.now (drawn.waits_from (tiles_along self.now.w) seen.now row) (drawn.waits_from (tiles_along self.now.w) seen.now (row + 1)) jobs.old jobs.new) }
    {
        for column in seen.left / PLANE_SIDE..tiles_along(seen.right) {
            self.take_tile(one, seen, row * self.columns + column, jobs, spare)?;
        }
        Ok(())
    }

    // The same on the tile of this number.
    fn take_tile(
        &self,
        one: &Record,
        seen: &Edges,
        tile: u32,
        jobs: &mut [TileCommands],
        spare: &mut Vec<Patch>,
    ) -> Result<(), NoMemory>
        requires table { drawn.IsTableOf self.now (drawn.tiles_of jobs.old) }
        requires tile { tile < tiles_along self.now.h * tiles_along self.now.w }
        ensures { OnOk result (drawn.MovesTile self.now.w self.now.h one.now seen.now tile jobs.old jobs.new) }
    {
        let place = self.place(tile);
        if place == 0 {
            return Ok(());
        }
        jobs[place - 1].take(one, seen, spare)
    }

    // Lets a number stand for the tile of this number.
    pub(crate) fn set(&mut self, tile: u32, place: usize)
        requires tile { tile < length self.old.places.items }
        ensures places { self.new.places.items ≡ slice_set self.old.places.items tile place }
        ensures others { self.new ≡ record self.old { places = self.new.places } }
    {
        self.places[tile as usize] = place;
    }

    // What stands for the tile of this number.
    fn place(&self, tile: u32) -> usize
        requires { tile < length self.now.places.items }
        ensures { result ≡ slice_index self.now.places.items tile }
    {
        self.places[tile as usize]
    }
}

// How many tiles stand side by side along this length.
pub(crate) fn tiles_along(len: u32) -> u32
    requires { len ≤ 4096 }
    ensures { result ≡ tiles_along len }
{
    len.div_ceil(PLANE_SIDE)
}
