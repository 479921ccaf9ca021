// The tiles of a frame while their commands are made.
ghost use Rattle.std.specs.Prelude.{◌≡◌, ◌+◌, ◌*◌, ◌≤◌, ◌<◌, IfOk, OnOk, length};
ghost use Rattle.ev_geom.specs.Bands.{has_pixel};
ghost use Rattle.ev_geom.specs.Tiles.{tiles_along};
ghost use Rattle.ev_region.specs.Count.{LiesWithin};
ghost use Rattle.ev_model.specs.Capture.{IsLookOn};
ghost use Rattle.ev_model.specs.Look.{look_of};
ghost use Rattle.ev_cmds.specs.Frames as frames;
ghost use Rattle.ev_cmds.specs.TileJobs.{IsTableOf, tiles_of};

use crate::opening::{bare_part, edges_of, keep_near};
use crate::table::{Table, tiles_along};
use crate::{Mask, NoMemory, Patch, Sheet, TileCommands};
use ev_areas::{Edges, around};
use ev_argb::PLANE_SIDE;
use ev_model::Record;
use ev_region::Region;
use std::alloc::Global;

// The table of the canvas's tiles, and a job for each tile that the work region meets.
#[derive(Drop)]
pub(crate) struct Frame {
    pub(crate) table: Table,
    pub(crate) jobs: Vec<TileCommands>,
}

impl Frame {
    // The tiles that hold a pixel of the work region, on which nothing is painted yet.
    pub(crate) fn open(alloc: Global, work: &Region, w: u32, h: u32) -> Result<Frame, NoMemory>
        requires width { w ≤ 4096 }
        requires height { h ≤ 4096 }
        requires work { LiesWithin w h (has_pixel work.now) }
        ensures { IfOk result (frames.IsOpened (has_pixel work.now) w h) }
    {
        let edges = edges_of(alloc, work, w, h)?;
        let mut frame = Frame::closed(alloc, around(work.rects(), w, h), w, h)?;
        let mut near = Vec::new(alloc);
        for row in 0..tiles_along(h) {
            keep_near(&edges, row * PLANE_SIDE, &mut near)?;
            frame.open_row(alloc, &near, row)?;
        }
        Ok(frame)
    }

    // Takes in a record that lies below all that were taken in before.
    pub(crate) fn take(&mut self, one: &Record, spare: &mut Vec<Patch>) -> Result<(), NoMemory>
        requires table { IsTableOf self.old.table (tiles_of self.old.jobs.items) }
        requires look { IsLookOn self.old.table.w self.old.table.h (look_of one.now) }
        ensures { OnOk result (frames.Takes one.now self.old self.new) }
    {
        self.table.take(one, &mut self.jobs, spare)
    }

    // A frame that draws no tile.
    fn closed(alloc: Global, bounds: Edges, w: u32, h: u32) -> Result<Frame, NoMemory>
        requires width { w ≤ 4096 }
        requires height { h ≤ 4096 }
        ensures { IfOk result (frames.IsClosed bounds w h) }
    {
        let columns = tiles_along(w);
        let count = tiles_along(h) * columns;
        let places = vec![in alloc; 0usize; count as usize]?;
        Ok(Frame {
            table: Table {
                w,
                h,
                columns,
                bounds,
                places,
            },
            jobs: Vec::new(alloc),
        })
    }

    // Opens the tiles of a row that hold a pixel between these edges.
    fn open_row(&mut self, alloc: Global, near: &[Edges], row: u32) -> Result<(), NoMemory>
        requires sized { frames.IsSized self.old.table }
        requires row { row < tiles_along self.old.table.h }
        ensures { OnOk result (frames.OpensRow near.now row self.old self.new) }
    {
        if near.is_empty() {
            return Ok(());
        }
        for column in 0..self.table.columns {
            self.open_tile(alloc, near, row, column)?;
        }
        Ok(())
    }

    // Opens the tile in this column and row of tiles, if it does.
    fn open_tile(
        &mut self,
        alloc: Global,
        near: &[Edges],
        row: u32,
        column: u32,
    ) -> Result<(), NoMemory>
        requires sized { frames.IsSized self.old.table }
        requires row { row < tiles_along self.old.table.h }
        requires column { column < tiles_along self.old.table.w }
        ensures { OnOk result (frames.OpensTile near.now row column self.old self.new) }
    {
        let tile = row * self.table.columns + column;
        let left = column * PLANE_SIDE;
        let top = row * PLANE_SIDE;
        match bare_part(near, left, top) {
            Some(bare) => self.push_job(alloc, tile, left, top, bare),
            None => Ok(()),
        }
    }

    // Adds a job for a tile on which these places are bare.
    fn push_job(
        &mut self,
        alloc: Global,
        tile: u32,
        left: u32,
        top: u32,
        bare: Mask,
    ) -> Result<(), NoMemory>
        requires { tile < length self.old.table.places.items }
        ensures { OnOk result (frames.PushesJob tile left top bare self.old self.new) }
    {
        let commands = Vec::new(alloc);
        let sheet = Sheet { bare, commands };
        self.jobs.push(TileCommands {
            tile,
            left,
            top,
            sheet,
        })?;
        self.table.set(tile, self.jobs.len());
        Ok(())
    }
}
