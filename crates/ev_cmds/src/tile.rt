// What is painted on one tile, in its place.
ghost use Rattle.std.specs.Prelude.{◌≡◌, OnOk};
ghost use Rattle.ev_cmds.specs.TileJobs as jobs;

use crate::part::part_on;
use crate::{NoMemory, Patch, Sheet};
use ev_areas::Edges;
use ev_model::Record;

/// What is painted on the tile of this number, whose top left is the pixel in column `left` of row
/// `top` (docs/ARCHITECTURE.md, Tiles).
#[derive(Drop)]
pub struct TileCommands {
    pub tile: u32,
    pub left: u32,
    pub top: u32,
    pub sheet: Sheet,
}

impl TileCommands {
    // Takes in a record that lies below all that are here, of which only what lies between these
    // edges is looked at.
    pub(crate) fn take(
        &mut self,
        one: &Record,
        seen: &Edges,
        spare: &mut Vec<Patch>,
    ) -> Result<(), NoMemory>
        ensures { OnOk result (jobs.TakesIn one.now seen.now self.old self.new) }
    {
        match part_on(seen, self.left, self.top) {
            Some(area) => self.sheet.take(one, area, spare),
            None => Ok(()),
        }
    }
}
