// The commands of all tiles of a frame.
ghost use Rattle.std.specs.Prelude.{◌≡◌, ◌≤◌, ◌<◌, ℤ, Bool, All, IfOk, length, get_or, map, filter};
ghost use Rattle.ev_geom.specs.Bands.{has_pixel};
ghost use Rattle.ev_region.specs.Count.{LiesWithin};
ghost use Rattle.ev_model.specs.Capture.{Capture, capture_on, IsLookOn};
ghost use Rattle.ev_model.specs.Look.{Look, look_of};
ghost use Rattle.ev_cmds.specs.Cuts as cuts;

use crate::frame::Frame;
use crate::{NoMemory, TileCommands};
use ev_model::Record;
use ev_region::Region;
use std::alloc::Global;
use std::marker::Model;

/// What is painted on each tile of a frame that its work region meets: the places that are cleared
/// and the commands that are then carried out. What lies below a record that replaces everything is
/// left out (docs/CANVAS.md, Painting; docs/ARCHITECTURE.md, Tiles).
#[derive(Drop)]
pub struct Commands {
    w: u32,
    h: u32,
    jobs: Vec<TileCommands>,
}

impl Model for Commands {
    ghost use Rattle.ev_cmds.specs.Cuts.{Cut, IsCut};

    ghost Value = { Cut };

    ghost view = { λ c. record { w = c.w; h = c.h; jobs = c.jobs.items } };

    ghost invariant = { λ c. IsCut (record { w = c.w; h = c.h; jobs = c.jobs.items }) };
}

impl Commands {
    /// The commands of a frame that paints these records, of which there are at most 65,536, the lowest
    /// first, on a work region of a canvas of w by h pixels, on which the records and the work region
    /// lie. Those that miss the work region may be left out (`what_misses_may_be_left_out`). It shares
    /// the objects. `NoMemory` where there is no room; nothing else changes then.
    pub fn build(
        alloc: Global,
        records: &[&Record],
        work: &Region,
        w: u32,
        h: u32,
    ) -> Result<Commands, NoMemory>
        requires width { w ≤ 4096 }
        requires height { h ≤ 4096 }
        requires few { length records.now ≤ 65536 }
        requires looks { All (λ r. IsLookOn w h (look_of r.now)) records.now }
        requires work { LiesWithin w h (has_pixel work.now) }
        ensures { IfOk result (cuts.IsCutOf (has_pixel work.now) (capture_on w h (map (λ r. r.now) records.now))) }
    {
        let mut frame = Frame::open(alloc, work, w, h)?;
        let mut spare = Vec::new(alloc);
        let mut left = records.len();
        while 0 < left {
            left -= 1;
            frame.take(records[left], &mut spare)?;
        }
        let Frame { jobs, .. } = frame;
        Ok(Commands { w, h, jobs })
    }

    /// How many tiles the work region meets.
    pub fn tiles(&self) -> usize
        ensures { result ≡ length self.now.jobs }
    {
        self.jobs.len()
    }

    /// What is painted on the k-th of these tiles, in the order of their numbers, on a plane of this
    /// tile.
    pub fn for_tile(&self, k: usize) -> &TileCommands
        requires { k < length self.now.jobs }
        ensures job { result.now ≡ get_or self.now.jobs k result.now }
        ensures valid { cuts.IsJobOn self.now.w self.now.h result.now }
    {
        &self.jobs[k]
    }
}

/// A law: at each pixel of the work region, the commands of its tile paint what all records paint.
#[tactic(auto, using(crate::proofs::Cutting::paints_all))]
pub fn tiles_paint_captures()
    ensures { (work : ℤ → ℤ → Bool) (capture : Capture) (cut : cuts.Cut) → cuts.IsCutOf work capture cut → cuts.PaintsAll work capture cut }
{}

/// A law: what is cut of the records that come near the work region is cut of all records, where no
/// other one has a pixel in the work region.
pub fn what_misses_may_be_left_out()
    ensures { (work : ℤ → ℤ → Bool) (comes_near : Look → Bool) (capture : Capture) (cut : cuts.Cut) → cuts.Misses work comes_near
        → cuts.IsCutOf work (record capture { looks = filter comes_near capture.looks }) cut → cuts.IsCutOf work capture cut }
{}
