// The tiles that a work region meets, on which nothing is painted yet.
ghost use Rattle.std.specs.Prelude.{◌≡◌, ℕ, ◌+◌, ◌*◌, ◌≤◌, ◌<◌, ℤ, pos, IfOk, OnOk};
ghost use Rattle.ev_geom.specs.Bands.{has_pixel};
ghost use Rattle.ev_region.specs.Count.{LiesWithin};
ghost use Rattle.ev_cmds.specs.TileJobs as jobs;
ghost use Rattle.ev_cmds.specs.SeenEdges as parts;

use crate::part::{meets_rows, part_on};
use crate::{Mask, NoMemory};
use ev_areas::Edges;
use ev_region::Region;
use std::alloc::Global;

// The edges of the rectangles of a region.
pub(crate) fn edges_of(alloc: Global, work: &Region, w: u32, h: u32) -> Result<Vec<Edges>, NoMemory>
    requires width { w ≤ 4096 }
    requires height { h ≤ 4096 }
    requires work { LiesWithin w h (has_pixel work.now) }
    ensures { IfOk result (λ found. (x y : ℕ) → parts.any_has found.items x y ≡ has_pixel work.now (pos x) (pos y)) }
{
    let mut found = Vec::with_capacity(alloc, work.rects().len())?;
    for rect in work.rects() {
        found.push(Edges::of(rect, w, h))?;
    }
    Ok(found)
}

// Keeps those that meet the row of tiles that begins with this row of pixels.
pub(crate) fn keep_near(all: &[Edges], top: u32, near: &mut Vec<Edges>) -> Result<(), NoMemory>
    requires { top ≤ 4096 }
    ensures { OnOk result (jobs.AreNear all.now top near.new.items) }
{
    near.clear();
    for one in all {
        if meets_rows(one, top) {
            near.push(*one)?;
        }
    }
    Ok(())
}

// The places of the tile at this place that lie between edges, if there are any.
pub(crate) fn bare_part(near: &[Edges], left: u32, top: u32) -> Option<Mask>
    ensures { jobs.IsBare (parts.any_has near.now) left top result }
{
    if !is_met(near, left, top) {
        return None;
    }
    let mut bare = Mask::new();
    for one in near {
        match part_on(one, left, top) {
            Some(patch) => bare.add(patch),
            None => {}
        }
    }
    Some(bare)
}

// Whether the tile at this place has a pixel between edges.
fn is_met(near: &[Edges], left: u32, top: u32) -> bool
    ensures { jobs.IsMet (parts.any_has near.now) left top result }
{
    for one in near {
        if part_on(one, left, top).is_some() {
            return true;
        }
    }
    false
}
