// Starts that have captured their scene, and whose frame isn't set up yet.
ghost use Rattle.std.specs.Prelude.{◌≡◌, ◌≤◌, ◌<◌, ◌+◌, ◌^◌, ◌&&◌, ℕ, not, length, map, None, IfOk, OnErr, option_map};
ghost use Rattle.ev_geom.specs.Bands.{has_pixel, IsBandsOf};
ghost use Rattle.ev_region.specs.Count.{LiesWithin};
ghost use Rattle.ev_model.specs.Capture.{capture_of};
ghost use Rattle.ev_model.specs.Stage.{stage};
ghost use Rattle.ev_cmds.specs.Cuts.{IsCutOf};
ghost use Rattle.ev_damage.specs.Places.{HaveOwnIds};
ghost use Rattle.ev_buffers.specs.BufferChain.{painted_on_all};
ghost use Rattle.ev_frames.specs.Stand.{painted_by};
ghost use Rattle.ev_canvas.specs.Starts.{Starts, last_number};
ghost use Rattle.ev_canvas.specs.Drawings.{latest_of, captured};

use crate::NoMemory;
use crate::newest::{End, Newest};
use crate::owed::{canvas, on_canvas, owed};
use ev_cmds::Commands;
use ev_frames::Easel;
use ev_geom::Rect;
use ev_model::Record;
use ev_region::Region;
use ev_scene::Captured;
use std::alloc::Global;

// The most objects that a scene has.
const MAX_RECORDS: usize = 65_536;

/// A start without its frame: its number, the scene as it stands, what the frame owes, what is hidden
/// from it, and what it updates.
#[derive(Drop)]
pub(crate) struct Begun {
    pub(crate) number: u64,
    pub(crate) shot: Captured,
    pub(crate) owed: Region,
    pub(crate) hidden: Region,
    pub(crate) updates: Region,
}

impl Begun {
    ghost use Rattle.ev_canvas.specs.Drawings.{IsSetUp, capture_in, entry_by, newest_by};

    /// A start of this scene after the newest one, with cells of this size. The rectangles given since
    /// then count as touched, and those in `areas` hide what lies under them.
    pub(crate) fn of(
        alloc: Global,
        cell: u32,
        newest: &Option<Newest>,
        given: &[Rect],
        areas: &[Rect],
        shot: Captured,
    ) -> Result<Begun, NoMemory>
        requires low { 1 ≤ cell }
        requires high { cell ≤ 64 }
        requires count { last_number (option_map latest_of newest.now) < 2 ^ 40 }
        ensures shot { IfOk result (λ b. b.shot ≡ shot) }
        ensures starts { IfOk result (λ b. (tiles : ℕ)
            → Starts cell (option_map latest_of newest.now) (capture_in b)
            given.now areas.now (entry_by b tiles)) }
    {
        let hidden = on_canvas(alloc, areas, &canvas(shot.scene()))?;
        let owed = owed(alloc, cell, newest, &shot, given)?;
        let updates = without(&owed, &hidden)?;
        Ok(Begun {
            number: last_number(newest) + 1,
            shot,
            owed,
            hidden,
            updates,
        })
    }

    /// Starts the frame on the next of these buffers, which have its size. Says how many tiles it draws.
    /// `NoMemory` where there is no room, and then nothing changes.
    pub(crate) fn set_up(&self, alloc: Global, easel: &mut Easel) -> Result<u32, NoMemory>
        requires idle { easel.old.frame ≡ None }
        requires width { easel.old.chain.w ≡ self.now.shot.scene.w }
        requires height { easel.old.chain.h ≡ self.now.shot.scene.h }
        requires within { LiesWithin self.now.shot.scene.w self.now.shot.scene.h
            (has_pixel self.now.updates) }
        requires here { painted_on_all easel.old.chain < 2 ^ 63 }
        requires painted { painted_by easel.old < 2 ^ 63 + 2 ^ 26 }
        ensures set { IfOk result (λ tiles. IsSetUp self.now easel.old tiles easel.new) }
        ensures same { OnErr result (easel.new ≡ easel.old) }
    {
        let plan = easel.plan(alloc, &self.updates, &self.hidden)?;
        let commands = self.commands(alloc, plan.work())?;
        easel.start(alloc, plan, commands)?;
        Ok(easel.left())
    }

    // The commands of the frame, by all records of its scene.
    fn commands(&self, alloc: Global, work: &Region) -> Result<Commands, NoMemory>
        requires { LiesWithin self.now.shot.scene.w self.now.shot.scene.h (has_pixel work.now) }
        ensures { IfOk result (IsCutOf (has_pixel work.now) (capture_in self.now)) }
    {
        let scene = self.shot.scene();
        let records = references(alloc, self.shot.records())?;
        Commands::build(alloc, &records, work, scene.w, scene.h)
    }

    /// The start, once its frame was set up on one of these buffers, with so many tiles.
    pub(crate) fn into_newest(self, tiles: u32, easel: Easel) -> Newest
        ensures { result ≡ newest_by self tiles easel }
    {
        Newest {
            number: self.number,
            shot: self.shot,
            owed: self.owed,
            hidden: self.hidden,
            updates: self.updates,
            tiles,
            end: End::Running,
            easel,
        }
    }

    /// Its looks are of different objects, and its canvas has at most 4096 pixels each way. This is told
    /// here, and nothing is done.
    #[tactic(auto, using(crate::proofs::Cutting::own_looks))]
    pub(crate) fn tell_limits(&self)
        ensures apart { HaveOwnIds (capture_in self.now).looks }
        ensures width { self.now.shot.scene.w ≤ 4096 }
        ensures height { self.now.shot.scene.h ≤ 4096 }
    {
        let _records = self.shot.records();
    }
}

// The number of the newest start, or 0 before there is one.
fn last_number(newest: &Option<Newest>) -> u64
    ensures { result ≡ last_number (option_map latest_of newest.now) }
{
    match newest {
        Some(newest) => newest.number,
        None => 0,
    }
}

// The pixels of one region that the other has not.
fn without(one: &Region, other: &Region) -> Result<Region, NoMemory>
    ensures { IfOk result (IsBandsOf (λ x y.
        has_pixel one.now x y && not (has_pixel other.now x y))) }
{
    let mut rest = one.copied()?;
    rest.cut(other)?;
    Ok(rest)
}

// References to the records of a scene, of which there are no more than objects.
fn references<'a>(alloc: Global, records: &'a [Record]) -> Result<Vec<&'a Record>, NoMemory>
    ensures all { IfOk result (λ all. map (λ r. r.now) all.items ≡ records.now) }
    ensures few { IfOk result (λ all. length all.items ≤ 65536) }
{
    if records.len() > MAX_RECORDS {
        return Err(NoMemory);
    }
    let mut all = Vec::new(alloc);
    for record in records {
        all.push(record)?;
    }
    Ok(all)
}
