// Looks that are kept from start to start.
ghost use Rattle.std.specs.Prelude.{◌≡◌, ℕ, ◌≤◌, true, [], map, length, OnOk, OnErr};
ghost use Rattle.ev_model.specs.declared.object.Object.{Object};
ghost use Rattle.ev_records.specs.Showing.{showing, settled};
ghost use Rattle.ev_track.specs.Tracks.{Tracks, now_in, was_in};
ghost use Rattle.ev_looks.specs.PlacedStates.{objects_in, states_now, ShowLooks, AreApart, HaveEnds};
ghost use Rattle.ev_looks.specs.Grounds.{AreTied, IsGround};
ghost use Rattle.ev_looks.specs.KeptLooks.{AreLooksOf, ServeOn};

use crate::NoMemory;
use crate::walk::Ground;
use ev_links::Links;
use ev_model::Object;
use ev_records::Records;
use ev_track::Tracked;
use std::alloc::Global;
use std::marker::Model;

/// What is seen of all objects, each in its place, now and at the start before. To find it again
/// after a change costs what the change reaches (docs/ARCHITECTURE.md, "Records").
#[derive(Drop)]
pub struct Looks {
    records: Records,
    // The size of the canvas on which the records were found.
    w: u32,
    h: u32,
    // Whether a call that found no memory left records that are wrong.
    stale: bool,
}

impl Model for Looks {
    ghost use Rattle.ev_looks.specs.KeptLooks.{Shown};

    ghost Value = { Shown };

    ghost view = { λ l. record { all = l.records; w = l.w; h = l.h; stale = l.stale } };
}

impl Looks {
    /// Looks of no objects.
    pub fn new(alloc: Global) -> Looks
        ensures all { result.all ≡ [] }
        ensures kept { (t : Tracks Object) → t.was ≡ [] → AreLooksOf result t }
    {
        Looks {
            records: Records::new(alloc),
            w: 0,
            h: 0,
            stale: false,
        }
    }

    /// The records of all places, as they were found last.
    pub fn records(&self) -> &Records
        ensures { result.now ≡ self.now.all }
    {
        &self.records
    }

    /// A start was accepted: what is shown now is from now on what was shown at the start before.
    pub fn settle(&mut self)
        ensures all { self.new.all ≡ map settled self.old.all }
        ensures kept { (t : Tracks Object) → AreLooksOf self.old t → AreLooksOf self.new t }
    {
        self.records.settle();
    }

    /// Finds what is seen of each object now, on a canvas of w by h pixels, and lets nothing count
    /// as changed any more (docs/CANVAS.md, "Clippers and groups"). `NoMemory`: then what was shown
    /// at the start before is still known, and the next call finds all that is missing.
    pub fn refresh(
        &mut self,
        objects: &mut Tracked<Object>,
        links: &Links,
        w: u32,
        h: u32,
    ) -> Result<(), NoMemory>
        requires width { w ≤ 4096 }
        requires height { h ≤ 4096 }
        requires tied { AreTied objects.old links.now }
        requires kept { AreLooksOf self.old objects.old }
        ensures slots { objects.new.slots ≡ objects.old.slots }
        ensures seats { objects.new.seats ≡ objects.old.seats }
        ensures places { objects.new.places ≡ objects.old.places }
        ensures room { objects.new.room ≡ objects.old.room }
        ensures looks { OnOk result (ShowLooks w h (states_now objects.new) self.new.all) }
        ensures settled { OnOk result ((place : ℕ)
            → was_in objects.new place ≡ now_in objects.new place) }
        ensures still { OnErr result (objects.new.was ≡ objects.old.was) }
        ensures was { (place : ℕ)
            → (showing self.new.all place).was ≡ (showing self.old.all place).was }
        ensures grown { length self.old.all ≤ length self.new.all }
        ensures enough { OnOk result (objects.new.places ≤ length self.new.all) }
        ensures kept { AreLooksOf self.new objects.new }
    {
        self.look_again(objects, links, w, h)?;
        objects.settle()?;
        objects.laws();
        self.w = w;
        self.h = h;
        self.stale = false;
        Ok(())
    }

    // Finds what is seen of each object now, and leaves it stale.
    fn look_again(
        &mut self,
        objects: &Tracked<Object>,
        links: &Links,
        w: u32,
        h: u32,
    ) -> Result<(), NoMemory>
        requires width { w ≤ 4096 }
        requires height { h ≤ 4096 }
        requires tied { AreTied objects.now links.now }
        requires kept { AreLooksOf self.old objects.now }
        ensures looks { OnOk result (ShowLooks w h (states_now objects.now) self.new.all) }
        ensures was { (place : ℕ)
            → (showing self.new.all place).was ≡ (showing self.old.all place).was }
        ensures grown { length self.old.all ≤ length self.new.all }
        ensures enough { OnOk result (objects.now.places ≤ length self.new.all) }
        ensures apart { AreApart (states_now objects.now) }
        ensures ended { HaveEnds (objects_in (states_now objects.now)) }
        ensures kept { AreLooksOf self.new objects.now }
    {
        objects.laws();
        let _sound = links.len();
        grow(&mut self.records, objects.places())?;
        let ground = Ground {
            w,
            h,
            objects,
            links,
        };
        let few = self.serve_on(&ground);
        self.stale = true;
        if few {
            ground.look_at_changes(&mut self.records)
        } else {
            ground.look_at_all(&mut self.records)
        }
    }

    // Whether what was found before may be used on, where no change reaches it.
    fn serve_on(&self, ground: &Ground<'_>) -> bool
        requires { IsGround ground.now }
        ensures { result ≡ true → ServeOn self.now ground.now }
    {
        if self.stale || self.w != ground.w || self.h != ground.h {
            return false;
        }
        !ground.reaches(self.records.len())
    }
}

// At least so many places. Those that are new show nothing.
fn grow(records: &mut Records, places: usize) -> Result<(), NoMemory>
    ensures same { (place : ℕ) → showing records.new place ≡ showing records.old place }
    ensures grown { length records.old ≤ length records.new }
    ensures ok { OnOk result (places ≤ length records.new) }
{
    while records.len() < places {
        records.add()?;
    }
    Ok(())
}
