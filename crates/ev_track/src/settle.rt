// What stands in each place becomes what stood in it.
ghost use Rattle.std.specs.Prelude.{◌≡◌, ℕ, ◌≤◌, ◌<◌, false, None, Option, [], length, get_or, vec_capacity, IfOk, OnOk, OnErr};
ghost use Rattle.ev_state.specs.Held.{Held};
ghost use Rattle.ev_track.specs.Marked.{is_marked};
ghost use Rattle.ev_track.specs.Tracks.{now_in, was_in, state_in};
ghost use Rattle.ev_track.specs.Settling.{is_listed, AreNow, AreInside, HasElse};

use crate::NoMemory;
use crate::marks::Marks;
use crate::tracked::Tracked;
use ev_slots::Slots;
use ev_state::Shared;
use std::alloc::Global;

// What stands in a place that may have changed.
#[derive(Drop)]
pub struct Change<T> {
    place: usize,
    now: Option<Shared<T>>,
}

impl<T: Drop> Tracked<T> {
    /// What stands in each place counts from now on as what stood in it, and nothing as changed. It
    /// costs what may have changed. `NoMemory`: then nothing changes.
    pub fn settle(&mut self) -> Result<(), NoMemory>
        ensures slots { self.new.slots ≡ self.old.slots }
        ensures seats { self.new.seats ≡ self.old.seats }
        ensures places { self.new.places ≡ self.old.places }
        ensures room { self.new.room ≡ self.old.room }
        ensures ok { OnOk result ((place : ℕ) → was_in self.new place ≡ now_in self.new place) }
        ensures err { OnErr result (self.new.was ≡ self.old.was) }
    {
        let alloc = *self.was.allocator();
        let changes = list_changes(alloc, &self.slots, &self.marks)?;
        self.was
            .reserve(self.marks.len().saturating_sub(self.was.len()))?;
        lengthen(&mut self.was, self.marks.len());
        put_all(&mut self.was, changes);
        self.marks.clear();
        Ok(())
    }
}

// What stands in each marked place.
fn list_changes<T: Drop>(
    alloc: Global,
    slots: &Slots<Shared<T>>,
    marks: &Marks,
) -> Result<Vec<Change<T>>, NoMemory>
    ensures now { IfOk result (λ changes. AreNow (state_in slots.now.slots slots.now.seats) changes.items) }
    ensures inside { IfOk result (λ changes. AreInside (length marks.now) changes.items) }
    ensures all { IfOk result (λ changes. (place : ℕ)
        → is_listed changes.items place ≡ false → is_marked marks.now place ≡ false) }
{
    let mut changes = Vec::new(alloc);
    let mut from = 0;
    while from < marks.len() {
        let Some(place) = marks.next(from) else {
            break;
        };
        changes.push(Change {
            place,
            now: share_in(slots, place)?,
        })?;
        from = place + 1;
    }
    Ok(changes)
}

// A share of what stands in a place.
fn share_in<T: Drop>(slots: &Slots<Shared<T>>, place: usize) -> Result<Option<Shared<T>>, NoMemory>
    ensures { IfOk result (λ now. now ≡ state_in slots.now.slots slots.now.seats place) }
{
    let Some(id) = slots.id_in(place) else {
        return Ok(None);
    };
    let Some(state) = slots.get(id) else {
        return Ok(None);
    };
    Ok(Some(state.share()?))
}

// So many places, those that are new without a state.
fn lengthen<T: Drop>(was: &mut Vec<Option<Shared<T>>>, len: usize)
    requires { len ≤ vec_capacity was.old }
    ensures len { len ≤ length was.new.items }
    ensures same { (place : ℕ) → get_or was.new.items place None ≡ get_or was.old.items place None }
{
    while was.len() < len {
        was.push_reserved(None);
    }
}

// Puts all changes in their places.
fn put_all<T: Drop>(was: &mut Vec<Option<Shared<T>>>, mut changes: Vec<Change<T>>)
    requires { AreInside (length was.old.items) changes.items }
    ensures { (now : ℕ → Option (Held T)) → AreNow now changes.items
        → HasElse now changes.items was.old.items → HasElse now [] was.new.items }
{
    while let Some(change) = changes.pop() {
        was[change.place] = change.now;
    }
}
