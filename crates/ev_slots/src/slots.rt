// Things by their ids.
ghost use Rattle.std.specs.Prelude.{ℕ, ◌≡◌, ◌≢◌, ◌↔◌, ◌+◌, ◌^◌, ◌<◌, ◌≤◌, [], ◌∷◌, ◌++◌, length, None, Some, OnOk, option_copied, OnSome, IfNone, nat_eq};
ghost use Rattle.std.specs.Option.{option_copied_mut};
ghost use Rattle.std.specs.Borrow.{sem};
ghost use Rattle.ev_slots.specs.Slots.{of_id, put, live, seat};
ghost use Rattle.ev_slots.specs.Seats.{HavePlaces, SitsDown, StandsUp};
ghost use Rattle.std.specs.HashMap.{get, spare};
ghost use Rattle.slab.specs.Slab.{get as entry, slab_len};
ghost use Rattle.ev_slots.specs.Lending.{LendsThing};
ghost use Rattle.ev_slots.specs.KeptPlaces.{Enters};
ghost use Rattle.ev_slots.specs.declared.slots.Entry.{Entry};

use crate::NoMemory;
use crate::near::Near;
use slab::Slab;
use std::alloc::Global;
use std::collections::HashMap;
use std::marker::Model;

/// How many ids may be given. No run comes near.
pub const MAX_IDS: u64 = 1 << 62;

// A thing with its id.
#[derive(Drop)]
struct Entry<T> {
    id: u64,
    thing: T,
}

/// Things that go by ids, the numbers from 1 in the order in which they are given. An id is never
/// given again. The place of a thing that is taken away is used again, so memory is taken for the
/// things that are there, and none for the others (docs/ARCHITECTURE.md, "Costs").
#[derive(Drop)]
pub struct Slots<T> {
    given: u64,
    places: HashMap<u64, usize>,
    entries: Slab<Entry<T>>,
    near: Near,
}

impl<T> Model for Slots<T> {
    ghost use Rattle.std.specs.Prelude.{◌-◌, ◌^◌, min, nat_eq};
    ghost use Rattle.std.specs.HashMap.{get, spare};
    ghost use Rattle.slab.specs.Slab.{get as entry, slab_len};
    ghost use Rattle.ev_slots.specs.Slots.{Slots};
    ghost use Rattle.ev_slots.specs.KeptPlaces.{IsKept, thing_of, up_to, seats_of};

    ghost Value = { Slots T };

    ghost view = { λ s. record {
      slots = up_to (thing_of (get nat_eq s.places) (entry s.entries)) s.given;
      seats = seats_of s.entries.slots;
      places = s.entries.capacity;
      room = min (2 ^ 62 - s.given) (min (spare s.places) (s.entries.capacity - slab_len s.entries));
    } };

    ghost invariant = { λ s. IsKept s.given (get nat_eq s.places) (entry s.entries) (slab_len s.entries) };
}

impl<T: Drop> Slots<T> {
    /// No things, and no id was given.
    pub fn new(alloc: Global) -> Slots<T>
        ensures slots { result.slots ≡ [] }
        ensures seats { result.seats ≡ [] }
    {
        Slots {
            given: 0,
            places: HashMap::new(alloc),
            entries: Slab::new(alloc),
            near: Near::new(alloc),
        }
    }

    /// How many ids were given.
    pub fn given(&self) -> u64
        ensures value { result ≡ length self.now.slots }
        ensures few { result ≤ 2 ^ 62 }
    {
        self.given
    }

    /// How many things are there. So many places are taken.
    pub fn len(&self) -> usize
        ensures { result ≡ length (live self.now.slots) }
    {
        self.entries.len()
    }

    /// How many places there are, taken or not.
    pub fn places(&self) -> usize
        ensures { result ≡ self.now.places }
    {
        self.entries.capacity()
    }

    /// The place in which an id sits, if its thing is there.
    pub fn place(&self, id: u64) -> Option<usize>
        ensures { (place : ℕ) → (result ≡ Some place) ↔ (seat self.now.seats place ≡ Some id) }
    {
        place_of(&self.near, &self.places, &self.entries, id)
    }

    /// The id that sits in a place, if there is one.
    pub fn id_in(&self, place: usize) -> Option<u64>
        ensures { result ≡ seat self.now.seats place }
    {
        let entry = self.entries.get(place)?;
        Some(entry.id)
    }

    /// Each id whose thing is there sits in a place of its own, and no other id sits anywhere. It
    /// changes nothing.
    pub fn laws(&self)
        ensures { HavePlaces self.now }
    {
        let _ = self.entries.capacity();
    }

    /// The thing of an id.
    pub fn get(&self, id: u64) -> Option<&T>
        ensures { option_copied result ≡ of_id self.now.slots id }
    {
        let place = place_of(&self.near, &self.places, &self.entries, id)?;
        let entry = self.entries.get(place)?;
        Some(&entry.thing)
    }

    /// The thing of an id, to write to.
    pub fn get_mut(&mut self, id: u64) -> Option<&mut T>
        ensures* writes_back { sem 𝓛 (LendsThing T.row self.entry id result) }
        ensures value { option_copied_mut result ≡ of_id self.old.slots id }
    {
        let place = place_of(&self.near, &self.places, &self.entries, id)?;
        let entry = self.entries.get_mut(place)?;
        Some(&mut entry.thing)
    }

    /// Makes room for one more thing.
    pub fn reserve(&mut self) -> Result<(), NoMemory>
        ensures slots { self.new.slots ≡ self.old.slots }
        ensures seats { self.new.seats ≡ self.old.seats }
        ensures places { self.old.places ≤ self.new.places }
        ensures ok { OnOk result (0 < self.new.room) }
    {
        if self.given >= MAX_IDS {
            return Err(NoMemory);
        }
        self.places.reserve(1)?;
        self.entries.reserve(1)?;
        if self.near.len() < self.entries.capacity() {
            find_again(&mut self.near, &self.entries);
        }
        Ok(())
    }

    /// Gives the next id, and nothing for it. It takes no memory.
    pub fn give(&mut self)
        requires { length self.old.slots < 2 ^ 62 }
        ensures slots { self.new.slots ≡ self.old.slots ++ None ∷ [] }
        ensures seats { self.new.seats ≡ self.old.seats }
        ensures places { self.new.places ≡ self.old.places }
    {
        self.given += 1;
    }

    /// Puts a thing under the next id, where room was made for it.
    pub fn push(&mut self, thing: T)
        requires { 0 < self.old.room }
        ensures slots { self.new.slots ≡ self.old.slots ++ Some thing ∷ [] }
        ensures seats { SitsDown self.old.seats self.new.seats (length self.new.slots) }
        ensures places { self.new.places ≡ self.old.places }
    {
        self.given += 1;
        let place = enter(&mut self.places, &mut self.entries, self.given, thing);
        self.near.note(self.given, place);
    }

    /// Puts a thing under an id that was given, where nothing stands for it and room was made.
    pub fn fill(&mut self, id: u64, thing: T)
        requires room { 0 < self.old.room }
        requires low { 1 ≤ id }
        requires high { id ≤ length self.old.slots }
        requires none { of_id self.old.slots id ≡ None }
        ensures slots { self.new.slots ≡ put self.old.slots id (Some thing) }
        ensures seats { SitsDown self.old.seats self.new.seats id }
        ensures places { self.new.places ≡ self.old.places }
    {
        let place = enter(&mut self.places, &mut self.entries, id, thing);
        self.near.note(id, place);
    }

    /// Takes away the thing of an id, if there is one. Its place is used again.
    pub fn take(&mut self, id: u64) -> Option<T>
        ensures value { result ≡ of_id self.old.slots id }
        ensures some { OnSome result (self.new.slots ≡ put self.old.slots id None) }
        ensures none { IfNone result (self.new.slots ≡ self.old.slots) }
        ensures left { OnSome result (StandsUp self.old.seats self.new.seats id) }
        ensures stayed { IfNone result (self.new.seats ≡ self.old.seats) }
        ensures places { self.new.places ≡ self.old.places }
    {
        let place = self.places.remove(&id)?;
        let entry = self.entries.remove(place);
        Some(entry.thing)
    }
}

// The place to which an id leads. The map is asked only where the thing of another id stands near.
fn place_of<T>(
    near: &Near,
    places: &HashMap<u64, usize>,
    entries: &Slab<Entry<T>>,
    id: u64,
) -> Option<usize>
    requires { (place : ℕ) (e : Entry T) → entry entries.now place ≡ Some e → get nat_eq places.now e.id ≡ Some place }
    ensures { result ≡ get nat_eq places.now id }
{
    let place = near.place(id);
    if let Some(entry) = entries.get(place) {
        if entry.id == id {
            return Some(place);
        }
    }
    places.get(&id).copied()
}

// Finds out anew where ids lead, in twice the room.
fn find_again<T>(near: &mut Near, entries: &Slab<Entry<T>>) {
    near.grow();
    'entries: for (place, entry) in entries {
        near.note(entry.id, place);
    }
}

// Puts a thing into a place, to which its id leads from now on. Gives the place.
fn enter<T: Drop>(
    places: &mut HashMap<u64, usize>,
    entries: &mut Slab<Entry<T>>,
    id: u64,
    thing: T,
) -> usize
    requires room { 0 < spare places.old }
    requires place { slab_len entries.old < entries.old.capacity }
    ensures enters { Enters (get nat_eq places.old) (entry entries.old) (slab_len entries.old) id thing (get nat_eq places.new) (entry entries.new) (slab_len entries.new) }
    ensures capacity { entries.new.capacity ≡ entries.old.capacity }
{
    let place = entries.insert_reserved(Entry { id, thing });
    let Ok(_) = places.insert(id, place) else {
        unreachable!()
    };
    place
}
