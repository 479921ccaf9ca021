// States by their ids, and what they were.
ghost use Rattle.std.specs.Prelude.{◌≡◌, ◌↔◌, ℕ, ◌+◌, ◌≤◌, ◌<◌, ◌^◌, ◌++◌, ◌∷◌, [], length, Some, None, OnOk, OnErr, OnSome, IfNone, IfSome, option_copied, get_or};
ghost use Rattle.std.specs.Option.{option_copied_mut};
ghost use Rattle.std.specs.Borrow.{sem};
ghost use Rattle.ev_slots.specs.Slots.{of_id, put, live, seat};
ghost use Rattle.ev_slots.specs.Seats.{SitsDown, StandsUp, HavePlaces};
ghost use Rattle.ev_track.specs.Tracks.{slots_in, now_in, was_in, FindsChange};
ghost use Rattle.ev_track.specs.LendsTracked.{LendsTracked};

use crate::NoMemory;
use crate::marks::Marks;
use ev_slots::Slots;
use ev_state::Shared;
use std::alloc::Global;
use std::marker::Model;

/// States that go by ids and stand in places (`ev_slots`), and what stood in each place when the
/// changes were last settled. Who wants to know what has changed since then looks at the places that
/// may have changed alone (docs/ARCHITECTURE.md, "Records").
#[derive(Drop)]
pub struct Tracked<T> {
    pub(crate) slots: Slots<Shared<T>>,
    pub(crate) was: Vec<Option<Shared<T>>>,
    // The places that may have changed.
    pub(crate) marks: Marks,
}

impl<T> Model for Tracked<T> {
    ghost use Rattle.ev_track.specs.Tracks.{Tracks, IsTracked, room_by};

    ghost Value = { Tracks T };

    ghost view = { λ t. record { slots = t.slots.slots; seats = t.slots.seats; places = t.slots.places; room = room_by t.slots t.marks; was = t.was.items } };

    ghost invariant = { λ t. IsTracked t.slots.slots t.slots.seats t.was.items t.marks };
}

impl<T: Drop> Tracked<T> {
    /// No states, and no id was given.
    pub fn new(alloc: Global) -> Tracked<T>
        ensures slots { result.slots ≡ [] }
        ensures was { result.was ≡ [] }
    {
        Tracked {
            slots: Slots::new(alloc),
            was: Vec::new(alloc),
            marks: Marks::new(alloc),
        }
    }

    /// How many ids were given.
    pub fn given(&self) -> u64
        ensures value { result ≡ length self.now.slots }
        ensures few { result ≤ 2 ^ 62 }
    {
        self.slots.given()
    }

    /// How many states are there. So many places are taken.
    pub fn len(&self) -> usize
        ensures { result ≡ length (live self.now.slots) }
    {
        self.slots.len()
    }

    /// How many places there are, taken or not.
    pub fn places(&self) -> usize
        ensures { result ≡ self.now.places }
    {
        self.slots.places()
    }

    /// The state of an id.
    pub fn get(&self, id: u64) -> Option<&Shared<T>>
        ensures { option_copied result ≡ of_id self.now.slots id }
    {
        self.slots.get(id)
    }

    /// The place in which an id sits, if its state is there.
    pub fn place(&self, id: u64) -> Option<usize>
        ensures { (place : ℕ) → (result ≡ Some place) ↔ (seat self.now.seats place ≡ Some id) }
    {
        self.slots.place(id)
    }

    /// The id that sits in a place, if there is one.
    pub fn id_in(&self, place: usize) -> Option<u64>
        ensures { result ≡ seat self.now.seats place }
    {
        self.slots.id_in(place)
    }

    /// Each id whose state is there sits in a place of its own, and no other id sits anywhere. It
    /// changes nothing.
    pub fn laws(&self)
        ensures { HavePlaces (slots_in self.now) }
    {
        self.slots.laws();
    }

    /// The state that stood in a place when the changes were last settled.
    pub fn was(&self, place: usize) -> Option<&Shared<T>>
        ensures { option_copied result ≡ was_in self.now place }
    {
        match self.was.get(place) {
            Some(Some(state)) => Some(state),
            _ => None,
        }
    }

    /// From this place on, the first that may have changed since the changes were last settled.
    pub fn next_changed(&self, from: usize) -> Option<usize>
        ensures { FindsChange self.now from result }
    {
        self.marks.next(from)
    }

    /// Makes room for one more state.
    pub fn reserve(&mut self) -> Result<(), NoMemory>
        ensures slots { self.new.slots ≡ self.old.slots }
        ensures seats { self.new.seats ≡ self.old.seats }
        ensures places { self.old.places ≤ self.new.places }
        ensures was { self.new.was ≡ self.old.was }
        ensures ok { OnOk result (0 < self.new.room) }
    {
        self.slots.reserve()?;
        self.marks.grow(self.slots.places())
    }

    /// Puts a state under the next id, where room was made for it.
    pub fn push(&mut self, state: Shared<T>)
        requires { 0 < self.old.room }
        ensures slots { self.new.slots ≡ self.old.slots ++ Some state ∷ [] }
        ensures seats { SitsDown self.old.seats self.new.seats (length self.new.slots) }
        ensures places { self.new.places ≡ self.old.places }
        ensures was { self.new.was ≡ self.old.was }
    {
        self.slots.laws();
        self.slots.push(state);
        self.slots.laws();
        if let Some(place) = self.slots.place(self.slots.given()) {
            self.marks.mark(place);
        }
    }

    /// Takes away the state of an id, if there is one. Its place is used again.
    pub fn take(&mut self, id: u64) -> Option<Shared<T>>
        ensures value { result ≡ of_id self.old.slots id }
        ensures some { OnSome result (self.new.slots ≡ put self.old.slots id None) }
        ensures none { IfNone result (self.new.slots ≡ self.old.slots) }
        ensures left { OnSome result (StandsUp self.old.seats self.new.seats id) }
        ensures stayed { IfNone result (self.new.seats ≡ self.old.seats) }
        ensures places { self.new.places ≡ self.old.places }
        ensures was { self.new.was ≡ self.old.was }
    {
        self.slots.laws();
        let place = self.slots.place(id)?;
        self.marks.mark(place);
        self.slots.take(id)
    }

    /// The state of an id, to write to.
    pub fn get_mut(&mut self, id: u64) -> Option<&mut Shared<T>>
        ensures* writes_back { sem 𝓛 (LendsTracked T.row self.entry id result) }
        ensures value { option_copied_mut result ≡ of_id self.old.slots id }
    {
        self.slots.laws();
        let place = self.slots.place(id)?;
        self.marks.mark(place);
        self.slots.get_mut(id)
    }
}
