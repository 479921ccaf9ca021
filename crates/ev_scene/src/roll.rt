// The objects of a scene, by id and by name.
ghost use Rattle.std.specs.Prelude.{◌≡◌, ℕ, zero, ◌+◌, ◌<◌, ◌^◌, ◌++◌, ◌∷◌, [], length, OnOk, OnErr, IfOk, IfSome, Some, None, option_map, option_copied, is_some, true, All, map, if◌then◌else◌};
ghost use Rattle.ev_state.specs.Held.{Held};
ghost use Rattle.ev_model.specs.declared.object.Object.{Object};
ghost use Rattle.ev_scene.specs.Ids.{of_id, put, spread, live, value_of};
ghost use Rattle.ev_scene.specs.Roll.{IsStateOf};
ghost use Rattle.ev_scene.specs.Board.{named, values_of, MakesAtMost};
ghost use Rattle.ev_scene.specs.Change.{apply, IsFit};

use crate::NoMemory;
use crate::change::{Change, apply};
use crate::label::Label;
use ev_model::{Name, Object};
use ev_slots::Slots;
use ev_state::{Shared, Tally};
use indexmap::IndexMap;
use std::alloc::Global;
use std::marker::Model;

// How many states may be made: no run comes near.
const MAX_STATES: u64 = 1 << 62;

// The state of each id that was given, and the id of each name.
#[derive(Drop)]
pub struct Roll {
    alloc: Global,
    tally: Tally,
    slots: Slots<Shared<Object>>,
    ids: IndexMap<Label, u64>,
}

impl Model for Roll {
    ghost use Rattle.std.specs.Prelude.{min};
    ghost use Rattle.indexmap.specs.IndexMap.{spare};
    ghost use Rattle.ev_scene.specs.Roll.{Entries, IsRoll};

    ghost Value = { Entries };

    ghost view = { λ r. record {
      made = r.tally;
      states = r.slots.slots;
      room = min r.slots.room (spare r.ids);
    } };

    ghost invariant = { λ r. IsRoll r.slots.slots r.ids.entries };
}

impl Roll {
    // No objects.
    pub fn new(alloc: Global) -> Roll
        ensures none { result.states ≡ [] }
        ensures made { result.made ≡ 0 }
    {
        Roll {
            alloc,
            tally: Tally::new(),
            slots: Slots::new(alloc),
            ids: IndexMap::new(alloc),
        }
    }

    // Where states are made.
    pub fn alloc(&self) -> Global {
        self.alloc
    }

    // How many states were made.
    pub fn made(&self) -> u64
        ensures { result ≡ self.now.made }
    {
        self.tally.count()
    }

    // How many objects are there.
    pub fn len(&self) -> usize
        ensures { result ≡ length (live (values_of self.now.states)) }
    {
        self.slots.len()
    }

    // The id that comes next.
    pub fn next_id(&self) -> u64
        ensures { result ≡ length self.now.states + 1 }
    {
        self.slots.given() + 1
    }

    // The object of a name.
    pub fn named(&self, name: &Name) -> Option<&Object>
        ensures value { option_copied result ≡ named (values_of self.now.states) name.now }
        ensures there { IfSome result (λ o. of_id (values_of self.now.states) o.now.id
            ≡ Some o.now) }
    {
        match self.ids.get(&Label { name: *name }) {
            Some(id) => self.object(*id),
            None => None,
        }
    }

    // The object of an id.
    pub fn object(&self, id: u64) -> Option<&Object>
        ensures { option_copied result ≡ of_id (values_of self.now.states) id }
    {
        match self.state(id) {
            Some(state) => Some(state.get()),
            None => None,
        }
    }

    // The state of an id.
    pub fn state(&self, id: u64) -> Option<&Shared<Object>>
        ensures { option_copied result ≡ of_id self.now.states id }
    {
        self.slots.get(id)
    }

    // The states by their ids.
    pub fn slots(&self) -> &Slots<Shared<Object>>
        ensures { result.now.slots ≡ self.now.states }
    {
        &self.slots
    }

    // Makes room for one more object.
    pub fn reserve(&mut self) -> Result<(), NoMemory>
        ensures states { self.new.states ≡ self.old.states }
        ensures made { self.new.made ≡ self.old.made }
        ensures ok { OnOk result (0 < self.new.room) }
    {
        self.slots.reserve()?;
        self.ids.reserve(1)
    }

    // A state for an object. It stands for no id yet. There is no room for more than 2^62 states.
    pub fn make(&mut self, object: Object) -> Result<Shared<Object>, NoMemory>
        ensures value { IfOk result (λ state. state.value ≡ object) }
        ensures states { self.new.states ≡ self.old.states }
        ensures room { self.new.room ≡ self.old.room }
        ensures made { MakesAtMost 1 self.old.made self.new.made }
    {
        if self.tally.count() >= MAX_STATES {
            return Err(NoMemory);
        }
        Shared::make(self.alloc, object, &mut self.tally)
    }

    // Puts a new object under the next id, where room was made for it.
    pub fn add(&mut self, state: Shared<Object>)
        requires room { 0 < self.old.room }
        requires id { state.value.id ≡ length self.old.states + 1 }
        requires name { named (values_of self.old.states) state.value.name ≡ None }
        ensures states { self.new.states ≡ self.old.states ++ Some state ∷ [] }
        ensures made { self.new.made ≡ self.old.made }
    {
        let id = state.get().id;
        let label = Label {
            name: state.get().name,
        };
        self.slots.push(state);
        let Ok(_) = self.ids.insert(label, id) else {
            unreachable!()
        };
    }

    // Changes the object of an id, whose state is copied first where others hold it.
    pub fn change(&mut self, id: u64, change: Change) -> Result<(), NoMemory>
        requires there { is_some (of_id self.old.states id) ≡ true }
        requires fit { IsFit change }
        ensures ok { OnOk result (values_of self.new.states
            ≡ put (values_of self.old.states) id
            (option_map (apply change) (of_id (values_of self.old.states) id))) }
        ensures alone { OnOk result
            (self.new.states ≡ put self.old.states id (of_id self.new.states id)) }
        ensures err { OnErr result (self.new.states ≡ self.old.states) }
        ensures made { MakesAtMost 1 self.old.made self.new.made }
    {
        if self.tally.count() >= MAX_STATES {
            return Err(NoMemory);
        }
        if let Some(state) = self.slots.get_mut(id) {
            let object = state.edit(self.alloc, &mut self.tally)?;
            apply(change, object);
        }
        Ok(())
    }

    // Puts another state of the same object in place.
    pub fn replace(&mut self, state: Shared<Object>)
        requires { IsStateOf self.old.states state }
        ensures states { self.new.states ≡ put self.old.states state.value.id (Some state) }
        ensures made { self.new.made ≡ self.old.made }
    {
        let id = state.get().id;
        match self.slots.get_mut(id) {
            Some(old) => *old = state,
            None => unreachable!(),
        }
    }

    // Puts other states of some objects in place.
    pub fn replace_all(&mut self, mut states: Vec<Shared<Object>>)
        requires { All (IsStateOf self.old.states) states.items }
        ensures states { values_of self.new.states
            ≡ spread (map value_of states.items) (values_of self.old.states) }
        ensures made { self.new.made ≡ self.old.made }
    {
        while let Some(state) = states.pop() {
            self.replace(state);
        }
    }

    // Removes the object of an id, if there is one.
    pub fn take(&mut self, id: u64)
        ensures states { self.new.states
            ≡ (if is_some (of_id self.old.states id) then put self.old.states id None
            else self.old.states) }
        ensures made { self.new.made ≡ self.old.made }
    {
        if let Some(object) = self.object(id) {
            let label = Label { name: object.name };
            let Some(_) = self.ids.swap_remove(&label) else {
                unreachable!()
            };
            let _ = self.slots.take(id);
        }
    }
}
