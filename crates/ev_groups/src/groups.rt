// All groups of siblings.
ghost use Rattle.std.specs.Prelude.{◌≡◌, ◌≢◌, ◌<◌, ◌≤◌, ◌++◌, ◌∷◌, [], length, map, true, None, Some, is_some, IfSome, IfOk, OnOk, OnErr};
ghost use Rattle.std.specs.Borrow.{sem};
ghost use Rattle.ev_model.specs.Order.{in_order};
ghost use Rattle.ev_stack.specs.LayerOrder.{layer_in, put_top};
ghost use Rattle.ev_slots.specs.Slots.{of_id};
ghost use Rattle.ev_groups.specs.Groups.{place, group, siblings, with_group, members_of};
ghost use Rattle.ev_groups.specs.LendingGroups.{LendsGroup};

use crate::NoMemory;
use crate::listed::Listed;
use ev_slots::{MAX_IDS, Slots};
use ev_stack::Siblings;
use std::alloc::Global;
use std::marker::Model;

/// The siblings of every parent, and those without one, each group from bottom to top
/// (docs/CANVAS.md, Objects). Objects go by their ids, which are numbers from 1 in the order in which
/// they were made. Only those that have members take memory here.
#[derive(Drop)]
pub struct Groups {
    alloc: Global,
    top: Siblings,
    members: Slots<Siblings>,
    none: Siblings,
    listed: Option<Listed>,
}

impl Model for Groups {
    ghost use Rattle.std.specs.Prelude.{◌≡◌, [], ℕ, ℤ, List};
    ghost use Rattle.ev_groups.specs.Groups.{groups_of};
    ghost use Rattle.ev_groups.specs.Listed.{IsListed};

    ghost Value = { List (List (ℕ × ℤ)) };

    ghost view = { λ groups. groups_of groups.top groups.members.slots };

    ghost invariant = { λ groups. (groups.none ≡ []) × IsListed (groups_of groups.top groups.members.slots) groups.listed };
}

impl Groups {
    /// No objects.
    pub fn new(alloc: Global) -> Groups
        ensures { result ≡ [] ∷ [] }
    {
        Groups {
            alloc,
            top: Siblings::new(alloc),
            members: Slots::new(alloc),
            none: Siblings::new(alloc),
            listed: None,
        }
    }

    /// Adds the object of the next id, one more than were made before, at the top of a layer. It stands
    /// in no object and has no members.
    ///
    /// NoMemory where there is no room for it: then nothing changes.
    pub fn add(&mut self, layer: i32) -> Result<(), NoMemory>
        requires fresh { layer_in (group self.old None) (length self.old) ≡ None }
        ensures ok { OnOk result (self.new ≡ with_group self.old None (put_top (group self.old None) (length self.old) layer) ++ [] ∷ []) }
        ensures err { OnErr result (self.new ≡ self.old) }
    {
        self.listed = None;
        if self.members.given() >= MAX_IDS {
            return Err(NoMemory);
        }
        self.top.push_top(self.members.given() + 1, layer)?;
        self.members.give();
        Ok(())
    }

    /// The siblings in a parent, or those that stand in no object. An unknown parent has no members.
    pub fn group(&self, parent: Option<u64>) -> &Siblings
        ensures { result.now ≡ group self.now parent }
    {
        let place = place(parent);
        if place == 0 {
            return &self.top;
        }
        match self.members.get(place) {
            Some(members) => members,
            None => &self.none,
        }
    }

    /// The siblings in a parent, or those that stand in no object, to write to.
    ///
    /// NoMemory where there is no room for the first member of an object: then nothing changes.
    pub fn group_mut(&mut self, parent: Option<u64>) -> Result<&mut Siblings, NoMemory>
        requires known { place parent < length self.old }
        ensures* writes_back { sem 𝓛 (LendsGroup self.entry parent result) }
        ensures value { IfOk result (λ siblings. siblings.now ≡ group self.old parent) }
        ensures empty { OnErr result (group self.old parent ≡ []) }
    {
        self.listed = None;
        let place = place(parent);
        if place == 0 {
            return Ok(&mut self.top);
        }
        make(&mut self.members, self.alloc, place)?;
        match self.members.get_mut(place) {
            Some(members) => Ok(members),
            None => Err(NoMemory),
        }
    }

    pub(crate) fn alloc(&self) -> Global {
        self.alloc
    }

    /// Takes all members out of an object.
    pub fn clear(&mut self, id: u64)
        requires serial { id ≢ 0 }
        ensures { self.new ≡ with_group self.old (Some id) [] }
    {
        if self.members.take(id).is_some() {
            self.listed = None;
        }
    }

    /// Finds the order in which all objects are painted, so many levels of them, and keeps it until the
    /// next call that changes a group. So long `collect` copies it where it is asked for all objects and
    /// as many levels. Where there is no room for it, nothing is kept.
    pub fn list_order(&mut self, levels: usize)
        ensures { self.new ≡ self.old }
    {
        if self.kept_order(None, levels).is_some() {
            return;
        }
        let mut ids = Vec::new(self.alloc);
        self.listed = match self.walk(&mut ids, None, levels) {
            Ok(()) => Some(Listed { levels, ids }),
            Err(_) => None,
        };
    }

    // The order that is kept, where it is that of the objects in this parent, so many levels of them.
    pub(crate) fn kept_order(&self, root: Option<u64>, levels: usize) -> Option<&[u64]>
        ensures { IfSome result (λ ids. ids.now ≡ in_order levels (siblings self.now) root) }
    {
        let listed = self.listed.as_ref()?;
        if root.is_none() && listed.levels == levels {
            Some(listed.ids.as_slice())
        } else {
            None
        }
    }
}

// Where a group stands: 0 for the objects that stand in no object.
fn place(parent: Option<u64>) -> u64
    ensures { result ≡ place parent }
{
    parent.unwrap_or(0)
}

// Takes the memory for members of an object, where it has none.
fn make(members: &mut Slots<Siblings>, alloc: Global, id: u64) -> Result<(), NoMemory>
    requires low { 1 ≤ id }
    requires high { id ≤ length members.old.slots }
    ensures same { map members_of members.new.slots ≡ map members_of members.old.slots }
    ensures there { OnOk result (is_some (of_id members.new.slots id) ≡ true) }
    ensures empty { OnErr result (members_of (of_id members.old.slots id) ≡ []) }
{
    if members.get(id).is_none() {
        members.reserve()?;
        members.fill(id, Siblings::new(alloc));
    }
    Ok(())
}
