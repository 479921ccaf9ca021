// The calls on clippers and parents.
ghost use Rattle.std.specs.Prelude.{◌≡◌, ◌≢◌, ◌==◌, ◌||◌, ℕ, true, nat_eq, slice_get, Some, None, OnOk, OnErr, if◌then◌else◌};
ghost use Rattle.std.specs.Option.{option_eq};
ghost use Rattle.std.specs.Result.{result_err};
ghost use Rattle.std.specs.FinMap.{get, insert, empty, len};
ghost use Rattle.ev_links.specs.Ties.{alone, up_of, places_of, next_at, parent_at, clipper_at, is_inside, has, IsUp, IsFrom, IsSound, IsDistinct, Counts};
ghost use Rattle.ev_links.specs.LinkCalls.{is_known, is_clipping, known_fault, clip_fault, join_fault, leave_fault, with_clipper, with_parent, Drops};

use crate::NoMemory;
use crate::edits::{discard, discard_all, rebind, shift, unbind};
use crate::refusal::{
    LinkErr, first_clip_fault, first_join_fault, first_leave_fault, is_rect, is_smart,
};
use crate::table::Table;
use ev_model::Kind;
use std::alloc::Global;
use std::marker::Model;

/// The clippers and parents of objects, which go by their ids. From each object a way leads up: its
/// clipper is next, or without one its parent, and so on from there. It always comes to an end, and
/// meets no object twice (docs/CANVAS.md, "Clippers and groups").
#[derive(Drop)]
pub struct Links {
    table: Table,
}

impl Model for Links {
    ghost use Rattle.ev_links.specs.Ties.{Ties};
    ghost use Rattle.ev_links.specs.Coded.{ties_code};
    ghost use Rattle.ev_links.specs.Tables.{ties_of};
    ghost use Rattle.ev_links.specs.KeptTable.{IsKept};

    ghost Value = { Ties };

    ghost coded = { ties_code };

    ghost view = { λ links. ties_of links.table };

    ghost invariant = { λ links. IsKept links.table };
}

impl Links {
    /// No objects.
    pub fn new(alloc: Global) -> Links
        ensures { result ≡ empty }
    {
        Links {
            table: Table::new(alloc),
        }
    }

    /// How many objects there are. What holds in every state is told here: clippers are rectangles
    /// and siblings of what they clip, parents are smart, and the way up of each object is whole and
    /// meets no object twice (docs/CANVAS.md, "Clippers and groups").
    pub fn len(&self) -> usize
        ensures value { result ≡ len self.now }
        ensures sound { IsSound (get self.now) }
        ensures whole { (id : ℕ) → is_known self.now id ≡ true → IsUp self.now id (up_of self.now id) }
        ensures distinct { (id : ℕ) → is_known self.now id ≡ true → IsDistinct (up_of self.now id) }
    {
        self.table.len()
    }

    /// Whether there are no objects.
    pub fn is_empty(&self) -> bool
        ensures { result ≡ (len self.now == 0) }
    {
        self.table.len() == 0
    }

    /// The object directly over this one: its clipper, or without one its parent (docs/CANVAS.md,
    /// "Clippers and groups"). None exactly where it has neither, or no object has the id.
    pub fn next_up(&self, id: u64) -> Option<u64>
        ensures { result ≡ next_at (get self.now) id }
    {
        self.table.next(id)
    }

    /// The object at a place of an object's way up, counted from 0, where the object itself stands
    /// (docs/CANVAS.md, "Clippers and groups"). None past the end of the way, and where no object
    /// has the id. This walks from the object: to meet its whole way, go on by `next_up`.
    pub fn up(&self, id: u64, place: usize) -> Option<u64>
        ensures { result ≡ (if is_known self.now id then slice_get (up_of self.now id) place else None) }
    {
        // No way is longer than there are objects.
        if place >= self.len() {
            return None;
        }
        if self.table.contains(id) {
            self.table.up_at(id, place)
        } else {
            None
        }
    }

    /// Whether an object is another, or stands inside it: the other is its parent, or the parent of
    /// that, and so on (docs/CANVAS.md, "Clippers and groups"). An id that no object has is inside
    /// itself alone.
    pub fn inside(&self, id: u64, of: u64) -> bool
        ensures { result ≡ is_inside self.now id of }
    {
        self.table.is_inside(id, of)
    }

    /// How many objects this one clips: 0 also where no object has the id. An object that clips
    /// another isn't drawn (docs/CANVAS.md, "Clippers and groups").
    pub fn below_of(&self, id: u64) -> usize
        ensures { Counts (clipper_at (get self.now)) id result }
    {
        match self.table.node(id) {
            Some(node) => node.clips,
            None => 0,
        }
    }

    /// Adds an object of a kind, without clipper and parent (docs/CANVAS.md, "Clippers and groups").
    ///
    /// NoMemory where there is no room for it: then nothing changes. This call alone takes memory.
    pub fn add(&mut self, id: u64, kind: Kind) -> Result<(), NoMemory>
        requires { get self.old id ≡ None }
        ensures ok { OnOk result (self.new ≡ insert self.old id (alone kind)) }
        ensures err { OnErr result (self.new ≡ self.old) }
    {
        self.table.insert(id, kind)?;
        Ok(())
    }

    /// Makes an object clip another, in place of an earlier clipper (docs/SCRIPT.md, "Commands",
    /// `clip`).
    ///
    /// Unknown where no object has one of the ids, Itself where they are the same, Kind where the
    /// clipper is no rectangle, Sibling where the two have different parents, Cycle where the object
    /// is on the clipper's way up: then nothing changes.
    pub fn clip(&mut self, id: u64, clipper: u64) -> Result<(), LinkErr>
        ensures fault { result_err result ≡ clip_fault self.old id clipper }
        ensures ok { OnOk result (self.new ≡ with_clipper self.old id (Some clipper)) }
        ensures err { OnErr result (self.new ≡ self.old) }
    {
        match self.clip_fault(id, clipper) {
            Some(fault) => Err(fault),
            None => {
                rebind(&mut self.table, id, clipper);
                Ok(())
            }
        }
    }

    /// Takes the clipper from an object. One without a clipper stays as it is (docs/SCRIPT.md,
    /// "Commands", `unclip`).
    ///
    /// Unknown where no object has the id: then nothing changes.
    pub fn unclip(&mut self, id: u64) -> Result<(), LinkErr>
        ensures fault { result_err result ≡ known_fault self.old id }
        ensures ok { OnOk result (self.new ≡ with_clipper self.old id None) }
        ensures err { OnErr result (self.new ≡ self.old) }
    {
        if !self.table.contains(id) {
            return Err(LinkErr::Unknown);
        }
        unbind(&mut self.table, id);
        Ok(())
    }

    /// Puts an object into a smart object, in place of an earlier one (docs/SCRIPT.md, "Commands",
    /// `member`).
    ///
    /// Unknown where no object has one of the ids, Itself where they are the same, Kind where the
    /// one to join isn't smart, Cycle where that stands inside the object, Clipping where the object
    /// clips or is clipped: then nothing changes.
    pub fn join(&mut self, id: u64, smart: u64) -> Result<(), LinkErr>
        ensures fault { result_err result ≡ join_fault self.old id smart }
        ensures ok { OnOk result (self.new ≡ with_parent self.old id (Some smart)) }
        ensures err { OnErr result (self.new ≡ self.old) }
    {
        match self.join_fault(id, smart) {
            Some(fault) => Err(fault),
            None => {
                shift(&mut self.table, id, Some(smart));
                Ok(())
            }
        }
    }

    /// Takes an object out of its parent. One without a parent stays as it is (docs/SCRIPT.md,
    /// "Commands", `free`).
    ///
    /// Unknown where no object has the id, Clipping where the object clips or is clipped: then
    /// nothing changes.
    pub fn leave(&mut self, id: u64) -> Result<(), LinkErr>
        ensures fault { result_err result ≡ leave_fault self.old id }
        ensures ok { OnOk result (self.new ≡ with_parent self.old id None) }
        ensures err { OnErr result (self.new ≡ self.old) }
    {
        match self.leave_fault(id) {
            Some(fault) => Err(fault),
            None => {
                shift(&mut self.table, id, None);
                Ok(())
            }
        }
    }

    /// Removes an object that has no members, and takes it as clipper from all that it clips
    /// (docs/SCRIPT.md, "Commands", `delete`). Where it clips nothing, this looks at no other object
    /// but its clipper.
    ///
    /// Unknown where no object has the id: then nothing changes.
    pub fn drop_id(&mut self, id: u64) -> Result<(), LinkErr>
        requires { (other : ℕ) → parent_at (get self.old) other ≢ Some id }
        ensures fault { result_err result ≡ known_fault self.old id }
        ensures ok { OnOk result (Drops self.old id self.new) }
        ensures err { OnErr result (self.new ≡ self.old) }
    {
        if !self.table.contains(id) {
            return Err(LinkErr::Unknown);
        }
        discard(&mut self.table, id);
        Ok(())
    }

    /// Removes objects, as a smart object with all that stands inside it (docs/SCRIPT.md, "Commands",
    /// `delete`). Whatever stands in one of them or is clipped by one must be among them. Ids that no
    /// object has change nothing. This looks at no other objects but what clips these.
    pub fn drop_all(&mut self, ids: &[u64])
        requires members { (q p : ℕ) → parent_at (get self.old) q ≡ Some p → has ids.now p ≡ true → has ids.now q ≡ true }
        requires clipped { (q c : ℕ) → clipper_at (get self.old) q ≡ Some c → has ids.now c ≡ true → has ids.now q ≡ true }
        ensures { (q : ℕ) → get self.new q ≡ (if has ids.now q then None else get self.old q) }
    {
        discard_all(&mut self.table, ids);
    }

    /// Why one object can't clip another: the fault that `clip` answers, or None where it makes the
    /// object a clipper (docs/SCRIPT.md, "Commands", `clip`).
    pub fn clip_fault(&self, id: u64, clipper: u64) -> Option<LinkErr>
        ensures value { result ≡ clip_fault self.now id clipper }
        ensures whole { result ≡ None → IsUp self.now clipper (up_of self.now clipper) }
    {
        let are_known = self.table.contains(id) & self.table.contains(clipper);
        let is_rect = is_rect(self.table.kind(clipper));
        let are_siblings = self.table.parent(id) == self.table.parent(clipper);
        let is_cycle = self.table.meets(clipper, id);
        first_clip_fault(are_known, id == clipper, is_rect, are_siblings, is_cycle)
    }

    /// Why an object can't join a smart object: the fault that `join` answers, or None where it makes
    /// the object a member (docs/SCRIPT.md, "Commands", `member`).
    pub fn join_fault(&self, id: u64, smart: u64) -> Option<LinkErr>
        ensures value { result ≡ join_fault self.now id smart }
        ensures whole { result ≡ None → IsFrom (parent_at (get self.now)) smart (places_of self.now smart) }
    {
        let are_known = self.table.contains(id) & self.table.contains(smart);
        let is_smart = is_smart(self.table.kind(smart));
        let is_cycle = self.table.is_inside(smart, id);
        let is_clipping = self.is_clipping(id);
        first_join_fault(are_known, id == smart, is_smart, is_cycle, is_clipping)
    }

    /// Why an object can't leave its parent: the fault that `leave` answers, or None where the object
    /// leaves (docs/SCRIPT.md, "Commands", `free`).
    pub fn leave_fault(&self, id: u64) -> Option<LinkErr>
        ensures { result ≡ leave_fault self.now id }
    {
        first_leave_fault(self.table.contains(id), self.is_clipping(id))
    }

    // Whether an object clips or is clipped.
    fn is_clipping(&self, id: u64) -> bool
        ensures { result ≡ is_clipping self.now id }
    {
        match self.table.node(id) {
            Some(node) => (node.clips > 0) | node.clipper.is_some(),
            None => false,
        }
    }
}
