// Deletes.
ghost use Rattle.std.specs.Prelude.{◌≡◌, ℕ, ◌+◌, List, ◌++◌, length, map, filter, filter_map, option_to_list, option_map, None, OnOk, OnErr, IfErr, IfOk, Option, Some, true, false, if◌then◌else◌};
ghost use Rattle.std.specs.FinMap.{get};
ghost use Rattle.ev_model.specs.Up.{is_smart, is_clipped_by};
ghost use Rattle.ev_model.specs.declared.object.Object.{Object};
ghost use Rattle.ev_model.specs.declared.command.Edit.TheVariants as edit;
ghost use Rattle.ev_links.specs.Ties.{parent_at, has};
ghost use Rattle.ev_groups.specs.Groups.{siblings};
ghost use Rattle.ev_scene.specs.Ids.{of_id, value_of};
ghost use Rattle.ev_scene.specs.Board.{values_of, inside, MakesAtMost};
ghost use Rattle.ev_scene.specs.Cast.{IsCast, kept_of, board_of};
ghost use Rattle.ev_scene.specs.Change.{apply};
ghost use Rattle.ev_scene.specs.ObjectTies.{tie_of};
ghost use Rattle.ev_scene.specs.Edits.{Edits, IsLeft, clipped_among, clipped_by, deleted, emptied, writes};
ghost use Rattle.ev_scene.specs.declared.change.Change.TheVariants as change;

use crate::NoMemory;
use crate::cast::Cast;
use crate::roll::Roll;
use crate::stacking::remove_from;
use ev_groups::Groups;
use ev_links::Links;
use ev_model::{Name, Object, Refusal};
use ev_state::{Copied, Shared};

impl Cast {
    // The object goes, with all that stands inside it.
    pub fn delete(&mut self, name: &Name) -> Result<(), Refusal>
        requires whole { IsCast self.old }
        ensures whole { IsCast self.new }
        ensures edits { Edits (board_of self.old) (edit.Delete name.now) result
            (board_of self.new) }
        ensures refused { IfErr result
            (λ cause. IsLeft (kept_of self.old) cause (kept_of self.new)) }
        ensures made { MakesAtMost (writes (board_of self.old) (edit.Delete name.now))
            self.old.roll.made self.new.roll.made }
    {
        let Some(object) = self.roll.named(name) else {
            return Err(Refusal::Unknown);
        };
        let (id, parent) = (object.id, object.parent);
        if object.is_smart() {
            self.delete_group(id, parent)?;
        } else {
            self.delete_one(id, parent)?;
        }
        Ok(())
    }

    // A smart object goes, with all that stands inside it. What that clips goes as well.
    fn delete_group(&mut self, id: u64, parent: Option<u64>) -> Result<(), NoMemory>
        requires whole { IsCast self.old }
        requires object { (o : Object) × (of_id (values_of self.old.roll.states) id ≡ Some o)
            × (o.parent ≡ parent) × (is_smart o ≡ true) }
        ensures whole { IsCast self.new }
        ensures ok { OnOk result (board_of self.new ≡ deleted (board_of self.old) id parent) }
        ensures err { OnErr result
            (kept_of self.new ≡ record (kept_of self.old) { made = self.new.roll.made }) }
        ensures made { self.new.roll.made ≡ self.old.roll.made }
    {
        let ids = self.inside(id)?;
        self.tell_ties();
        self.links.drop_all(&ids);
        remove_from(&mut self.groups, parent, id);
        clear_all(&mut self.groups, &ids);
        take_all(&mut self.roll, &ids);
        Ok(())
    }

    // Another object goes. What it clips has no clipper then.
    fn delete_one(&mut self, id: u64, parent: Option<u64>) -> Result<(), NoMemory>
        requires whole { IsCast self.old }
        requires object { (o : Object) × (of_id (values_of self.old.roll.states) id ≡ Some o)
            × (o.parent ≡ parent) × (is_smart o ≡ false) }
        ensures whole { IsCast self.new }
        ensures ok { OnOk result (board_of self.new ≡ deleted (board_of self.old) id parent) }
        ensures err { OnErr result
            (kept_of self.new ≡ record (kept_of self.old) { made = self.new.roll.made }) }
        ensures made { MakesAtMost (length (clipped_by (board_of self.old) id parent))
            self.old.roll.made self.new.roll.made }
    {
        let released = released(&mut self.roll, &self.groups, &self.links, id, parent)?;
        self.tell_ties();
        let Ok(()) = self.links.drop_id(id) else {
            unreachable!()
        };
        remove_from(&mut self.groups, parent, id);
        self.groups.clear(id);
        self.roll.replace_all(released);
        self.roll.take(id);
        Ok(())
    }

    // The ids of an object and of all that stands inside it.
    pub fn inside(&self, id: u64) -> Result<Vec<u64>, NoMemory>
        ensures { IfOk result (λ ids. ids.items ≡ inside (board_of self.now) id) }
    {
        let mut ids = Vec::new(self.roll.alloc());
        ids.push(id)?;
        self.groups.collect(&mut ids, Some(id), self.roll.len())?;
        Ok(ids)
    }
}

// Takes all members out of some objects.
fn clear_all(groups: &mut Groups, ids: &[u64])
    requires serial { has ids.now 0 ≡ false }
    ensures { groups.new ≡ emptied ids.now groups.old }
{
    'ids: for id in ids {
        groups.clear(*id);
    }
}

// Removes the objects of some ids.
fn take_all(roll: &mut Roll, ids: &[u64])
    ensures states { (q : ℕ) → of_id roll.new.states q
        ≡ (if has ids.now q then None else of_id roll.old.states q) }
    ensures size { length roll.new.states ≡ length roll.old.states }
    ensures made { roll.new.made ≡ roll.old.made }
{
    'ids: for id in ids {
        roll.take(*id);
    }
}

// New states without a clipper for all siblings in a parent that an object clips.
fn released(
    roll: &mut Roll,
    groups: &Groups,
    links: &Links,
    id: u64,
    parent: Option<u64>,
) -> Result<Vec<Shared<Object>>, NoMemory>
    requires tied { (q : ℕ) → get links.now q
        ≡ option_map tie_of (of_id (values_of roll.old.states) q) }
    ensures states { IfOk result (λ states. map value_of states.items
        ≡ map (apply (change.Clip None))
        (clipped_among (values_of roll.old.states) (siblings groups.now parent) id)) }
    ensures same { roll.new.states ≡ roll.old.states }
    ensures made { MakesAtMost
        (length (clipped_among (values_of roll.old.states) (siblings groups.now parent) id))
        roll.old.made roll.new.made }
{
    if links.below_of(id) == 0 {
        return Ok(Vec::new(roll.alloc()));
    }
    released_beside(roll, groups, id, parent)
}

// The same, found by going through all siblings.
fn released_beside(
    roll: &mut Roll,
    groups: &Groups,
    id: u64,
    parent: Option<u64>,
) -> Result<Vec<Shared<Object>>, NoMemory>
    ensures states { IfOk result (λ states. map value_of states.items
        ≡ map (apply (change.Clip None))
        (clipped_among (values_of roll.old.states) (siblings groups.now parent) id)) }
    ensures same { roll.new.states ≡ roll.old.states }
    ensures made { MakesAtMost
        (length (clipped_among (values_of roll.old.states) (siblings groups.now parent) id))
        roll.old.made roll.new.made }
{
    let mut states = Vec::new(roll.alloc());
    let siblings = groups.group(parent);
    let mut at = siblings.bottom();
    'up: while let Some(sibling) = at {
        release(roll, &mut states, id, sibling)?;
        at = siblings.next_above(sibling);
    }
    Ok(states)
}

// Adds a new state without a clipper for an object, where its clipper is this one.
fn release(
    roll: &mut Roll,
    states: &mut Vec<Shared<Object>>,
    clipper: u64,
    id: u64,
) -> Result<(), NoMemory>
    ensures states { OnOk result (map value_of states.new.items ≡ map value_of states.old.items
        ++ map (apply (change.Clip None)) (filter (is_clipped_by clipper)
        (option_to_list (of_id (values_of roll.old.states) id)))) }
    ensures same { roll.new.states ≡ roll.old.states }
    ensures made { MakesAtMost
        (length (filter (is_clipped_by clipper)
        (option_to_list (of_id (values_of roll.old.states) id))))
        roll.old.made roll.new.made }
{
    if let Some(object) = roll.object(id) {
        if object.is_clipped_by(clipper) {
            let mut copy = object.copied()?;
            copy.clipper = None;
            states.push(roll.make(copy)?)?;
        }
    }
    Ok(())
}
