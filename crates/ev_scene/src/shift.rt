// Moves.
ghost use Rattle.std.specs.Prelude.{◌≡◌, ℕ, ◌+◌, List, ◌++◌, length, map, filter_map, option_to_list, OnOk, OnErr, IfOk, IfErr, Option, Some, None, is_some, true, if◌then◌else◌, ◌&&◌, ◌+ℤ◌, ◌-ℤ◌, pos};
ghost use Rattle.std.specs.List.{list_all};
ghost use Rattle.ev_geom.specs.Area.{is_place, IsPlace};
ghost use Rattle.ev_model.specs.Up.{is_smart};
ghost use Rattle.ev_model.specs.declared.object.Object.{Object};
ghost use Rattle.ev_model.specs.declared.command.Edit.TheVariants as edit;
ghost use Rattle.ev_scene.specs.Ids.{of_id, value_of};
ghost use Rattle.ev_scene.specs.Board.{values_of, inside, MakesAtMost};
ghost use Rattle.ev_scene.specs.Cast.{IsCast, kept_of, board_of};
ghost use Rattle.ev_scene.specs.Edits.{Answers, Edits, IsLeft, Refuses, unless, may_shift, shifted_by, shifted_all, objects_in, IsShift, writes};
ghost use Rattle.ev_model.specs.declared.refusal.Refusal.TheVariants as refusal;

use crate::NoMemory;
use crate::cast::Cast;
use crate::change::move_to;
use crate::roll::Roll;
use ev_geom::is_place;
use ev_model::{Name, Object, Refusal};
use ev_state::{Copied, Shared};

impl Cast {
    // The object goes to this place, with all that stands inside it.
    pub fn shift(&mut self, name: &Name, x: i64, y: i64) -> Result<(), Refusal>
        requires whole { IsCast self.old }
        ensures whole { IsCast self.new }
        ensures edits { Edits (board_of self.old) (edit.Move name.now x y) result
            (board_of self.new) }
        ensures refused { IfErr result
            (λ cause. IsLeft (kept_of self.old) cause (kept_of self.new)) }
        ensures made { MakesAtMost (writes (board_of self.old) (edit.Move name.now x y))
            self.old.roll.made self.new.roll.made }
    {
        let Some(object) = self.roll.named(name) else {
            return Err(Refusal::Unknown);
        };
        let id = object.id;
        let Some(change) = move_to(x, y) else {
            return Err(Refusal::Range);
        };
        if object.is_smart() {
            let (dx, dy) = (distance(object.rect.x(), x), distance(object.rect.y(), y));
            return self.shift_group(id, dx, dy);
        }
        self.roll.change(id, change)?;
        Ok(())
    }

    // A smart object moves by dx and dy, with all that stands inside it.
    fn shift_group(&mut self, id: u64, dx: i64, dy: i64) -> Result<(), Refusal>
        requires whole { IsCast self.old }
        requires there { is_some (of_id (values_of self.old.roll.states) id) ≡ true }
        requires columns { IsShift dx }
        requires rows { IsShift dy }
        ensures whole { IsCast self.new }
        ensures edits { Answers
            (unless (list_all (may_shift dx dy) (objects_in (board_of self.old) id)) refusal.Range)
            (board_of self.old) (shifted_all dx dy (board_of self.old) id) result
            (board_of self.new) }
        ensures refused { IfErr result
            (λ cause. IsLeft (kept_of self.old) cause (kept_of self.new)) }
        ensures made { MakesAtMost (length (inside (board_of self.old) id)) self.old.roll.made
            self.new.roll.made }
        ensures still { dx ≡ pos 0 → dy ≡ pos 0 → self.new.roll.made ≡ self.old.roll.made }
    {
        let Ok(ids) = self.inside(id) else {
            return Err(self.first_cause(id, dx, dy));
        };
        if !may_shift_all(&self.roll, &ids, dx, dy) {
            return Err(Refusal::Range);
        }
        if dx == 0 && dy == 0 {
            return Ok(());
        }
        let states = shifted(&mut self.roll, &ids, dx, dy)?;
        self.roll.replace_all(states);
        Ok(())
    }

    // Why a smart object doesn't move, where there is no room for a list of what stands inside it.
    fn first_cause(&self, id: u64, dx: i64, dy: i64) -> Refusal
        requires whole { IsCast self.now }
        requires columns { IsShift dx }
        requires rows { IsShift dy }
        requires there { is_some (of_id (values_of self.now.roll.states) id) ≡ true }
        ensures { Refuses (unless (list_all (may_shift dx dy) (objects_in (board_of self.now) id))
            refusal.Range) result }
    {
        self.tell_ties();
        for other in 1..self.roll.next_id() {
            if self.links.inside(other, id) && !may_shift_id(&self.roll, other, dx, dy) {
                return Refusal::Range;
            }
        }
        Refusal::NoMemory
    }
}

// Whether these objects have places in range, once they have moved by dx and dy.
fn may_shift_all(roll: &Roll, ids: &[u64], dx: i64, dy: i64) -> bool
    requires columns { IsShift dx }
    requires rows { IsShift dy }
    ensures { result ≡ list_all (may_shift dx dy)
        (filter_map (of_id (values_of roll.now.states)) ids.now) }
{
    for id in ids {
        if !may_shift_id(roll, *id, dx, dy) {
            return false;
        }
    }
    true
}

// The same of the object of an id, if there is one.
fn may_shift_id(roll: &Roll, id: u64, dx: i64, dy: i64) -> bool
    requires columns { IsShift dx }
    requires rows { IsShift dy }
    ensures { result ≡ list_all (may_shift dx dy)
        (option_to_list (of_id (values_of roll.now.states) id)) }
{
    match roll.object(id) {
        Some(object) => may_shift(object, dx, dy),
        None => true,
    }
}

fn may_shift(object: &Object, dx: i64, dy: i64) -> bool
    requires columns { IsShift dx }
    requires rows { IsShift dy }
    ensures { result ≡ may_shift dx dy object.now }
{
    is_place(moved(object.rect.x(), dx)) && is_place(moved(object.rect.y(), dy))
}

// Moves an object by dx and dy.
fn shift_one(object: &mut Object, dx: i64, dy: i64)
    requires columns { IsShift dx }
    requires rows { IsShift dy }
    requires places { may_shift dx dy object.old ≡ true }
    ensures { object.new ≡ shifted_by dx dy object.old }
{
    let (x, y) = (moved(object.rect.x(), dx), moved(object.rect.y(), dy));
    object.rect = object.rect.placed(x, y);
}

// Where a column or a row comes to lie.
fn moved(at: i32, by: i64) -> i64
    requires place { IsPlace at }
    requires shift { IsShift by }
    ensures { result ≡ at +ℤ by }
{
    i64::from(at) + by
}

// How far a column or a row lies from where it goes.
fn distance(at: i32, to: i64) -> i64
    requires from { IsPlace at }
    requires to { is_place to ≡ true }
    ensures value { result ≡ to -ℤ at }
    ensures shift { IsShift result }
{
    to - i64::from(at)
}

// New states of these objects, moved by dx and dy.
fn shifted(roll: &mut Roll, ids: &[u64], dx: i64, dy: i64) -> Result<Vec<Shared<Object>>, NoMemory>
    requires columns { IsShift dx }
    requires rows { IsShift dy }
    requires places { list_all (may_shift dx dy)
        (filter_map (of_id (values_of roll.old.states)) ids.now) ≡ true }
    ensures states { IfOk result
        (λ states. map value_of states.items
        ≡ map (shifted_by dx dy) (filter_map (of_id (values_of roll.old.states)) ids.now)) }
    ensures same { roll.new.states ≡ roll.old.states }
    ensures made { MakesAtMost (length ids.now) roll.old.made roll.new.made }
{
    let mut states = Vec::new(roll.alloc());
    for id in ids {
        push_shifted(roll, &mut states, *id, dx, dy)?;
    }
    Ok(states)
}

// Adds a new state of the object of an id, moved by dx and dy, if there is one.
fn push_shifted(
    roll: &mut Roll,
    states: &mut Vec<Shared<Object>>,
    id: u64,
    dx: i64,
    dy: i64,
) -> Result<(), NoMemory>
    requires columns { IsShift dx }
    requires rows { IsShift dy }
    requires places { list_all (may_shift dx dy)
        (option_to_list (of_id (values_of roll.old.states) id)) ≡ true }
    ensures states { OnOk result (map value_of states.new.items ≡ map value_of states.old.items
        ++ map (shifted_by dx dy) (option_to_list (of_id (values_of roll.old.states) id))) }
    ensures same { roll.new.states ≡ roll.old.states }
    ensures made { MakesAtMost 1 roll.old.made roll.new.made }
{
    if let Some(object) = roll.object(id) {
        let mut copy = object.copied()?;
        shift_one(&mut copy, dx, dy);
        states.push(roll.make(copy)?)?;
    }
    Ok(())
}
