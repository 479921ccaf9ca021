// Edits of the order of siblings.
ghost use Rattle.std.specs.Prelude.{◌≡◌, ℕ, ◌<◌, true, length, OnOk, OnErr, IfErr, Option, Some, None, if◌then◌else◌};
ghost use Rattle.std.specs.Result.{result_err};
ghost use Rattle.ev_stack.specs.LayerOrder.{is_in, without, IsOrder};
ghost use Rattle.ev_stack.specs.StackCalls.{place_fault, raised, lowered, relayered, placed_above, placed_below};
ghost use Rattle.ev_groups.specs.Groups.{place, group, with_group};
ghost use Rattle.ev_model.specs.declared.command.Edit.TheVariants as edit;
ghost use Rattle.ev_scene.specs.Board.{MakesAtMost};
ghost use Rattle.ev_scene.specs.Cast.{IsCast, kept_of, board_of};
ghost use Rattle.ev_scene.specs.Edits.{Edits, IsLeft};

use crate::cast::Cast;
use crate::change::{Change, is_layer};
use ev_groups::Groups;
use ev_model::{Name, Refusal};
use ev_stack::StackErr;

impl Cast {
    // The object goes to the top of this layer, if it isn't there already.
    pub fn relayer(&mut self, name: &Name, layer: i64) -> Result<(), Refusal>
        requires whole { IsCast self.old }
        ensures whole { IsCast self.new }
        ensures edits { Edits (board_of self.old) (edit.Layer name.now layer) result
            (board_of self.new) }
        ensures refused { IfErr result
            (λ cause. IsLeft (kept_of self.old) cause (kept_of self.new)) }
        ensures made { MakesAtMost 1 self.old.roll.made self.new.roll.made }
    {
        let Some(object) = self.roll.named(name) else {
            return Err(Refusal::Unknown);
        };
        let (id, parent) = (object.id, object.parent);
        if !is_layer(layer) {
            return Err(Refusal::Range);
        }
        self.roll.change(id, Change::Layer(layer))?;
        relayer_in(&mut self.groups, parent, id, layer as i32);
        Ok(())
    }

    // The object goes to the top or the bottom of its layer.
    pub fn restack(&mut self, name: &Name, up: bool) -> Result<(), Refusal>
        requires whole { IsCast self.old }
        ensures whole { IsCast self.new }
        ensures edits { Edits (board_of self.old) (edit.Raise name.now up) result
            (board_of self.new) }
        ensures refused { IfErr result
            (λ cause. IsLeft (kept_of self.old) cause (kept_of self.new)) }
        ensures made { self.new.roll.made ≡ self.old.roll.made }
    {
        let Some(object) = self.roll.named(name) else {
            return Err(Refusal::Unknown);
        };
        restack_in(&mut self.groups, object.parent, object.id, up);
        Ok(())
    }

    // The object goes directly above or below another one of its layer.
    pub fn place(&mut self, name: &Name, other: &Name, above: bool) -> Result<(), Refusal>
        requires whole { IsCast self.old }
        ensures whole { IsCast self.new }
        ensures edits { Edits (board_of self.old) (edit.Place name.now other.now above) result
            (board_of self.new) }
        ensures refused { IfErr result
            (λ cause. IsLeft (kept_of self.old) cause (kept_of self.new)) }
        ensures made { self.new.roll.made ≡ self.old.roll.made }
    {
        let Some(object) = self.roll.named(name) else {
            return Err(Refusal::Unknown);
        };
        let Some(beside) = self.roll.named(other) else {
            return Err(Refusal::Unknown);
        };
        if object.id == beside.id {
            return Err(Refusal::Itself);
        }
        if object.parent != beside.parent {
            return Err(Refusal::Sibling);
        }
        if let Err(_) = place_in(&mut self.groups, object.parent, object.id, beside.id, above) {
            return Err(Refusal::Layer);
        }
        Ok(())
    }
}

// Moves a member to the top of another layer.
pub fn relayer_in(groups: &mut Groups, parent: Option<u64>, id: u64, layer: i32)
    requires there { is_in (group groups.old parent) id ≡ true }
    requires known { place parent < length groups.old }
    ensures moved { groups.new
        ≡ with_group groups.old parent (relayered (group groups.old parent) id layer) }
    ensures order { IsOrder (group groups.old parent) }
{
    let Ok(siblings) = groups.group_mut(parent) else {
        unreachable!()
    };
    let _members = siblings.len();
    let Ok(()) = siblings.relayer(id, layer) else {
        unreachable!()
    };
}

// Moves a member to the top or the bottom of its layer.
pub fn restack_in(groups: &mut Groups, parent: Option<u64>, id: u64, up: bool)
    requires there { is_in (group groups.old parent) id ≡ true }
    requires known { place parent < length groups.old }
    ensures moved { groups.new
        ≡ with_group groups.old parent
        ((if up then raised else lowered) (group groups.old parent) id) }
    ensures order { IsOrder (group groups.old parent) }
{
    let Ok(siblings) = groups.group_mut(parent) else {
        unreachable!()
    };
    let _members = siblings.len();
    let Ok(()) = (if up {
        siblings.raise(id)
    } else {
        siblings.lower(id)
    }) else {
        unreachable!()
    };
}

// Moves a member directly above or below another one.
pub fn place_in(
    groups: &mut Groups,
    parent: Option<u64>,
    id: u64,
    other: u64,
    above: bool,
) -> Result<(), StackErr>
    requires there { is_in (group groups.old parent) id ≡ true }
    requires known { place parent < length groups.old }
    ensures fault { result_err result ≡ place_fault (group groups.old parent) id other }
    ensures ok { OnOk result
        (groups.new ≡ with_group groups.old parent
        ((if above then placed_above else placed_below) (group groups.old parent) id other)) }
    ensures err { OnErr result (groups.new ≡ groups.old) }
    ensures order { IsOrder (group groups.old parent) }
{
    let Ok(siblings) = groups.group_mut(parent) else {
        unreachable!()
    };
    let _members = siblings.len();
    if above {
        siblings.above(id, other)
    } else {
        siblings.below(id, other)
    }
}

// Takes a member out.
pub fn remove_from(groups: &mut Groups, parent: Option<u64>, id: u64)
    requires there { is_in (group groups.old parent) id ≡ true }
    requires known { place parent < length groups.old }
    ensures moved { groups.new
        ≡ with_group groups.old parent (without (group groups.old parent) id) }
    ensures order { IsOrder (group groups.old parent) }
{
    let Ok(siblings) = groups.group_mut(parent) else {
        unreachable!()
    };
    let _members = siblings.len();
    let Ok(()) = siblings.remove(id) else {
        unreachable!()
    };
}
