// Edits of clippers and parents.
ghost use Rattle.std.specs.Prelude.{◌≡◌, ◌≢◌, ◌<◌, true, length, is_some, OnOk, OnErr, IfErr, Some, None};
ghost use Rattle.ev_stack.specs.LayerOrder.{layer_in, put_top};
ghost use Rattle.ev_groups.specs.Groups.{place, group, with_group};
ghost use Rattle.ev_links.specs.LinkCalls.{with_parent};
ghost use Rattle.ev_model.specs.declared.object.Object.{Object};
ghost use Rattle.ev_model.specs.declared.command.Edit.TheVariants as edit;
ghost use Rattle.ev_scene.specs.Ids.{of_id};
ghost use Rattle.ev_scene.specs.Board.{values_of, MakesAtMost};
ghost use Rattle.ev_scene.specs.Cast.{IsCast, kept_of, board_of};
ghost use Rattle.ev_scene.specs.Edits.{Edits, IsLeft, rehomed};
ghost use Rattle.ev_scene.specs.TieFaults.{refusal_of};
ghost use Rattle.ev_scene.specs.Whole.{IsWhole};

use crate::NoMemory;
use crate::cast::Cast;
use crate::change::Change;
use crate::stacking::remove_from;
use ev_groups::Groups;
use ev_links::LinkErr;
use ev_model::{Name, Refusal};

impl Cast {
    // The first object gets the second one as its clipper.
    pub fn clip(&mut self, name: &Name, clipper: &Name) -> Result<(), Refusal>
        requires whole { IsCast self.old }
        ensures whole { IsCast self.new }
        ensures edits { Edits (board_of self.old) (edit.Clip name.now clipper.now) result
            (board_of self.new) }
        ensures refused { IfErr result
            (λ cause. IsLeft (kept_of self.old) cause (kept_of self.new)) }
        ensures made { MakesAtMost 1 self.old.roll.made self.new.roll.made }
    {
        self.tell_ties();
        let Some(object) = self.roll.named(name) else {
            return Err(Refusal::Unknown);
        };
        let Some(by) = self.roll.named(clipper) else {
            return Err(Refusal::Unknown);
        };
        let (id, by) = (object.id, by.id);
        if let Some(fault) = self.links.clip_fault(id, by) {
            return Err(refusal_of(fault));
        }
        self.roll.change(id, Change::Clip(Some(by)))?;
        let Ok(()) = self.links.clip(id, by) else {
            unreachable!()
        };
        Ok(())
    }

    // The object has no clipper.
    pub fn unclip(&mut self, name: &Name) -> Result<(), Refusal>
        requires whole { IsCast self.old }
        ensures whole { IsCast self.new }
        ensures edits { Edits (board_of self.old) (edit.Unclip name.now) result
            (board_of self.new) }
        ensures refused { IfErr result
            (λ cause. IsLeft (kept_of self.old) cause (kept_of self.new)) }
        ensures made { MakesAtMost 1 self.old.roll.made self.new.roll.made }
    {
        let Some(object) = self.roll.named(name) else {
            return Err(Refusal::Unknown);
        };
        let id = object.id;
        self.roll.change(id, Change::Clip(None))?;
        let Ok(()) = self.links.unclip(id) else {
            unreachable!()
        };
        Ok(())
    }

    // The first object joins the second one, which is smart.
    pub fn join(&mut self, name: &Name, smart: &Name) -> Result<(), Refusal>
        requires whole { IsCast self.old }
        ensures whole { IsCast self.new }
        ensures edits { Edits (board_of self.old) (edit.Member name.now smart.now) result
            (board_of self.new) }
        ensures refused { IfErr result
            (λ cause. IsLeft (kept_of self.old) cause (kept_of self.new)) }
        ensures made { MakesAtMost 1 self.old.roll.made self.new.roll.made }
    {
        self.tell_ties();
        let Some(object) = self.roll.named(name) else {
            return Err(Refusal::Unknown);
        };
        let Some(parent) = self.roll.named(smart) else {
            return Err(Refusal::Unknown);
        };
        let (id, from, to) = (object.id, object.parent, parent.id);
        if let Some(fault) = self.links.join_fault(id, to) {
            return Err(refusal_of(fault));
        }
        if from == Some(to) {
            return Ok(());
        }
        self.rehome(id, Some(to))?;
        let Ok(()) = self.links.join(id, to) else {
            unreachable!()
        };
        Ok(())
    }

    // The object stands in no other one.
    pub fn leave(&mut self, name: &Name) -> Result<(), Refusal>
        requires whole { IsCast self.old }
        ensures whole { IsCast self.new }
        ensures edits { Edits (board_of self.old) (edit.Free name.now) result (board_of self.new) }
        ensures refused { IfErr result
            (λ cause. IsLeft (kept_of self.old) cause (kept_of self.new)) }
        ensures made { MakesAtMost 1 self.old.roll.made self.new.roll.made }
    {
        self.tell_ties();
        let Some(object) = self.roll.named(name) else {
            return Err(Refusal::Unknown);
        };
        let (id, from) = (object.id, object.parent);
        if let Some(fault) = self.links.leave_fault(id) {
            return Err(refusal_of(fault));
        }
        if from.is_none() {
            return Ok(());
        }
        self.rehome(id, None)?;
        let Ok(()) = self.links.leave(id) else {
            unreachable!()
        };
        Ok(())
    }

    // An object goes from its parent to the top of its layer in another one. Its ties stay as they were.
    fn rehome(&mut self, id: u64, to: Option<u64>) -> Result<(), NoMemory>
        requires whole { IsCast self.old }
        requires there { is_some (of_id (values_of self.old.roll.states) id) ≡ true }
        requires other { (o : Object) → of_id (values_of self.old.roll.states) id ≡ Some o
            → place o.parent ≢ place to }
        requires known { place to < length self.old.groups }
        ensures ok { OnOk result ((o : Object) → of_id (values_of self.old.roll.states) id ≡ Some o
            → board_of self.new ≡ rehomed to (board_of self.old) o) }
        ensures whole { OnOk result
            (IsWhole (board_of self.new) (with_parent self.old.links id to)) }
        ensures err { OnErr result
            (kept_of self.new ≡ record (kept_of self.old) { made = self.new.roll.made }) }
        ensures links { self.new.links ≡ self.old.links }
        ensures made { MakesAtMost 1 self.old.roll.made self.new.roll.made }
    {
        let Some(object) = self.roll.object(id) else {
            unreachable!()
        };
        let (from, layer) = (object.parent, object.layer);
        push_into(&mut self.groups, to, id, layer)?;
        if let Err(cause) = self.roll.change(id, Change::Parent(to)) {
            remove_from(&mut self.groups, to, id);
            return Err(cause);
        }
        remove_from(&mut self.groups, from, id);
        Ok(())
    }
}

// Puts an object on top of its layer in a parent.
fn push_into(groups: &mut Groups, parent: Option<u64>, id: u64, layer: i32) -> Result<(), NoMemory>
    requires serial { id ≢ 0 }
    requires fresh { layer_in (group groups.old parent) id ≡ None }
    requires known { place parent < length groups.old }
    ensures ok { OnOk result
        (groups.new ≡ with_group groups.old parent (put_top (group groups.old parent) id layer)) }
    ensures err { OnErr result (groups.new ≡ groups.old) }
{
    groups.group_mut(parent)?.push_top(id, layer)
}

// The same cause, told of an edit.
fn refusal_of(cause: LinkErr) -> Refusal
    ensures { result ≡ refusal_of cause }
{
    match cause {
        LinkErr::Unknown => Refusal::Unknown,
        LinkErr::Itself => Refusal::Itself,
        LinkErr::Kind => Refusal::Kind,
        LinkErr::Sibling => Refusal::Sibling,
        LinkErr::Cycle => Refusal::Cycle,
        LinkErr::Clipping => Refusal::Clipping,
    }
}
