// Edits of a scene.
ghost use Rattle.std.specs.Prelude.{◌≡◌, ℕ, true, is_some, IfSome, OnOk, IfErr, None, if◌then◌else◌};
ghost use Rattle.std.specs.Option.{ForSome};
ghost use Rattle.ev_model.specs.Limits.{IsEdit};
ghost use Rattle.ev_model.specs.declared.command.Edit.TheVariants as edit;
ghost use Rattle.ev_scene.specs.Board.{MakesAtMost};
ghost use Rattle.ev_scene.specs.Cast.{IsCast, kept_of, board_of};
ghost use Rattle.ev_scene.specs.Change.{IsLook};
ghost use Rattle.ev_scene.specs.Edits.{known, look_verdict, with_named, changed, Refuses, Edits, IsLeft, writes};

use crate::cast::Cast;
use crate::change::{Change, Target, color, fresh, is_between, resize};
use crate::image_change::{ImageChange, border, fill};
use crate::text_change::TextChange;
use ev_model::{Edit, Fill, Kind, Name, Refusal};

/// How many objects may be there at a time.
pub const MAX_OBJECTS: usize = 65_536;

impl Cast {
    // Carries out an edit.
    pub fn edit(&mut self, edit: &Edit) -> Result<(), Refusal>
        requires whole { IsCast self.old }
        requires text { IsEdit edit.now }
        ensures whole { IsCast self.new }
        ensures edits { Edits (board_of self.old) edit.now result (board_of self.new) }
        ensures refused { IfErr result
            (λ cause. IsLeft (kept_of self.old) cause (kept_of self.new)) }
        ensures made { MakesAtMost (writes (board_of self.old) edit.now)
            self.old.roll.made self.new.roll.made }
    {
        match edit {
            Edit::Size { w, h } => self.resize_canvas(*w, *h),
            Edit::Make { name, kind } => self.make(name, *kind),
            Edit::Delete { name } => self.delete(name),
            Edit::Move { name, x, y } => self.shift(name, *x, *y),
            Edit::Resize { name, w, h } => self.change(name, Target::Any, resize(*w, *h)),
            Edit::Show { name, on } => { self.change(name, Target::Any, Some(Change::Show(*on))) }
            Edit::Color { name, r, g, b, a } => {
                self.change(name, Target::Any, color(*r, *g, *b, *a))
            }
            Edit::SetOp { name, op } => {
                self.change(name, Target::Painted, Some(Change::Op(*op)))
            }
            Edit::Layer { name, layer } => self.relayer(name, *layer),
            Edit::Raise { name, up } => self.restack(name, *up),
            Edit::Place { name, other, above } => self.place(name, other, *above),
            Edit::Clip { name, clipper } => self.clip(name, clipper),
            Edit::Unclip { name } => self.unclip(name),
            Edit::Member { name, smart } => self.join(name, smart),
            Edit::Free { name } => self.leave(name),
            Edit::File { name, key } => {
                self.change(
                    name,
                    Target::Image,
                    Some(Change::Image(ImageChange::File(*key))),
                )
            }
            Edit::Font { name, key } => {
                self.change(
                    name,
                    Target::Text,
                    Some(Change::Text(TextChange::Font(*key))),
                )
            }
            Edit::Say { name, text } => self.say(name, text),
            Edit::Fill { name, x, y, w, h } => {
                self.change(name, Target::Image, fill(*x, *y, *w, *h))
            }
            Edit::Filled { name } => self.change(
                name,
                Target::Image,
                Some(Change::Image(ImageChange::Fill(Fill::Filled))),
            ),
            Edit::Border { name, l, r, t, b } => {
                self.change(name, Target::Image, border(*l, *r, *t, *b))
            }
            Edit::Center { name, on } => {
                self.change(
                    name,
                    Target::Image,
                    Some(Change::Image(ImageChange::Center(*on))),
                )
            }
        }
    }

    // The canvas gets this size.
    fn resize_canvas(&mut self, w: i64, h: i64) -> Result<(), Refusal>
        requires whole { IsCast self.old }
        ensures whole { IsCast self.new }
        ensures edits { Edits (board_of self.old) (edit.Size w h) result (board_of self.new) }
        ensures refused { IfErr result
            (λ cause. IsLeft (kept_of self.old) cause (kept_of self.new)) }
        ensures made { self.new.roll.made ≡ self.old.roll.made }
    {
        if !is_between(1, 4096, w) || !is_between(1, 4096, h) {
            return Err(Refusal::Range);
        }
        self.w = w as u32;
        self.h = h as u32;
        Ok(())
    }

    // A new object on top of layer 0.
    fn make(&mut self, name: &Name, kind: Kind) -> Result<(), Refusal>
        requires whole { IsCast self.old }
        ensures whole { IsCast self.new }
        ensures edits { Edits (board_of self.old) (edit.Make name.now kind) result
            (board_of self.new) }
        ensures refused { IfErr result
            (λ cause. IsLeft (kept_of self.old) cause (kept_of self.new)) }
        ensures made { MakesAtMost 1 self.old.roll.made self.new.roll.made }
    {
        if self.roll.named(name).is_some() {
            return Err(Refusal::Exists);
        }
        if self.roll.len() >= MAX_OBJECTS {
            return Err(Refusal::Full);
        }
        let id = self.roll.next_id();
        self.tell_ties();
        self.roll.reserve()?;
        let object = fresh(self.roll.alloc(), id, *name, kind)?;
        let state = self.roll.make(object)?;
        self.links.add(id, kind)?;
        if let Err(_) = self.groups.add(0) {
            let Ok(()) = self.links.drop_id(id) else {
                unreachable!()
            };
            return Err(Refusal::NoMemory);
        }
        self.roll.add(state);
        Ok(())
    }

    // Changes how an object looks, if it is one that the change is for. No change stands for
    // numbers out of range.
    fn change(&mut self, name: &Name, target: Target, change: Option<Change>) -> Result<(), Refusal>
        requires whole { IsCast self.old }
        requires look { ForSome change IsLook }
        ensures whole { IsCast self.new }
        ensures ok { OnOk result
            ((known (board_of self.old) name.now (look_verdict target (is_some change)) ≡ None)
            × IfSome change (λ c. board_of self.new
            ≡ with_named (board_of self.old) name.now (changed c (board_of self.old)))) }
        ensures err { IfErr result (λ cause. Refuses
            (known (board_of self.old) name.now (look_verdict target (is_some change))) cause
            × (board_of self.new ≡ board_of self.old)) }
        ensures refused { IfErr result
            (λ cause. IsLeft (kept_of self.old) cause (kept_of self.new)) }
        ensures made { MakesAtMost 1 self.old.roll.made self.new.roll.made }
    {
        let Some(object) = self.roll.named(name) else {
            return Err(Refusal::Unknown);
        };
        if !target.has(object) {
            return Err(Refusal::Kind);
        }
        let id = object.id;
        let Some(change) = change else {
            return Err(Refusal::Range);
        };
        self.roll.change(id, change)?;
        Ok(())
    }
}
