// A scene that edits change.
ghost use Rattle.std.specs.Prelude.{◌≡◌, [], ◌∷◌, IfOk, IfErr, IfSome, OnOk, OnErr, option_map, option_and_then, Some, false};
ghost use Rattle.std.specs.Arc.{arc_value};
ghost use Rattle.ev_model.specs.Content.{kind_of};
ghost use Rattle.ev_model.specs.Limits.{IsEdit};
ghost use Rattle.ev_scene.specs.Ids.{of_id, put};
ghost use Rattle.ev_scene.specs.Board.{board, named, MakesAtMost};
ghost use Rattle.ev_scene.specs.Edits.{Edits, IsLeft, writes};
ghost use Rattle.ev_scene.specs.Kinds.{KeepsKinds, LeavesKinds, is_delete};
ghost use Rattle.ev_scene.specs.ObjectLoads.{key_of, with_image, with_font};

use crate::NoMemory;
use crate::cast::Cast;
use crate::loads::key_of;
use ev_model::{Edit, Font, Image, Kind, Name, Refusal};
use std::alloc::Global;
use std::marker::Model;
use std::sync::Arc;

/// A canvas and the objects on it, as edits change them (docs/CANVAS.md, "Objects").
#[derive(Drop)]
pub struct SceneBox {
    pub(crate) cast: Cast,
}

impl Model for SceneBox {
    ghost use Rattle.ev_scene.specs.Board.{Kept};
    ghost use Rattle.ev_scene.specs.Cast.{IsCast, kept_of};

    ghost Value = { Kept };

    ghost view = { λ s. kept_of s.cast };

    ghost invariant = { λ s. IsCast s.cast };
}

impl SceneBox {
    /// A canvas of 320 by 240 pixels without objects.
    pub fn new(alloc: Global) -> Result<SceneBox, NoMemory>
        ensures { IfOk result
            (λ s. s ≡ record { w = 320; h = 240; made = 0; states = []; groups = [] ∷ [] }) }
    {
        Ok(SceneBox {
            cast: Cast::new(alloc),
        })
    }

    /// The id of the object of a name. None exactly where there is none.
    pub fn find(&self, name: &Name) -> Option<u64>
        ensures value { result ≡ option_map (λ o. o.id) (named (board self.now).objects name.now) }
        ensures there { IfSome result (λ id. of_id (board self.now).objects id
            ≡ named (board self.now).objects name.now) }
    {
        match self.cast.roll.named(name) {
            Some(object) => Some(object.id),
            None => None,
        }
    }

    /// The kind of the object of an id. None exactly where there is none.
    pub fn kind_of(&self, id: u64) -> Option<Kind>
        ensures { result ≡ option_map (λ o. kind_of o.content) (of_id (board self.now).objects id) }
    {
        match self.cast.roll.object(id) {
            Some(object) => Some(object.content.kind()),
            None => None,
        }
    }

    /// The file that a load of the object of an id fetches. None exactly where there is no such
    /// object or it has no file; rectangles and smart objects never have one.
    pub fn key_of(&self, id: u64) -> Option<Name>
        ensures { result ≡ option_and_then (λ o. key_of o.content)
            (of_id (board self.now).objects id) }
    {
        match self.cast.roll.object(id) {
            Some(object) => key_of(&object.content),
            None => None,
        }
    }

    /// Carries out an edit, or refuses it and leaves the scene as it was, its states included
    /// (docs/SCRIPT.md, "Commands"). An edit takes all its memory before it changes anything: where
    /// memory is wanting, the states that it made by then count as made, and are gone. Only `delete`
    /// takes objects away, and none changes a kind.
    pub fn edit(&mut self, edit: &Edit) -> Result<(), Refusal>
        requires text { IsEdit edit.now }
        ensures edits { Edits (board self.old) edit.now result (board self.new) }
        ensures refused { IfErr result (λ cause. IsLeft self.old cause self.new) }
        ensures leaves { LeavesKinds (board self.old) (board self.new) }
        ensures keeps { is_delete edit.now ≡ false → KeepsKinds (board self.old) (board self.new) }
        ensures made { MakesAtMost (writes (board self.old) edit.now) self.old.made self.new.made }
    {
        self.cast.edit(edit)
    }

    /// The image object of an id gets the pixels that the load of this number gave. `NoMemory`
    /// where there is no room for a copy of its state; then the scene stays as it was.
    pub fn set_image(
        &mut self,
        id: u64,
        number: u64,
        image: Arc<Image, Global>,
    ) -> Result<(), NoMemory>
        requires { option_map (λ o. kind_of o.content) (of_id (board self.old).objects id)
            ≡ Some Kind.Image }
        ensures ok { OnOk result
            (board self.new ≡ with_image (board self.old) id number (arc_value image)) }
        ensures alone { OnOk result
            (self.new.states ≡ put self.old.states id (of_id self.new.states id)) }
        ensures err { OnErr result (self.new ≡ record self.old { made = self.new.made }) }
        ensures made { MakesAtMost 1 self.old.made self.new.made }
    {
        self.cast.set_image(id, number, image)
    }

    /// The text object of an id gets the font that the load of this number gave. `NoMemory`
    /// where there is no room for a copy of its state; then the scene stays as it was.
    pub fn set_font(
        &mut self,
        id: u64,
        number: u64,
        font: Arc<Font, Global>,
    ) -> Result<(), NoMemory>
        requires { option_map (λ o. kind_of o.content) (of_id (board self.old).objects id)
            ≡ Some Kind.Text }
        ensures ok { OnOk result
            (board self.new ≡ with_font (board self.old) id number (arc_value font)) }
        ensures alone { OnOk result
            (self.new.states ≡ put self.old.states id (of_id self.new.states id)) }
        ensures err { OnErr result (self.new ≡ record self.old { made = self.new.made }) }
        ensures made { MakesAtMost 1 self.old.made self.new.made }
    {
        self.cast.set_font(id, number, font)
    }

    /// How many states of objects were made, copies included.
    pub fn made(&self) -> u64
        ensures { result ≡ self.now.made }
    {
        self.cast.roll.made()
    }
}
