// What loads of objects fetch and give.
ghost use Rattle.std.specs.Prelude.{◌≡◌, Some, OnOk, OnErr, option_map};
ghost use Rattle.std.specs.Arc.{arc_value};
ghost use Rattle.ev_model.specs.Content.{kind_of};
ghost use Rattle.ev_scene.specs.Ids.{of_id, put};
ghost use Rattle.ev_scene.specs.Board.{values_of, MakesAtMost};
ghost use Rattle.ev_scene.specs.Cast.{IsCast, board_of, kept_of};
ghost use Rattle.ev_scene.specs.ObjectLoads.{key_of, with_image, with_font};

use crate::NoMemory;
use crate::cast::Cast;
use crate::change::Change;
use crate::image_change::ImageChange;
use crate::text_change::TextChange;
use ev_model::{Content, Font, Image, Kind, LoadedFont, LoadedImage, Name};
use std::alloc::Global;
use std::sync::Arc;

// The file that a load fetches, if there is one.
pub fn key_of(content: &Content) -> Option<Name>
    ensures { result ≡ key_of content.now }
{
    match content {
        Content::Rect | Content::Smart => None,
        Content::Image(part) => part.key,
        Content::Text(part) => part.key,
    }
}

impl Cast {
    // The image object of an id gets the pixels of the load of this number.
    pub fn set_image(
        &mut self,
        id: u64,
        number: u64,
        image: Arc<Image, Global>,
    ) -> Result<(), NoMemory>
        requires whole { IsCast self.old }
        requires kind { option_map (λ o. kind_of o.content)
            (of_id (values_of self.old.roll.states) id) ≡ Some Kind.Image }
        ensures whole { IsCast self.new }
        ensures ok { OnOk result
            (board_of self.new ≡ with_image (board_of self.old) id number (arc_value image)) }
        ensures alone { OnOk result
            (self.new.roll.states ≡ put self.old.roll.states id (of_id self.new.roll.states id)) }
        ensures err { OnErr result
            (kept_of self.new ≡ record (kept_of self.old) { made = self.new.roll.made }) }
        ensures made { MakesAtMost 1 self.old.roll.made self.new.roll.made }
    {
        let loaded = LoadedImage::new(number, image);
        self.roll
            .change(id, Change::Image(ImageChange::Load(loaded)))?;
        Ok(())
    }

    // The text object of an id gets the font of the load of this number.
    pub fn set_font(
        &mut self,
        id: u64,
        number: u64,
        font: Arc<Font, Global>,
    ) -> Result<(), NoMemory>
        requires whole { IsCast self.old }
        requires kind { option_map (λ o. kind_of o.content)
            (of_id (values_of self.old.roll.states) id) ≡ Some Kind.Text }
        ensures whole { IsCast self.new }
        ensures ok { OnOk result
            (board_of self.new ≡ with_font (board_of self.old) id number (arc_value font)) }
        ensures alone { OnOk result
            (self.new.roll.states ≡ put self.old.roll.states id (of_id self.new.roll.states id)) }
        ensures err { OnErr result
            (kept_of self.new ≡ record (kept_of self.old) { made = self.new.roll.made }) }
        ensures made { MakesAtMost 1 self.old.roll.made self.new.roll.made }
    {
        let loaded = LoadedFont::new(number, font);
        self.roll
            .change(id, Change::Text(TextChange::Load(loaded)))?;
        Ok(())
    }
}
