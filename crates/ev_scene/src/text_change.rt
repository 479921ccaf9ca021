// What a text object says, and by which font.
ghost use Rattle.std.specs.Prelude.{◌≡◌, IfErr};
ghost use Rattle.ev_model.specs.Glyphs.{IsText};
ghost use Rattle.ev_model.specs.declared.command.Edit.TheVariants as edit;
ghost use Rattle.ev_scene.specs.Board.{MakesAtMost};
ghost use Rattle.ev_scene.specs.Cast.{IsCast, kept_of, board_of};
ghost use Rattle.ev_scene.specs.Change.{change_text_part, change_text};
ghost use Rattle.ev_scene.specs.Edits.{Edits, IsLeft};

use crate::cast::Cast;
use crate::change::Change;
use ev_model::{Content, LoadedFont, Name, Refusal, TextPart, Words};

// A change of the text or of its font. The text keeps the limits of texts.
#[derive(Drop)]
pub enum TextChange {
    Font(Name),
    Load(LoadedFont),
    Say(Words),
}

// Changes what a content says, if it is that of a text object.
pub fn change_text(change: TextChange, content: &mut Content)
    ensures { content.new ≡ change_text change content.old }
{
    match content {
        Content::Text(part) => change_text_part(change, part),
        _ => {}
    }
}

fn change_text_part(change: TextChange, part: &mut TextPart)
    ensures { part.new ≡ change_text_part change part.old }
{
    match change {
        TextChange::Font(key) => {
            part.key = Some(key);
            part.loaded = None;
        }
        TextChange::Load(loaded) => part.loaded = Some(loaded),
        TextChange::Say(text) => part.text = text,
    }
}

impl Cast {
    // The text object gets this text.
    pub fn say(&mut self, name: &Name, text: &[u8]) -> Result<(), Refusal>
        requires whole { IsCast self.old }
        requires text { IsText text.now }
        ensures whole { IsCast self.new }
        ensures edits { Edits (board_of self.old) (edit.Say name.now text.entry) result
            (board_of self.new) }
        ensures refused { IfErr result
            (λ cause. IsLeft (kept_of self.old) cause (kept_of self.new)) }
        ensures made { MakesAtMost 1 self.old.roll.made self.new.roll.made }
    {
        let Some(object) = self.roll.named(name) else {
            return Err(Refusal::Unknown);
        };
        if !matches!(object.content, Content::Text(_)) {
            return Err(Refusal::Kind);
        }
        let id = object.id;
        let words = Words::new(self.roll.alloc(), text)?;
        self.roll.change(id, Change::Text(TextChange::Say(words)))?;
        Ok(())
    }
}
