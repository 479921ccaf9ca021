// What is seen of one object, found by its way up.
ghost use Rattle.std.specs.Prelude.{◌≡◌, IfOk, Some, option_copied};
ghost use Rattle.std.specs.List.{list_any};
ghost use Rattle.ev_model.specs.Look.{look};
ghost use Rattle.ev_model.specs.Up.{with_id, cut, is_clipped_by};
ghost use Rattle.ev_records.specs.Cells.{look_in};
ghost use Rattle.ev_looks.specs.WaysUp.{lowered, IsSight};
ghost use Rattle.ev_looks.specs.Grounds.{IsGround, stage_on};

use crate::NoMemory;
use ev_argb::{Pixel, tint};
use ev_geom::Rect;
use ev_links::Links;
use ev_model::{Object, Record};
use ev_state::Shared;
use ev_track::Tracked;

// What looks are found by: the size of the canvas, the objects, and what clips and holds them.
#[derive(Drop)]
pub struct Ground<'a> {
    pub(crate) w: u32,
    pub(crate) h: u32,
    pub(crate) objects: &'a Tracked<Object>,
    pub(crate) links: &'a Links,
}

// What is left of an object by those over it, as far as its way up was gone: its pixels, the colour
// that tints it, and whether all so far are visible.
#[derive(Clone, Copy)]
struct Sight {
    area: Rect,
    color: Pixel,
    shown: bool,
}

impl Ground<'_> {
    // The record of an object, if anything is seen of it.
    pub(crate) fn record(&self, state: &Shared<Object>) -> Result<Option<Record>, NoMemory>
        requires ground { IsGround self.now }
        requires there { with_id (stage_on self.now).objects state.now.value.id
            ≡ Some state.now.value }
        ensures { IfOk result (λ one. look_in one ≡ look (stage_on self.now) state.now.value) }
    {
        let object = state.get();
        if object.is_smart() || self.clips(object.id) {
            return Ok(None);
        }
        let sight = self.sight(object);
        if !sight.shown || sight.area.is_empty() {
            return Ok(None);
        }
        Ok(Some(Record {
            id: object.id,
            area: sight.area,
            color: sight.color,
            object: state.share()?,
        }))
    }

    // What all objects over this one leave of it.
    fn sight(&self, object: &Object) -> Sight
        requires ground { IsGround self.now }
        requires there { with_id (stage_on self.now).objects object.now.id ≡ Some object.now }
        ensures { IsSight (stage_on self.now) object.now result }
    {
        let mut sight = Sight {
            area: cut(&Rect::at_origin(self.w, self.h), object),
            color: object.color,
            shown: object.shown,
        };
        let mut at = object.clipper.or(object.parent);
        while let Some(id) = at {
            let Some(over) = self.object(id) else {
                return sight;
            };
            sight = lowered(&sight, over);
            at = over.clipper.or(over.parent);
        }
        sight
    }

    // The object of an id.
    fn object(&self, id: u64) -> Option<&Object>
        requires { IsGround self.now }
        ensures { option_copied result ≡ with_id (stage_on self.now).objects id }
    {
        match self.objects.get(id) {
            Some(state) => Some(state.get()),
            None => None,
        }
    }

    // Whether the object of this id clips another.
    pub(crate) fn clips(&self, id: u64) -> bool
        requires { IsGround self.now }
        ensures { result ≡ list_any (is_clipped_by id) (stage_on self.now).objects }
    {
        self.links.below_of(id) > 0
    }
}

// A sight after one more object on the way.
fn lowered(sight: &Sight, u: &Object) -> Sight
    ensures { result ≡ lowered sight.now u.now }
{
    Sight {
        area: cut(&sight.area, u),
        color: tint(sight.color, u.color),
        shown: sight.shown && u.shown,
    }
}

// An area, cut by an object that isn't smart.
fn cut(area: &Rect, u: &Object) -> Rect
    ensures { result ≡ cut area.now u.now }
{
    if u.is_smart() {
        *area
    } else {
        area.meet(&u.rect)
    }
}
