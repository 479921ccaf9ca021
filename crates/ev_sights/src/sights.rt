// What is seen of objects that may have others over them. What an object leaves to those below it is
// found once, and remembered.
ghost use Rattle.std.specs.Prelude.{◌≡◌, ◌≤◌, ℕ, ◌++◌, IfOk, OnOk, All, map, option_map, option_to_list, []};
ghost use Rattle.ev_model.specs.Capture.{IsLookOn};
ghost use Rattle.ev_model.specs.Limits.{IsObject};
ghost use Rattle.ev_model.specs.Look.{look_of, look, looks};
ghost use Rattle.ev_model.specs.Stage.{values};
ghost use Rattle.ev_model.specs.Up.{cut};
ghost use Rattle.ev_sights.specs.Sights.{HasObjects, HaveEnds, over, way, Ends, tinted, is_white, IsColor, TintsAs, IsSight, bare, lowered, AreSights, IsClimbed, stage_on, IsGround, look_as};

use crate::NoMemory;
use crate::ground::{Ground, clippers};
use ev_argb::{Pixel, tint};
use ev_geom::Rect;
use ev_model::{Object, Objects, Record};
use ev_slots::Slots;
use ev_state::Shared;
use std::alloc::Global;
use std::collections::HashMap;

// What the objects from one on up its way leave to those below: the pixels of the canvas, whether
// all are visible, and the first of them that tints, if any does.
#[derive(Clone, Copy)]
struct Sight {
    area: Rect,
    shown: bool,
    tinted: Option<u64>,
}

// What is seen of an object.
#[derive(Clone, Copy)]
struct Seen {
    area: Rect,
    color: Pixel,
}

/// The records of a scene of w by h pixels: what is seen of its objects, in the order in which they
/// stand (docs/CANVAS.md, "Painting"). The same objects have their states by their ids in `slots`, and
/// the way up of each comes to an end. Where the objects keep their limits, each record's area lies on
/// the canvas and has pixels. It costs a step for each object, however deep they stand. `NoMemory`
/// where there is no room.
pub fn records(
    alloc: Global,
    w: u32,
    h: u32,
    slots: &Slots<Shared<Object>>,
    objects: &Objects,
) -> Result<Vec<Record>, NoMemory>
    requires width { w ≤ 4096 }
    requires height { h ≤ 4096 }
    requires found { HasObjects slots.now.slots (values objects.now) }
    requires ways { HaveEnds (values objects.now) }
    ensures looks { IfOk result (λ records. map look_of records.items
        ≡ looks (record { w = w; h = h; objects = values objects.now })) }
    ensures on_canvas { All IsObject (values objects.now)
        → IfOk result (λ records. All (λ r. IsLookOn w h (look_of r)) records.items) }
{
    let ground = Ground {
        alloc,
        w,
        h,
        slots,
        objects,
        clippers: clippers(alloc, objects)?,
    };
    let mut known = HashMap::new(alloc);
    let mut records = Vec::with_capacity(alloc, objects.as_slice().len())?;
    for state in objects.as_slice() {
        push_record(&ground, &mut known, &mut records, state)?;
    }
    Ok(records)
}

// Adds the record of an object, if anything is seen of it.
fn push_record(
    ground: &Ground<'_>,
    known: &mut HashMap<u64, Sight>,
    records: &mut Vec<Record>,
    state: &Shared<Object>,
) -> Result<(), NoMemory>
    requires ground { IsGround ground.now }
    requires known { AreSights (stage_on ground.now) known.old }
    requires ends { Ends (values ground.now.objects.now) (over state.now.value) }
    ensures records { OnOk result (map look_of records.new.items ≡ map look_of records.old.items ++ option_to_list (look (stage_on ground.now) state.now.value)) }
    ensures known { OnOk result (AreSights (stage_on ground.now) known.new) }
{
    let object = state.get();
    if let Some(seen) = look(ground, known, object)? {
        records.push(Record {
            id: object.id,
            area: seen.area,
            color: seen.color,
            object: state.share()?,
        })?;
    }
    Ok(())
}

// What is seen of an object, if anything is.
fn look(
    ground: &Ground<'_>,
    known: &mut HashMap<u64, Sight>,
    object: &Object,
) -> Result<Option<Seen>, NoMemory>
    requires ground { IsGround ground.now }
    requires known { AreSights (stage_on ground.now) known.old }
    requires ends { Ends (values ground.now.objects.now) (over object.now) }
    ensures look { IfOk result (λ seen. option_map (look_as object.now) seen ≡ look (stage_on ground.now) object.now) }
    ensures known { OnOk result (AreSights (stage_on ground.now) known.new) }
{
    if object.is_smart() || ground.clips(object.id) {
        return Ok(None);
    }
    let sight = sight_from(ground, known, object.clipper.or(object.parent))?;
    let area = sight.area.meet(&object.rect);
    if object.shown && sight.shown && !area.is_empty() {
        let color = tinted(ground, known, object.color, sight.tinted);
        Ok(Some(Seen { area, color }))
    } else {
        Ok(None)
    }
}

// The sight of the way from an id on. It is remembered, as are those that are found for it.
fn sight_from(
    ground: &Ground<'_>,
    known: &mut HashMap<u64, Sight>,
    at: Option<u64>,
) -> Result<Sight, NoMemory>
    requires ground { IsGround ground.now }
    requires known { AreSights (stage_on ground.now) known.old }
    requires ends { Ends (values ground.now.objects.now) at }
    ensures sight { IfOk result (λ sight. IsSight (stage_on ground.now) at sight) }
    ensures known { OnOk result (AreSights (stage_on ground.now) known.new) }
{
    let mut ids = Vec::new(ground.alloc);
    let mut sight = climb(ground, known, at, &mut ids)?;
    while let Some(id) = ids.pop() {
        if let Some(object) = ground.object(id) {
            sight = lowered(&sight, id, object);
            known.insert(id, sight)?;
        }
    }
    Ok(sight)
}

// Puts the ids of a way into a list, up to where its sight is known. Gives the sight from there on.
fn climb(
    ground: &Ground<'_>,
    known: &HashMap<u64, Sight>,
    first: Option<u64>,
    ids: &mut Vec<u64>,
) -> Result<Sight, NoMemory>
    requires ground { IsGround ground.now }
    requires known { AreSights (stage_on ground.now) known.now }
    requires ends { Ends (values ground.now.objects.now) first }
    requires none { ids.old.items ≡ [] }
    ensures { IfOk result (λ sight. IsClimbed (stage_on ground.now) first ids.new.items sight) }
{
    let mut at = first;
    while let Some(id) = at {
        if let Some(sight) = known.get(&id) {
            return Ok(*sight);
        }
        let Some(object) = ground.object(id) else {
            return Ok(bare(ground));
        };
        ids.push(id)?;
        at = object.clipper.or(object.parent);
    }
    Ok(bare(ground))
}

// The sight of a way that is longer by the object of this id.
fn lowered(sight: &Sight, id: u64, object: &Object) -> Sight
    ensures { result ≡ lowered sight.now id object.now }
{
    Sight {
        area: cut(&sight.area, object),
        shown: object.shown && sight.shown,
        tinted: if is_white(object.color) {
            sight.tinted
        } else {
            Some(id)
        },
    }
}

fn cut(area: &Rect, u: &Object) -> Rect
    ensures { result ≡ cut area.now u.now }
{
    if u.is_smart() {
        *area
    } else {
        area.meet(&u.rect)
    }
}

// A colour, tinted by all objects from an id on.
fn tinted(
    ground: &Ground<'_>,
    known: &HashMap<u64, Sight>,
    color: Pixel,
    first: Option<u64>,
) -> Pixel
    requires ground { IsGround ground.now }
    requires known { AreSights (stage_on ground.now) known.now }
    requires ends { Ends (values ground.now.objects.now) first }
    ensures color { result ≡ tinted color (way (values ground.now.objects.now) first) }
    ensures bytes { IsColor color }
{
    let mut color = in_bytes(color);
    let mut at = first;
    while let Some(id) = at {
        let Some(object) = ground.object(id) else {
            return color;
        };
        color = in_bytes(tint(color, object.color));
        at = next_tinted(ground, known, object.clipper.or(object.parent));
    }
    color
}

// From where on a way tints.
fn next_tinted(ground: &Ground<'_>, known: &HashMap<u64, Sight>, at: Option<u64>) -> Option<u64>
    requires known { AreSights (stage_on ground.now) known.now }
    requires ends { Ends (values ground.now.objects.now) at }
    ensures { TintsAs (values ground.now.objects.now) at result }
{
    match known.get(&at?) {
        Some(sight) => sight.tinted,
        None => at,
    }
}

// The same colour, whose channels are known to be bytes.
fn in_bytes(color: Pixel) -> Pixel
    ensures same { result ≡ color }
    ensures bytes { IsColor color }
{
    let _channels = [color.a(), color.r(), color.g(), color.b()];
    color
}

fn is_white(color: Pixel) -> bool
    ensures { result ≡ is_white color }
{
    color.a() == 255 && color.r() == 255 && color.g() == 255 && color.b() == 255
}

// The sight of a way without objects.
fn bare(ground: &Ground<'_>) -> Sight
    requires { IsGround ground.now }
    ensures { result ≡ bare (stage_on ground.now) }
{
    Sight {
        area: Rect::at_origin(ground.w, ground.h),
        shown: true,
        tinted: None,
    }
}
