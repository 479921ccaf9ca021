// The areas of the places that changed.
ghost use Rattle.std.specs.Prelude.{◌≡◌, ◌<◌, ◌++◌, ◌∷◌, [], length, IfOk, OnOk, Some};
ghost use Rattle.ev_model.specs.Look.{look_of};
ghost use Rattle.ev_records.specs.Cells.{look_in, present_at, places_of, shown, AreTied};
ghost use Rattle.ev_records.specs.Changes.{is_same, changed, changes};

use crate::NoMemory;
use crate::cell::{Cell, Former};
use ev_damage::same_look;
use ev_geom::Rect;
use ev_model::Record;
use std::alloc::Global;

// The areas of the records that places have now and had at the start before, unless they are equal.
pub(crate) fn changed_areas(
    alloc: Global,
    formers: &[Former],
    cells: &[Cell],
) -> Result<Vec<Rect>, NoMemory>
    requires tied { AreTied formers.now cells.now }
    ensures { IfOk result (λ areas. areas.items ≡ changes (shown formers.now cells.now) (places_of formers.now)) }
{
    let mut areas = Vec::new(alloc);
    for i in 0..formers.len() {
        push_changed(&mut areas, &formers[i], cells)?;
    }
    Ok(areas)
}

// Adds those of one place.
fn push_changed(areas: &mut Vec<Rect>, former: &Former, cells: &[Cell]) -> Result<(), NoMemory>
    requires { former.now.place < length cells.now }
    ensures { OnOk result (areas.new.items ≡ areas.old.items ++ changed (look_in former.now.was) (look_in (present_at cells.now former.now.place))) }
{
    push_between(areas, &former.was, &cells[former.place].present)
}

// Adds the areas of two records, each of which may be missing, unless they are equal and of one object.
fn push_between(
    areas: &mut Vec<Rect>,
    was: &Option<Record>,
    now: &Option<Record>,
) -> Result<(), NoMemory>
    ensures { OnOk result (areas.new.items ≡ areas.old.items ++ changed (look_in was.now) (look_in now.now)) }
{
    match (was, now) {
        (Some(one), Some(other)) => push_unless_same(areas, one, other),
        (Some(one), None) | (None, Some(one)) => push(areas, &one.area),
        (None, None) => Ok(()),
    }
}

fn push(areas: &mut Vec<Rect>, area: &Rect) -> Result<(), NoMemory>
    ensures { OnOk result (areas.new.items ≡ areas.old.items ++ area.now ∷ []) }
{
    areas.push(*area)?;
    Ok(())
}

// Adds the areas of two records, unless they are equal and of one object.
fn push_unless_same(areas: &mut Vec<Rect>, one: &Record, other: &Record) -> Result<(), NoMemory>
    ensures { OnOk result (areas.new.items ≡ areas.old.items ++ changed (Some (look_of one.now)) (Some (look_of other.now))) }
{
    if !is_same(one, other) {
        areas.push(one.area)?;
        areas.push(other.area)?;
    }
    Ok(())
}

// Whether two records are equal and of one object.
pub(crate) fn is_same(one: &Record, other: &Record) -> bool
    ensures { result ≡ is_same (look_of one.now) (look_of other.now) }
{
    other.id == one.id && same_look(one, other)
}
