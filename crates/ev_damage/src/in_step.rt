// The damage between two lists with the same ids in the same order.
ghost use Rattle.std.specs.Prelude.{◌≡◌, ◌++◌, true, false, map, All, IfOk, OnOk};
ghost use Rattle.ev_geom.specs.Bands.{has_pixel, FitsRegion, IsBandsOf};
ghost use Rattle.ev_model.specs.Look.{look_of};
ghost use Rattle.ev_damage.specs.Damage.{is_damaged};
ghost use Rattle.ev_damage.specs.Marked.{may_differ, AreKept};
ghost use Rattle.ev_damage.specs.Places.{look_ids, HaveOwnIds};
ghost use Rattle.ev_damage.specs.Same.{same_look};
ghost use Rattle.ev_damage.specs.Step.{changed, changes};

use crate::marks::{Marks, may_differ};
use crate::places::FEW;
use crate::same::same_look;
use ev_geom::Rect;
use ev_model::Record;
use ev_region::{NoMemory, Region};
use std::alloc::Global;

// Whether both lists have the same ids in the same order.
pub(crate) fn have_same_ids(old: &[Record], new: &[Record]) -> bool
    ensures { result ≡ true → look_ids (map look_of old.now) ≡ look_ids (map look_of new.now) }
{
    if old.len() != new.len() {
        return false;
    }
    for i in 0..old.len() {
        if old[i].id != new[i].id {
            return false;
        }
    }
    true
}

// The damage between such lists: the areas of each two records at one place, unless they are equal.
pub(crate) fn in_step(
    alloc: Global,
    old: &[Record],
    new: &[Record],
    marks: Marks<'_>,
) -> Result<Region, NoMemory>
    requires same_ids { look_ids (map look_of old.now) ≡ look_ids (map look_of new.now) }
    requires old_ids { HaveOwnIds (map look_of old.now) }
    requires new_ids { HaveOwnIds (map look_of new.now) }
    requires old_areas { All (λ r. FitsRegion r.area) old.now }
    requires new_areas { All (λ r. FitsRegion r.area) new.now }
    requires unmarked { AreKept marks.any marks.ids.now (map look_of new.now) (map look_of old.now) }
    ensures { IfOk result (IsBandsOf (is_damaged (map look_of old.now) (map look_of new.now))) }
{
    let areas = changed_areas(alloc, old, new, marks)?;
    united(alloc, &areas)
}

// The areas of each two records at one place, unless they are equal.
fn changed_areas(
    alloc: Global,
    old: &[Record],
    new: &[Record],
    marks: Marks<'_>,
) -> Result<Vec<Rect>, NoMemory>
    requires same_ids { look_ids (map look_of old.now) ≡ look_ids (map look_of new.now) }
    requires new_ids { HaveOwnIds (map look_of new.now) }
    requires unmarked { AreKept marks.any marks.ids.now (map look_of new.now) (map look_of old.now) }
    ensures { IfOk result (λ areas. areas.items ≡ changes (map look_of old.now) (map look_of new.now)) }
{
    let mut areas = Vec::new(alloc);
    for i in 0..old.len() {
        push_changed(&mut areas, &old[i], &new[i], marks)?;
    }
    Ok(areas)
}

// Adds the areas of two records of one object, unless they are equal.
fn push_changed(
    areas: &mut Vec<Rect>,
    one: &Record,
    other: &Record,
    marks: Marks<'_>,
) -> Result<(), NoMemory>
    requires { may_differ marks.any marks.ids.now one.now.id ≡ false → same_look (look_of one.now) (look_of other.now) ≡ true }
    ensures { OnOk result (areas.new.items ≡ areas.old.items ++ changed (look_of one.now) (look_of other.now)) }
{
    if may_differ(marks, one.id) && !same_look(one, other) {
        areas.push(one.area)?;
        areas.push(other.area)?;
    }
    Ok(())
}

/// The pixels of all the areas, each of which is empty or has all its pixels from 0 to 999,999 each
/// way. Halves are united, so that n areas take time in proportion to n times the logarithm of n.
/// `NoMemory` where there is no room for the region.
pub fn united(alloc: Global, areas: &[Rect]) -> Result<Region, NoMemory>
    requires { All FitsRegion areas.now }
    ensures { IfOk result (IsBandsOf (has_pixel areas.now)) }
{
    if areas.len() <= FEW {
        return united_few(alloc, areas);
    }
    let (lower, upper) = areas.split_at(areas.len() / 2);
    let mut region = united(alloc, lower)?;
    let rest = united(alloc, upper)?;
    region.unite(&rest)?;
    Ok(region)
}

// The same, one area after the other.
fn united_few(alloc: Global, areas: &[Rect]) -> Result<Region, NoMemory>
    requires { All FitsRegion areas.now }
    ensures { IfOk result (IsBandsOf (has_pixel areas.now)) }
{
    let mut region = Region::new(alloc);
    for area in areas {
        region.add_rect(area)?;
    }
    Ok(region)
}
