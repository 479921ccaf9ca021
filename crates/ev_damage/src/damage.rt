// The damage between two lists of records.
ghost use Rattle.std.specs.Prelude.{◌≡◌, map, All, IfOk};
ghost use Rattle.ev_geom.specs.Bands.{FitsRegion, IsBandsOf};
ghost use Rattle.ev_model.specs.Look.{look_of};
ghost use Rattle.ev_damage.specs.Damage.{is_damaged};
ghost use Rattle.ev_damage.specs.Marked.{AreMarked, AreKept};
ghost use Rattle.ev_damage.specs.Places.{HaveOwnIds, MayBeIndex};

use crate::in_step::{have_same_ids, in_step};
use crate::marks::Marks;
use crate::places::{FEW, are_in_step, index_of, places_of};
use crate::turned::add_turned;
use crate::unkept::{placed, unkept};
use ev_model::Record;
use ev_region::{NoMemory, Region};
use std::alloc::Global;
use std::collections::HashMap;

/// The pixels that may look different, by what is painted before and after: the damage between two
/// lists of records, each from the lowest to the highest (docs/CANVAS.md, Damage). In each list the
/// ids differ, and each area is empty or has all its pixels from 0 to 999,999 each way. `NoMemory`
/// where there is no room for the region or for what finds records by their ids.
pub fn between(alloc: Global, old: &[Record], new: &[Record]) -> Result<Region, NoMemory>
    requires old_ids { HaveOwnIds (map look_of old.now) }
    requires new_ids { HaveOwnIds (map look_of new.now) }
    requires old_areas { All (λ r. FitsRegion r.area) old.now }
    requires new_areas { All (λ r. FitsRegion r.area) new.now }
    ensures { IfOk result (IsBandsOf (is_damaged (map look_of old.now) (map look_of new.now))) }
{
    let marks = Marks {
        any: true,
        ids: &[],
    };
    if have_same_ids(old, new) {
        return in_step(alloc, old, new, marks);
    }
    let few = are_in_step(old, new) && are_in_step(new, old);
    between_found(alloc, old, new, few, marks)
}

/// The same damage, faster where little is marked: `dirty` has the id of each object that has a
/// record in one list and no equal one in the other, so that other records need not be compared.
/// `moved` has the ids of the objects that changed their order; where one is left out, the damage is
/// the same, and may take longer. `NoMemory` as for [`between`].
pub fn between_marked(
    alloc: Global,
    old: &[Record],
    new: &[Record],
    dirty: &[u64],
    moved: &[u64],
) -> Result<Region, NoMemory>
    requires old_ids { HaveOwnIds (map look_of old.now) }
    requires new_ids { HaveOwnIds (map look_of new.now) }
    requires old_areas { All (λ r. FitsRegion r.area) old.now }
    requires new_areas { All (λ r. FitsRegion r.area) new.now }
    requires old_marked { AreMarked dirty.now (map look_of new.now) (map look_of old.now) }
    requires new_marked { AreMarked dirty.now (map look_of old.now) (map look_of new.now) }
    ensures { IfOk result (IsBandsOf (is_damaged (map look_of old.now) (map look_of new.now))) }
{
    let marks = Marks {
        any: FEW < dirty.len(),
        ids: dirty,
    };
    if have_same_ids(old, new) {
        return in_step(alloc, old, new, marks);
    }
    let few = dirty.len() <= FEW && moved.len() <= FEW;
    between_found(alloc, old, new, few, marks)
}

// The damage, where records are looked for by a search if but few have to be.
fn between_found(
    alloc: Global,
    old: &[Record],
    new: &[Record],
    few: bool,
    marks: Marks<'_>,
) -> Result<Region, NoMemory>
    requires old_ids { HaveOwnIds (map look_of old.now) }
    requires new_ids { HaveOwnIds (map look_of new.now) }
    requires old_areas { All (λ r. FitsRegion r.area) old.now }
    requires new_areas { All (λ r. FitsRegion r.area) new.now }
    requires old_kept { AreKept marks.any marks.ids.now (map look_of new.now) (map look_of old.now) }
    requires new_kept { AreKept marks.any marks.ids.now (map look_of old.now) (map look_of new.now) }
    ensures { IfOk result (IsBandsOf (is_damaged (map look_of old.now) (map look_of new.now))) }
{
    let in_new = index_unless(alloc, few, new)?;
    let old_places = places_of(alloc, old, new, &in_new, marks)?;
    let in_old = index_unless(alloc, few, old)?;
    let new_places = places_of(alloc, new, old, &in_old, marks)?;
    let mut region = unkept(alloc, old, &old_places)?;
    let other = unkept(alloc, new, &new_places)?;
    region.unite(&other)?;
    let kept = placed(alloc, old, &old_places)?;
    add_turned(alloc, &mut region, &kept)?;
    Ok(region)
}

// The place of each id, or nothing where a search will do.
fn index_unless(
    alloc: Global,
    few: bool,
    records: &[Record],
) -> Result<Option<HashMap<u64, usize>>, NoMemory>
    requires { HaveOwnIds (map look_of records.now) }
    ensures { IfOk result (λ index. MayBeIndex index (map look_of records.now)) }
{
    if few {
        Ok(None)
    } else {
        let index = index_of(alloc, records)?;
        Ok(Some(index))
    }
}
