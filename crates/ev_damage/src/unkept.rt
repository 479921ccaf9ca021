// Records that the other list does not have, and those that it has, with their places there.
ghost use Rattle.std.specs.Prelude.{◌≡◌, ◌++◌, ◌&&◌, not, is_some, List, [], map, length, filter_map, All, IfOk, OnOk};
ghost use Rattle.std.specs.List.{cons_option};
ghost use Rattle.ev_geom.specs.Area.{holds};
ghost use Rattle.ev_geom.specs.Bands.{FitsRegion, IsBandsOf};
ghost use Rattle.ev_model.specs.Look.{Look, look_of};
ghost use Rattle.ev_damage.specs.Damage.{in_unkept};
ghost use Rattle.ev_damage.specs.Places.{place_of, placed_at, placed, Adds};

use crate::places::FEW;
use crate::turned::Placed;
use ev_model::Record;
use ev_region::{NoMemory, Region};
use std::alloc::Global;

// The areas of the records that have a place, with it.
pub(crate) fn placed(
    alloc: Global,
    records: &[Record],
    places: &[Option<usize>],
) -> Result<Vec<Placed>, NoMemory>
    requires { length places.now ≡ length records.now }
    ensures { (others : List Look) → places.now ≡ map (place_of others) (map look_of records.now)
        → IfOk result (λ ps. ps.items ≡ filter_map (placed others) (map look_of records.now)) }
{
    let mut placed = Vec::with_capacity(alloc, records.len())?;
    for i in 0..records.len() {
        push_placed(&mut placed, &records[i], places[i])?;
    }
    Ok(placed)
}

// Adds the area of a record that has a place.
fn push_placed(placed: &mut Vec<Placed>, one: &Record, place: Option<usize>) -> Result<(), NoMemory>
    ensures { OnOk result (placed.new.items ≡ placed.old.items ++ cons_option (placed_at one.now.area place) []) }
{
    if let Some(at) = place {
        placed.push(Placed { at, area: one.area })?;
    }
    Ok(())
}

// The areas of the records that have no place. Halves are united, so that n areas take time in
// proportion to n times the logarithm of n.
pub(crate) fn unkept(
    alloc: Global,
    records: &[Record],
    places: &[Option<usize>],
) -> Result<Region, NoMemory>
    requires same { length places.now ≡ length records.now }
    requires areas { All (λ r. FitsRegion r.area) records.now }
    ensures { (others : List Look) → places.now ≡ map (place_of others) (map look_of records.now)
        → IfOk result (IsBandsOf (in_unkept others (map look_of records.now))) }
{
    if records.len() <= FEW {
        let mut region = Region::new(alloc);
        add_unkept(&mut region, records, places)?;
        return Ok(region);
    }
    let half = records.len() / 2;
    let (lower, upper) = records.split_at(half);
    let (lower_places, upper_places) = places.split_at(half);
    let mut region = unkept(alloc, lower, lower_places)?;
    let rest = unkept(alloc, upper, upper_places)?;
    region.unite(&rest)?;
    Ok(region)
}

// Adds the areas of the records that have no place.
fn add_unkept(
    region: &mut Region,
    records: &[Record],
    places: &[Option<usize>],
) -> Result<(), NoMemory>
    requires same { length places.now ≡ length records.now }
    requires areas { All (λ r. FitsRegion r.area) records.now }
    ensures { (others : List Look) → places.now ≡ map (place_of others) (map look_of records.now)
        → OnOk result (Adds (in_unkept others (map look_of records.now)) region.old region.new) }
{
    for i in 0..records.len() {
        add_unless(region, &records[i], places[i])?;
    }
    Ok(())
}

// Adds the area of a record that has no place.
fn add_unless(region: &mut Region, one: &Record, place: Option<usize>) -> Result<(), NoMemory>
    requires { FitsRegion one.now.area }
    ensures { OnOk result (Adds (λ x y. not (is_some place) && holds one.now.area x y) region.old region.new) }
{
    match place {
        Some(_) => Ok(()),
        None => region.add_rect(&one.area),
    }
}
