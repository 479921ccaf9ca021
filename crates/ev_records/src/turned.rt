// What places have in common that changed their order.
ghost use Rattle.std.specs.Prelude.{◌≡◌, ℕ, true, ◌<◌, ◌&&◌, length, OnOk};
ghost use Rattle.std.specs.List.{list_any};
ghost use Rattle.ev_geom.specs.Area.{holds};
ghost use Rattle.ev_geom.specs.Bands.{FitsRegion};
ghost use Rattle.ev_damage.specs.Marked.{is_marked};
ghost use Rattle.ev_records.specs.Showing.{showing};
ghost use Rattle.ev_records.specs.Turned.{still, held_in, in_pair, any_below, in_turned, Gathers};

use crate::{NoMemory, Ranks, Records};
use ev_geom::Rect;

// So many places are looked for together.
const FEW: usize = 32;

// Adds what each two places have in common that show the same as at the start before and changed their order, of which
// one is among the moved. Where these lie side by side, each group of them has few others near it.
#[tactic(auto, using(crate::proofs::Gatherings::none_moved))]
pub(crate) fn push_turned(
    areas: &mut Vec<Rect>,
    records: &Records,
    ranks: &Ranks,
    moved: &[usize],
) -> Result<(), NoMemory>
    requires same { length ranks.now.stands ≡ length records.now }
    requires within { (place : ℕ) → is_marked moved.now place ≡ true → place < length records.now }
    ensures { OnOk result (Gathers (in_turned records.now ranks.now moved.now) areas.old.items areas.new.items) }
{
    if moved.len() == 0 {
        return Ok(());
    }
    if moved.len() <= FEW {
        return push_turned_of(areas, records, ranks, moved);
    }
    let (lower, upper) = moved.split_at(moved.len() / 2);
    push_turned(areas, records, ranks, lower)?;
    push_turned(areas, records, ranks, upper)
}

// The same for a group of a few.
fn push_turned_of(
    areas: &mut Vec<Rect>,
    records: &Records,
    ranks: &Ranks,
    group: &[usize],
) -> Result<(), NoMemory>
    requires same { length ranks.now.stands ≡ length records.now }
    requires within { (place : ℕ) → is_marked group.now place ≡ true → place < length records.now }
    ensures { OnOk result (Gathers (in_turned records.now ranks.now group.now) areas.old.items areas.new.items) }
{
    let alloc = *areas.allocator();
    let found = records.near(alloc, group)?;
    for i in 0..group.len() {
        push_turned_with(areas, records, ranks, group[i], &found)?;
    }
    Ok(())
}

// Adds that of one place with each that was found.
fn push_turned_with(
    areas: &mut Vec<Rect>,
    records: &Records,
    ranks: &Ranks,
    place: usize,
    found: &[usize],
) -> Result<(), NoMemory>
    requires same { length ranks.now.stands ≡ length records.now }
    requires there { place < length records.now }
    requires within { (other : ℕ) → is_marked found.now other ≡ true → other < length records.now }
    ensures { OnOk result (Gathers (λ x y. list_any (in_pair records.now ranks.now x y place) found.now) areas.old.items areas.new.items) }
{
    for i in 0..found.len() {
        push_if_turned(areas, records, ranks, place, found[i])?;
    }
    Ok(())
}

// Adds that of two places, if they meet and changed their order.
fn push_if_turned(
    areas: &mut Vec<Rect>,
    records: &Records,
    ranks: &Ranks,
    place: usize,
    other: usize,
) -> Result<(), NoMemory>
    requires same { length ranks.now.stands ≡ length records.now }
    requires there { place < length records.now }
    requires other { other < length records.now }
    ensures { OnOk result (Gathers (λ x y. in_pair records.now ranks.now x y place other) areas.old.items areas.new.items) }
{
    if !records.may_meet(place, other) {
        return Ok(());
    }
    if ranks.is_turned(place, other) {
        push_common(areas, records, place, other)
    } else {
        Ok(())
    }
}

// Adds that of two places, if both show the same as at the start before.
fn push_common(
    areas: &mut Vec<Rect>,
    records: &Records,
    place: usize,
    other: usize,
) -> Result<(), NoMemory>
    requires there { place < length records.now }
    requires other { other < length records.now }
    ensures { OnOk result (Gathers (λ x y. held_in (still (showing records.now other)) x y && held_in (still (showing records.now place)) x y) areas.old.items areas.new.items) }
{
    match (records.still_area(other), records.still_area(place)) {
        (Some(one), Some(two)) => push_meet(areas, &one, &two),
        _ => Ok(()),
    }
}

// Adds what two areas have in common.
fn push_meet(areas: &mut Vec<Rect>, one: &Rect, other: &Rect) -> Result<(), NoMemory>
    requires { FitsRegion other.now }
    ensures { OnOk result (Gathers (λ x y. holds one.now x y && holds other.now x y) areas.old.items areas.new.items) }
{
    let both = one.meet(other);
    if !both.is_empty() {
        areas.push(both)?;
    }
    Ok(())
}
