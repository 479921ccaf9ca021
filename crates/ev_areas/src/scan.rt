// Which of several areas meet another one, found in one pass.
ghost use Rattle.std.specs.Prelude.{◌≡◌, ◌+◌, ◌++◌, ◌≤◌, ◌||◌, OnOk, length, get_or};
ghost use Rattle.ev_areas.specs.Meeting.{meeting, place_if, AddsMeeting};
ghost use Rattle.ev_areas.specs.Packed.{meets};

use crate::{NoMemory, PackedArea};

/// Adds the places of the areas that have a pixel in common with another one, the first ones first.
/// `NoMemory` where there is no room for them.
pub fn push_meeting(
    areas: &[PackedArea],
    bound: PackedArea,
    found: &mut Vec<usize>,
) -> Result<(), NoMemory>
    ensures { OnOk result (found.new.items ≡ found.old.items ++ meeting bound 0 areas.now) }
{
    let mut from = 0;
    while areas.len() - from >= 4 {
        push_of_four(areas, bound, from, found)?;
        from += 4;
    }
    push_each(areas, bound, from, areas.len(), found)
}

// Adds the places of those that meet it among four. Mostly there are none.
#[inline(always)]
fn push_of_four(
    areas: &[PackedArea],
    bound: PackedArea,
    from: usize,
    found: &mut Vec<usize>,
) -> Result<(), NoMemory>
    requires { from + 4 ≤ length areas.now }
    ensures { OnOk result (AddsMeeting areas.now bound from (from + 4) found.old.items found.new.items) }
{
    if two_meet(areas, bound, from) || two_meet(areas, bound, from + 2) {
        push_each(areas, bound, from, from + 4, found)
    } else {
        Ok(())
    }
}

// Whether one of two neighbours meets it.
#[inline(always)]
fn two_meet(areas: &[PackedArea], bound: PackedArea, from: usize) -> bool
    requires { from + 2 ≤ length areas.now }
    ensures { result ≡ (meets (get_or areas.now from bound) bound || meets (get_or areas.now (from + 1) bound) bound) }
{
    areas[from].meets(bound) || areas[from + 1].meets(bound)
}

// Adds the places of those that meet it, from one place to before another.
fn push_each(
    areas: &[PackedArea],
    bound: PackedArea,
    from: usize,
    to: usize,
    found: &mut Vec<usize>,
) -> Result<(), NoMemory>
    requires order { from ≤ to }
    requires end { to ≤ length areas.now }
    ensures { OnOk result (AddsMeeting areas.now bound from to found.old.items found.new.items) }
{
    for k in from..to {
        push_if(areas[k].meets(bound), k, found)?;
    }
    Ok(())
}

// Adds a place, if it is one of those.
fn push_if(meets: bool, place: usize, found: &mut Vec<usize>) -> Result<(), NoMemory>
    ensures { OnOk result (found.new.items ≡ found.old.items ++ place_if meets place) }
{
    if meets {
        found.push(place)?;
    }
    Ok(())
}
