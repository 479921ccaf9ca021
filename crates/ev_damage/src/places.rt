// Where records stand in another list.
ghost use Rattle.std.specs.Prelude.{◌≡◌, ◌<◌, ◌==◌, true, false, Some, map, length, IfOk};
ghost use Rattle.std.specs.List.{position};
ghost use Rattle.ev_model.specs.Look.{look_of};
ghost use Rattle.ev_damage.specs.Damage.{is_kept};
ghost use Rattle.ev_damage.specs.Marked.{may_differ, AreKept};
ghost use Rattle.ev_damage.specs.Places.{HaveOwnIds, IsIndex, MayBeIndex, place_of_id, place_of};

use crate::marks::{Marks, may_differ};
use crate::same::same_look;
use ev_model::Record;
use ev_region::NoMemory;
use std::alloc::Global;
use std::collections::HashMap;

// The place of each id among the records, counted from the lowest.
pub(crate) fn index_of(alloc: Global, records: &[Record]) -> Result<HashMap<u64, usize>, NoMemory>
    requires { HaveOwnIds (map look_of records.now) }
    ensures { IfOk result (λ index. IsIndex index (map look_of records.now)) }
{
    let mut index = HashMap::new(alloc);
    for (at, one) in records.iter().enumerate() {
        index.insert(one.id, at)?;
    }
    Ok(index)
}

// Whether the record of this object stands at a place.
fn stands_at(id: u64, others: &[Record], at: usize) -> bool
    requires { HaveOwnIds (map look_of others.now) }
    ensures { result ≡ true → place_of_id (map look_of others.now) id ≡ Some at }
{
    at < others.len() && others[at].id == id
}

// Where the record of an object stands: at the place that was guessed, or where it is found.
fn place_of_id(
    id: u64,
    others: &[Record],
    index: &Option<HashMap<u64, usize>>,
    guess: usize,
) -> Option<usize>
    requires own { HaveOwnIds (map look_of others.now) }
    requires index { MayBeIndex index.now (map look_of others.now) }
    ensures { result ≡ place_of_id (map look_of others.now) id }
{
    if stands_at(id, others, guess) {
        Some(guess)
    } else {
        found(id, others, index)
    }
}

// Where the record of an object stands, by the index, or by a search where there is none.
fn found(id: u64, others: &[Record], index: &Option<HashMap<u64, usize>>) -> Option<usize>
    requires { MayBeIndex index.now (map look_of others.now) }
    ensures { result ≡ place_of_id (map look_of others.now) id }
{
    match index {
        Some(index) => index.get(&id).copied(),
        None => searched(id, others),
    }
}

fn searched(id: u64, others: &[Record]) -> Option<usize>
    ensures { result ≡ position (λ r. r.id == id) others.now }
{
    others.iter().position(|one| one.id == id)
}

// The place of an equal record of the same object, where the place of that object's is known.
fn kept_place(
    one: &Record,
    others: &[Record],
    place: Option<usize>,
    marks: Marks<'_>,
) -> Option<usize>
    requires own { HaveOwnIds (map look_of others.now) }
    requires place { place ≡ place_of_id (map look_of others.now) one.now.id }
    requires unmarked { may_differ marks.any marks.ids.now one.now.id ≡ false → is_kept (map look_of others.now) (look_of one.now) ≡ true }
    ensures { result ≡ place_of (map look_of others.now) (look_of one.now) }
{
    match place {
        Some(at) => kept_at(one, others, at, marks),
        None => None,
    }
}

// The place of the record of the same object, where it is equal.
fn kept_at(one: &Record, others: &[Record], at: usize, marks: Marks<'_>) -> Option<usize>
    requires own { HaveOwnIds (map look_of others.now) }
    requires place { place_of_id (map look_of others.now) one.now.id ≡ Some at }
    requires unmarked { may_differ marks.any marks.ids.now one.now.id ≡ false → is_kept (map look_of others.now) (look_of one.now) ≡ true }
    ensures { result ≡ place_of (map look_of others.now) (look_of one.now) }
{
    if may_differ(marks, one.id) {
        equal_at(one, others, at)
    } else {
        Some(at)
    }
}

// The same, by comparing the two.
fn equal_at(one: &Record, others: &[Record], at: usize) -> Option<usize>
    requires own { HaveOwnIds (map look_of others.now) }
    requires place { place_of_id (map look_of others.now) one.now.id ≡ Some at }
    requires within { at < length others.now }
    ensures { result ≡ place_of (map look_of others.now) (look_of one.now) }
{
    if same_look(one, &others[at]) {
        Some(at)
    } else {
        None
    }
}

// For each record, where an equal one of the same object stands. Records are looked for behind the
// last that was found, so that two lists with few differences are walked in step.
pub(crate) fn places_of(
    alloc: Global,
    records: &[Record],
    others: &[Record],
    index: &Option<HashMap<u64, usize>>,
    marks: Marks<'_>,
) -> Result<Vec<Option<usize>>, NoMemory>
    requires own { HaveOwnIds (map look_of others.now) }
    requires index { MayBeIndex index.now (map look_of others.now) }
    requires unmarked { AreKept marks.any marks.ids.now (map look_of others.now) (map look_of records.now) }
    ensures { IfOk result (λ places. places.items ≡ map (place_of (map look_of others.now)) (map look_of records.now)) }
{
    let mut places = Vec::with_capacity(alloc, records.len())?;
    let mut guess = 0;
    for one in records {
        let place = place_of_id(one.id, others, index, guess);
        guess = after(place, guess);
        let kept = kept_place(one, others, place, marks);
        places.push(kept)?;
    }
    Ok(places)
}

// The place behind this one, or the one that was guessed.
fn after(place: Option<usize>, guess: usize) -> usize {
    match place {
        Some(at) if at < usize::MAX => at + 1,
        _ => guess,
    }
}

// So many records may be looked for by a search.
pub(crate) const FEW: usize = 16;

// Whether but few records stand elsewhere than behind the one before.
pub(crate) fn are_in_step(records: &[Record], others: &[Record]) -> bool {
    let mut next = 0;
    let mut astray = 0;
    for one in records {
        if has_id_at(others, next, one.id) {
            next = next.saturating_add(1);
        } else if has_id_at(others, next.saturating_add(1), one.id) {
            next = next.saturating_add(2);
        } else if astray < FEW {
            astray += 1;
        } else {
            return false;
        }
    }
    true
}

fn has_id_at(records: &[Record], at: usize, id: u64) -> bool {
    at < records.len() && records[at].id == id
}
