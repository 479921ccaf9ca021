// Which places come near others.
ghost use Rattle.std.specs.Prelude.{◌≡◌, ℕ, ◌<◌, ◌≤◌, true, false, length, IfOk};
ghost use Rattle.ev_damage.specs.Marked.{is_marked};
ghost use Rattle.ev_records.specs.Cells.{look_in, present_at};
ghost use Rattle.ev_records.specs.Near.{AreAround, AreApart, FindsNear, IsAroundAll};

use crate::cell::Cell;
use crate::{NoMemory, Records};
use ev_areas::{Edges, PackedArea, push_meeting};
use ev_model::Record;
use std::alloc::Global;

/// No canvas is wider or higher.
const GREATEST: u32 = 4096;

impl Records {
    // The places that show the same as at the start before and have a pixel in common with one of a group that does so,
    // and perhaps others.
    pub(crate) fn near(&self, alloc: Global, group: &[usize]) -> Result<Vec<usize>, NoMemory>
        requires within { (place : ℕ) → is_marked group.now place ≡ true → place < length self.now }
        ensures { IfOk result (λ found. FindsNear self.now group.now found.items) }
    {
        let bound = PackedArea::of(&edges_of_all(&self.cells, group));
        let mut found = Vec::new(alloc);
        push_meeting(&self.areas, bound, &mut found)?;
        Ok(found)
    }

    // The same places, those whose areas begin farthest to the left first.
    pub(crate) fn by_column(&self, alloc: Global, places: &[usize]) -> Result<Vec<usize>, NoMemory>
        ensures { IfOk result (λ sorted. (place : ℕ) → is_marked sorted.items place ≡ is_marked places.now place) }
    {
        let mut sorted = Vec::from_slice(alloc, places)?;
        sorted.sort_by_key(|place| self.column(*place))?;
        Ok(sorted)
    }

    // The first column of what a place has now, for an order that nothing rests on.
    fn column(&self, place: usize) -> u32 {
        match self.cells.get(place) {
            Some(cell) => edges_of(&cell.present).left,
            None => 0,
        }
    }

    // Whether two places may have a pixel in common.
    pub(crate) fn may_meet(&self, a: usize, b: usize) -> bool
        requires a { a < length self.now }
        requires b { b < length self.now }
        ensures { result ≡ false → AreApart self.now a b }
    {
        self.areas[a].meets(self.areas[b])
    }
}

// Edges around what places have now.
fn edges_of_all(cells: &[Cell], group: &[usize]) -> Edges
    requires { (place : ℕ) → is_marked group.now place ≡ true → place < length cells.now }
    ensures { IsAroundAll cells.now group.now result }
{
    let mut bound = Edges::NONE;
    for i in 0..group.len() {
        bound = bound.join(&edges_at(cells, group[i]));
    }
    bound
}

// Edges around what a place has now.
fn edges_at(cells: &[Cell], place: usize) -> Edges
    requires { place < length cells.now }
    ensures around { AreAround (look_in (present_at cells.now place)) result }
    ensures right { result.right ≤ 4096 }
    ensures bottom { result.bottom ≤ 4096 }
{
    edges_of(&cells[place].present)
}

// Edges around a record, if there is one.
fn edges_of(one: &Option<Record>) -> Edges
    ensures around { AreAround (look_in one.now) result }
    ensures right { result.right ≤ 4096 }
    ensures bottom { result.bottom ≤ 4096 }
{
    match one {
        Some(record) => Edges::of(&record.area, GREATEST, GREATEST),
        None => Edges::NONE,
    }
}

// The packed area of a record, or one without pixels.
pub(crate) fn packed(one: &Option<Record>) -> PackedArea
    ensures { AreAround (look_in one.now) result }
{
    PackedArea::of(&edges_of(one))
}
