// The records of all places.
ghost use Rattle.std.specs.Prelude.{◌≡◌, ℕ, ◌<◌, ◌++◌, ◌∷◌, [], List, map, length, Some, IfOk, IfSome, OnOk, OnErr};
ghost use Rattle.ev_geom.specs.Bands.{FitsRegion, IsBandsOf};
ghost use Rattle.ev_damage.specs.Damage.{is_damaged};
ghost use Rattle.ev_model.specs.Look.{look_of};
ghost use Rattle.ev_records.specs.Cells.{AreTied, AreSettled, settled_cell, look_in, showing_of};
ghost use Rattle.ev_records.specs.Turned.{still, still_area};

use crate::cell::{Cell, Former};
use crate::changes::{changed_areas, is_same};
use crate::near::packed;
use crate::turned::push_turned;
use crate::{NoMemory, Ranks};
use ev_areas::PackedArea;
use ev_damage::united;
use ev_geom::Rect;
use ev_model::Record;
use ev_region::Region;
use std::alloc::Global;
use std::marker::Model;
use std::mem::replace;

/// The records of objects, each in a place of its own, as they are and as they were at the start
/// before. Only what changed since then is kept twice (docs/ARCHITECTURE.md, "Records").
#[derive(Drop)]
pub struct Records {
    pub(crate) cells: Vec<Cell>,
    formers: Vec<Former>,
    pub(crate) areas: Vec<PackedArea>,
}

impl Model for Records {
    ghost use Rattle.std.specs.Prelude.{List};
    ghost use Rattle.ev_records.specs.Showing.{Showing};
    ghost use Rattle.ev_records.specs.Cells.{shown};
    ghost use Rattle.ev_records.specs.Near.{AreRecords};

    ghost Value = { List Showing };

    ghost view = { λ r. shown r.formers.items r.cells.items };

    ghost invariant = { λ r. AreRecords r.formers.items r.cells.items r.areas.items };
}

impl Records {
    ghost use Rattle.ev_records.specs.Showing.{nothing, showing, put, settled, looks_now, looks_before, Have};
    ghost use Rattle.ev_records.specs.Standing.{Rises};
    ghost use Rattle.ev_records.specs.Cells.{MayStand};

    /// No places.
    pub fn new(alloc: Global) -> Records
        ensures { result ≡ [] }
    {
        Records {
            cells: Vec::new(alloc),
            formers: Vec::new(alloc),
            areas: Vec::new(alloc),
        }
    }

    /// How many places there are.
    pub fn len(&self) -> usize
        ensures { result ≡ length self.now }
    {
        self.cells.len()
    }

    /// One more place, which shows nothing. `NoMemory`: then nothing changes.
    pub fn add(&mut self) -> Result<(), NoMemory>
        ensures ok { OnOk result (self.new ≡ self.old ++ nothing ∷ []) }
        ensures err { OnErr result (self.new ≡ self.old) }
    {
        self.areas.reserve(1)?;
        self.cells.push(Cell {
            present: None,
            mark: None,
        })?;
        let Ok(()) = self.areas.push(PackedArea::NOWHERE) else {
            unreachable!()
        };
        Ok(())
    }

    /// A place gets this record, or none. Its area lies on a canvas of 4096 by 4096 pixels, and its
    /// object stands in no other place and stood in none at the start before. The place may have had
    /// another object. `NoMemory`: then nothing changes.
    pub fn put(&mut self, place: usize, one: Option<Record>) -> Result<(), NoMemory>
        requires there { place < length self.old }
        requires stands { MayStand self.old place one }
        ensures ok { OnOk result (self.new ≡ put self.old place (look_in one)) }
        ensures err { OnErr result (self.new ≡ self.old) }
    {
        let area = packed(&one);
        if self.cells[place].mark.is_some() {
            self.cells[place].present = one;
            self.areas[place] = area;
            return Ok(());
        }
        self.formers.reserve(1)?;
        self.areas[place] = area;
        let cell = &mut self.cells[place];
        let was = replace(&mut cell.present, one);
        cell.mark = Some(self.formers.len());
        let Ok(()) = self.formers.push(Former { place, was }) else {
            unreachable!()
        };
        Ok(())
    }

    /// The pixels that may look different since the start before: the damage between what was painted
    /// then and what would be painted now, each in the order of its numbers (docs/CANVAS.md, Damage).
    /// It costs what was put since, and where places were given other numbers a look at all areas for
    /// each few of these. `NoMemory` where there is no room for the region.
    pub fn damage(&self, ranks: &Ranks) -> Result<Region, NoMemory>
        requires same { length ranks.now.stands ≡ length self.now }
        ensures { (before now : List ℕ) → Rises ranks.now.stood before → Rises ranks.now.stands now → Have before now self.now
            → IfOk result (IsBandsOf (is_damaged (looks_before self.now before) (looks_now self.now now))) }
    {
        let alloc = *self.cells.allocator();
        let mut areas = changed_areas(alloc, &self.formers, &self.cells)?;
        let moved = self.by_column(alloc, ranks.moved())?;
        push_turned(&mut areas, self, ranks, &moved)?;
        united(alloc, &areas)
    }

    /// A start was accepted: what is shown now is from now on what was shown at the start before.
    pub fn settle(&mut self)
        ensures { self.new ≡ map settled self.old }
    {
        settle_all(&mut self.cells, &self.formers);
        self.formers.clear();
    }

    // The area of a place that shows the same as at the start before.
    pub(crate) fn still_area(&self, place: usize) -> Option<Rect>
        requires { place < length self.now }
        ensures same { result ≡ still (showing self.now place) }
        ensures fits { IfSome result FitsRegion }
    {
        still_area(&self.formers, &self.cells[place])
    }
}

fn still_area(formers: &[Former], cell: &Cell) -> Option<Rect>
    requires { (k : ℕ) → cell.now.mark ≡ Some k → k < length formers.now }
    ensures { result ≡ still (showing_of formers.now cell.now) }
{
    match (&cell.present, cell.mark) {
        (Some(now), None) => Some(now.area),
        (Some(now), Some(k)) => same_area(&formers[k].was, now),
        (None, _) => None,
    }
}

// The area of two records that are equal and of one object.
fn same_area(was: &Option<Record>, now: &Record) -> Option<Rect>
    ensures { result ≡ still_area (look_in was.now) (Some (look_of now.now)) }
{
    match was {
        Some(one) if is_same(one, now) => Some(one.area),
        _ => None,
    }
}

// What these places have now counts from now on as that of the start before.
fn settle_all(cells: &mut Vec<Cell>, formers: &[Former])
    requires tied { AreTied formers.now cells.old.items }
    ensures { AreSettled cells.old.items cells.new.items }
{
    for i in 0..formers.len() {
        settle(&mut cells[formers[i].place]);
    }
}

fn settle(cell: &mut Cell)
    ensures { cell.new ≡ settled_cell cell.old }
{
    cell.mark = None;
}
