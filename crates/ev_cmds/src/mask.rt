// Sets of places of a tile.
ghost use Rattle.std.specs.Prelude.{◌≡◌, ℕ, ◌<◌, ◌≤◌, ◌-◌, ◌^◌, true, OnOk, slice_index, bit_and};
ghost use Rattle.ev_cmds.specs.Masks as masks;
ghost use Rattle.ev_cmds.specs.Patches as patches;

use crate::{NoMemory, Patch};
use std::marker::Model;

/// A set of places of a tile, row by row. Clauses see 64 words, one for each row from the top, of
/// which bit x tells whether the place in column x is in the set.
#[derive(Drop)]
pub struct Mask {
    rows: [u64; 64],
    // Set where it is known that the set has no place left, so that nothing is looked up any more.
    is_spent: bool,
}

impl Model for Mask {
    ghost use Rattle.std.specs.Prelude.{ℕ, List};
    ghost use Rattle.ev_cmds.specs.Masks.{IsMask};

    ghost Value = { List ℕ };

    ghost view = { λ m. m.rows };

    ghost invariant = { λ m. IsMask m.rows m.is_spent };
}

/// Places side by side in a row: the columns from `left` to before `right`.
#[derive(Clone, Copy, Debug, PartialEq, Eq)]
pub struct Run {
    pub left: u8,
    pub right: u8,
}

impl Mask {
    // The set without places.
    #[tactic(auto, using(crate::proofs::Masking::none_set))]
    pub(crate) fn new() -> Mask
        ensures { masks.IsEmpty result }
    {
        Mask {
            rows: [0; 64],
            is_spent: false,
        }
    }

    /// The places of row y: bit x tells of column x.
    pub fn row(&self, y: u8) -> u64
        requires { y < 64 }
        ensures { result ≡ slice_index self.now y }
    {
        self.rows[y as usize]
    }

    // Adds the places of a patch.
    pub(crate) fn add(&mut self, patch: Patch)
        requires { patches.IsPatch patch }
        ensures { masks.Adds patch self.old self.new }
    {
        let columns = columns(patch.left, patch.right);
        self.is_spent = false;
        for y in patch.top..patch.bottom {
            self.rows[y as usize] |= columns;
        }
    }

    // Takes the places of a patch away.
    pub(crate) fn cut(&mut self, patch: Patch)
        requires { patches.IsPatch patch }
        ensures { masks.Cuts patch self.old self.new }
    {
        let others = !columns(patch.left, patch.right);
        for y in patch.top..patch.bottom {
            self.rows[y as usize] &= others;
        }
        self.is_spent = are_empty(&self.rows);
    }

    // Adds patches that hold the places of the set in an area, each of them once.
    pub(crate) fn push_parts(&self, area: Patch, into: &mut Vec<Patch>) -> Result<(), NoMemory>
        requires { patches.IsPatch area }
        ensures { OnOk result (masks.AddsParts self.now area into.old.items into.new.items) }
    {
        if self.is_spent {
            return Ok(());
        }
        let columns = columns(area.left, area.right);
        let mut top = area.top;
        while top < area.bottom {
            let bits = self.row(top) & columns;
            let bottom = self.end_of_rows(bits, columns, top, area.bottom);
            push_runs(bits, top, bottom, into)?;
            top = bottom;
        }
        Ok(())
    }

    // The end of the rows from `top` on that have these bits among these columns.
    fn end_of_rows(&self, bits: u64, columns: u64, top: u8, bottom: u8) -> u8
        requires some { top < bottom }
        requires tile { bottom ≤ 64 }
        requires first { bit_and (slice_index self.now top) columns ≡ bits }
        ensures after { top < result }
        ensures within { result ≤ bottom }
        ensures rows { (y : ℕ) → top ≤ y → y < result → bit_and (slice_index self.now y) columns ≡ bits }
    {
        for y in top + 1..bottom {
            if self.row(y) & columns != bits {
                return y;
            }
        }
        bottom
    }
}

// Whether no row has a place.
fn are_empty(rows: &[u64; 64]) -> bool
    ensures { result ≡ true → masks.IsEmpty rows.now }
{
    for y in 0..64 {
        if rows[y] != 0 {
            return false;
        }
    }
    true
}

// The bits of the columns from `left` to before `right`.
#[tactic(auto, using(crate::proofs::Masking::shifts))]
fn columns(left: u8, right: u8) -> u64
    requires order { left ≤ right }
    requires tile { right ≤ 64 }
    ensures { result ≡ 2 ^ right - 2 ^ left }
{
    ((1u128 << right) - (1u128 << left)) as u64
}

/// The first run of bits that are set in a word, from column `from` on.
pub fn next_run(bits: u64, from: u8) -> Option<Run>
    requires { from ≤ 64 }
    ensures { masks.IsNextRun bits from result }
{
    if from == 64 {
        return None;
    }
    let rest = bits >> from;
    if rest == 0 {
        return None;
    }
    let left = from + rest.trailing_zeros() as u8;
    let right = left + (bits >> left).trailing_ones() as u8;
    Some(Run { left, right })
}

// Adds a patch over these rows for each run of bits that are set.
fn push_runs(bits: u64, top: u8, bottom: u8, into: &mut Vec<Patch>) -> Result<(), NoMemory>
    requires some { top < bottom }
    requires tile { bottom ≤ 64 }
    ensures { OnOk result (masks.AddsRuns bits top bottom 64 into.old.items into.new.items) }
{
    let mut from = 0;
    while let Some(run) = next_run(bits, from) {
        into.push(Patch {
            left: run.left,
            right: run.right,
            top,
            bottom,
        })?;
        from = run.right;
    }
    Ok(())
}
