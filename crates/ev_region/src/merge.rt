// Two sets of pixels combined in one pass over their bands.
ghost use Rattle.std.specs.Prelude.{◌≡◌, ◌⊎◌, ◌↔◌, ◌+◌, ◌++◌, [], false, length, drop, map, All, IsTrue, MatchOption, OnOk, OnErr};
ghost use Rattle.ev_geom.specs.Bands.{IsRow};
ghost use Rattle.ev_region.specs.Combine.{keeps};
ghost use Rattle.ev_region.specs.BandMerge.{IsNextTop, PassesTop, PushesRow, IsBandMerge, kept_bands};
ghost use Rattle.ev_region.specs.Flat.{bands_of, moved, CanMove, IsFlat, IsReading, IsOpen};

use crate::bands::{Bands, Rest, Step, last_run};
use crate::combine::{Combine, keeps};
use crate::row::merge_rows;
use std::alloc::AllocError;

impl Bands {
    /// Makes these the bands of the pixels that are kept, by whether they are in each of two sets.
    pub(crate) fn merge(&mut self, a: Rest<'_>, b: Rest<'_>, how: Combine) -> Result<(), AllocError>
        requires a_open { IsOpen a.row.now a.start a.steps.now a.edges.now }
        requires b_open { IsOpen b.row.now b.start b.steps.now b.edges.now }
        ensures { OnOk result (IsBandMerge (keeps how) 0 [] (bands_of a.entry.start a.entry.steps.now a.entry.edges.now) [] (bands_of b.entry.start b.entry.steps.now b.entry.edges.now) [] self.new) }
    {
        self.clear();
        let mut left = a;
        let mut right = b;
        while let Some(y) = next_top(left, right) {
            left = pass(left, y);
            right = pass(right, y);
            self.push_row(y, left.row, right.row, how)?;
        }
        self.add_kept(left, keeps(how, true, false))?;
        self.add_kept(right, keeps(how, false, true))
    }

    /// Adds the bands that are left, or nothing.
    fn add_kept(&mut self, rest: Rest<'_>, keep: bool) -> Result<(), AllocError>
        requires { IsFlat (length rest.edges.now) rest.start rest.steps.now }
        ensures { OnOk result (self.new ≡ self.old ++ kept_bands keep (bands_of rest.entry.start rest.entry.steps.now rest.entry.edges.now)) }
    {
        if keep && !rest.steps.is_empty() {
            self.add_bands(rest)
        } else {
            Ok(())
        }
    }

    /// Adds the bands that are left.
    fn add_bands(&mut self, rest: Rest<'_>) -> Result<(), AllocError>
        requires { IsFlat (length rest.edges.now) rest.start rest.steps.now }
        ensures { OnOk result (self.new ≡ self.old ++ bands_of rest.entry.start rest.entry.steps.now rest.entry.edges.now) }
    {
        let end = last_run(&self.steps, &self.edges).end;
        self.edges.truncate(end);
        self.edges.extend_from_slice(edges_of(rest))?;
        add_moved(&mut self.steps, rest.steps, rest.start, end)?;
        Ok(())
    }

    /// Takes all bands away, and keeps their room.
    fn clear(&mut self)
        ensures { self.new ≡ [] }
    {
        self.steps.clear();
    }

    /// Adds a band from row y down, with the edges that two rows there merge to, unless the last
    /// band has them.
    fn push_row(&mut self, y: u32, a: &[u32], b: &[u32], how: Combine) -> Result<(), AllocError>
        requires a_row { IsRow 1000000 0 false a.now }
        requires b_row { IsRow 1000000 0 false b.now }
        ensures { OnOk result (PushesRow (keeps how) y a.now b.now self.old self.new) }
    {
        let last = last_run(&self.steps, &self.edges);
        self.edges.truncate(last.end);
        merge_rows(&mut self.edges, a, b, how)?;
        if !same_row(&self.edges[last.end..], &self.edges[last.start..last.end]) {
            let end = self.edges.len();
            self.steps.push(Step { top: y, end })?;
        }
        Ok(())
    }
}

/// The edges of the bands that are left.
fn edges_of(rest: Rest<'_>) -> &[u32]
    requires { IsFlat (length rest.edges.now) rest.start rest.steps.now }
    ensures { result.now ≡ drop rest.entry.start rest.entry.edges.now }
{
    let (_, edges) = rest.edges.split_at(rest.start);
    edges
}

/// Adds steps whose edges stood from `from` on, and stand from `to` on.
fn add_moved(
    steps: &mut Vec<Step>,
    added: &[Step],
    from: usize,
    to: usize,
) -> Result<(), AllocError>
    requires { All (CanMove from to) added.now }
    ensures ok { OnOk result (steps.new.items ≡ steps.old.items ++ map (moved from to) added.now) }
    ensures err { OnErr result (steps.new.items ≡ steps.old.items) }
{
    let at = steps.len();
    steps.extend_from_slice(added)?;
    move_ends(&mut steps[at..], from, to);
    Ok(())
}

/// Moves the ends of steps whose edges stood from `from` on, and stand from `to` on.
fn move_ends(steps: &mut [Step], from: usize, to: usize)
    requires { All (CanMove from to) steps.old }
    ensures { steps.new ≡ map (moved from to) steps.old }
{
    for i in 0..steps.len() {
        steps[i] = moved(steps[i], from, to);
    }
}

/// The step with its end moved.
fn moved(step: Step, from: usize, to: usize) -> Step
    requires { CanMove from to step }
    ensures { result ≡ moved from to step }
{
    Step {
        top: step.top,
        end: step.end - from + to,
    }
}

/// What is left from row y down, where no band begins above it.
#[inline(always)]
fn pass<'a>(rest: Rest<'a>, y: u32) -> Rest<'a>
    requires { IsReading y rest.row.now rest.start rest.steps.now rest.edges.now }
    ensures reading { IsReading (y + 1) result.row.now result.start result.steps.now result.edges.now }
    ensures passes { PassesTop y rest.entry.row.now (bands_of rest.entry.start rest.entry.steps.now rest.entry.edges.now) result.row.now (bands_of result.start result.steps.now result.edges.now) }
{
    match rest.steps {
        [step, below @ ..] if step.top == y => Rest {
            row: &rest.edges[rest.start..step.end],
            start: step.end,
            steps: below,
            edges: rest.edges,
        },
        _ => rest,
    }
}

/// The first row at which a band of either begins, or none where one of them has no bands left.
#[inline(always)]
fn next_top(a: Rest<'_>, b: Rest<'_>) -> Option<u32>
    ensures { MatchOption result
        ((bands_of a.entry.start a.entry.steps.now a.entry.edges.now ≡ []) ⊎ (bands_of b.entry.start b.entry.steps.now b.entry.edges.now ≡ []))
        (λ y. IsNextTop y (bands_of a.entry.start a.entry.steps.now a.entry.edges.now) (bands_of b.entry.start b.entry.steps.now b.entry.edges.now)) }
{
    match (a.steps, b.steps) {
        ([first, ..], [second, ..]) => Some(first.top.min(second.top)),
        _ => None,
    }
}

fn same_row(a: &[u32], b: &[u32]) -> bool
    ensures { IsTrue result ↔ (a.now ≡ b.now) }
{
    a == b
}
