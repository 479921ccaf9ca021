// Sets of pixels as bands of equal rows, in two lists. Clauses see the list of bands.
ghost use Rattle.std.specs.Prelude.{◌≡◌, ◌≤◌, ◌<◌, [], false, length, slice_range, IfOk};
ghost use Rattle.ev_geom.specs.Bands.{row_at, IsRow, IsBands};
ghost use Rattle.ev_region.specs.BandMerge.{last_edges};
ghost use Rattle.ev_region.specs.Flat.{bands_of, start_at, IsFlat};

use std::alloc::{AllocError, Global};
use std::marker::Model;

/// A band begins at row `top` and lasts to the next one. Its edges begin where those of the band
/// above it end, and end at `end`.
#[derive(Clone, Copy)]
pub(crate) struct Step {
    pub(crate) top: u32,
    pub(crate) end: usize,
}

/// The bands of a set of pixels: a step for each, and the edges of all.
#[derive(Drop)]
pub(crate) struct Bands {
    pub(crate) steps: Vec<Step>,
    pub(crate) edges: Vec<u32>,
}

impl Model for Bands {
    ghost use Rattle.std.specs.Prelude.{List, length};
    ghost use Rattle.ev_geom.specs.Bands.{Band};
    ghost use Rattle.ev_region.specs.Flat.{bands_of, IsFlat};

    ghost Value = { List Band };

    ghost view = { λ bands. bands_of 0 bands.steps.items bands.edges.items };

    ghost invariant = { λ bands. IsFlat (length bands.edges.items) 0 bands.steps.items };
}

/// Bands that are read from the top: the edges of the row that was reached, and what stands below.
#[derive(Clone, Copy)]
pub(crate) struct Rest<'a> {
    pub(crate) row: &'a [u32],
    pub(crate) start: usize,
    pub(crate) steps: &'a [Step],
    pub(crate) edges: &'a [u32],
}

impl Bands {
    /// No bands.
    pub(crate) fn new(alloc: Global) -> Bands
        ensures { result ≡ [] }
    {
        Bands {
            steps: Vec::new(alloc),
            edges: Vec::new(alloc),
        }
    }

    /// The same bands again.
    pub(crate) fn copied(&self) -> Result<Bands, AllocError>
        ensures { IfOk result (λ bands. bands ≡ self.now) }
    {
        let alloc = *self.steps.allocator();
        let steps = Vec::from_slice(alloc, &self.steps)?;
        let edges = Vec::from_slice(alloc, &self.edges)?;
        Ok(Bands { steps, edges })
    }

    /// The bands, to be read from the top.
    pub(crate) fn rest(&self) -> Rest<'_>
        ensures row { result.row.now ≡ [] }
        ensures bands { bands_of result.start result.steps.now result.edges.now ≡ self.now }
        ensures flat { IsFlat (length result.edges.now) result.start result.steps.now }
    {
        Rest {
            row: &[],
            start: 0,
            steps: &self.steps,
            edges: &self.edges,
        }
    }

    /// The edges of row y.
    pub(crate) fn row_at(&self, y: u32) -> &[u32]
        requires { IsBands 1000000 0 [] self.now }
        ensures edges { result.now ≡ row_at [] self.now y }
        ensures row { IsRow 1000000 0 false result.now }
    {
        let below = self.steps.partition_point(|step| step.top <= y);
        last_row(&self.steps[..below], &self.edges)
    }
}

/// The edges of the last band, or of a row without pixels.
pub(crate) fn last_row<'a>(steps: &[Step], edges: &'a [u32]) -> &'a [u32]
    requires { IsFlat (length edges.now) 0 steps.now }
    ensures { result.now ≡ last_edges (bands_of 0 steps.now edges.now) }
{
    let run = last_run(steps, edges);
    &edges[run.start..run.end]
}

/// Where the edges of one band stand.
#[derive(Clone, Copy)]
pub(crate) struct Run {
    pub(crate) start: usize,
    pub(crate) end: usize,
}

/// Where the edges of the last band stand, or none at the beginning.
pub(crate) fn last_run(steps: &[Step], edges: &[u32]) -> Run
    requires { IsFlat (length edges.now) 0 steps.now }
    ensures row { slice_range edges.now result.start result.end ≡ last_edges (bands_of 0 steps.now edges.now) }
    ensures end { result.end ≡ start_at 0 steps.now (length steps.now) }
    ensures order { result.start ≤ result.end }
    ensures size { result.end ≤ length edges.now }
{
    let count = steps.len();
    if count == 0 {
        Run { start: 0, end: 0 }
    } else {
        Run {
            start: start_at(steps, count - 1),
            end: start_at(steps, count),
        }
    }
}

/// Where the edges of band k begin.
fn start_at(steps: &[Step], k: usize) -> usize
    requires { k ≤ length steps.now }
    ensures { result ≡ start_at 0 steps.now k }
{
    if k == 0 { 0 } else { steps[k - 1].end }
}
