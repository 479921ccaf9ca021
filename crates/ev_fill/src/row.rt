// Rows of samples out of one row of an image, by places of the fill.
ghost use Rattle.std.specs.Prelude.{◌≡◌, ◌+◌, ◌%◌, ◌≤◌, ◌<◌, length, map};
ghost use Rattle.std.specs.List.{range_with_len};
ghost use Rattle.ev_model.specs.Axis.{IsAxis};
ghost use Rattle.ev_fill.specs.Parts.{StaysInPart, place_sample};

use crate::form::Form;
use crate::run::fill_run;
use ev_argb::Pixel;
use ev_model::Axis;

// The sample at place u of the fill.
pub(crate) fn place_sample(row: &[Pixel], columns: &Axis, hidden: bool, u: u32) -> Option<Pixel>
    requires axis { IsAxis columns.now }
    requires row { length row.now ≡ columns.now.source }
    requires place { u < columns.now.len }
    ensures { result ≡ place_sample row.now columns.now hidden u }
{
    if hidden && columns.is_middle(u) {
        return None;
    }
    let x = columns.source_at(u)?;
    Some(row[x as usize])
}

// The samples at place `phase` of the fill and those after it, run by run. Behind its last place the
// fill begins anew.
pub(crate) fn fill_row<T: Form>(
    row: &[Pixel],
    columns: &Axis,
    hidden: bool,
    phase: u32,
    into: &mut [T],
)
    requires axis { IsAxis columns.now }
    requires row { length row.now ≡ columns.now.source }
    requires place { phase < columns.now.len }
    ensures { into.new ≡ map (λ u. T.form (place_sample row.now columns.now hidden (u % columns.now.len))) (range_with_len phase (length into.old)) }
{
    let mut done = 0;
    let mut u = phase;
    while done < into.len() {
        let len = (run_len(columns, u) as usize).min(into.len() - done);
        fill_run(row, columns, hidden, u, &mut into[done..done + len]);
        done += len;
        u = wrapped(u + len as u32, columns.len);
    }
}

// The place after the last one is the first one.
fn wrapped(u: u32, len: u32) -> u32
    requires some { 0 < len }
    requires place { u ≤ len }
    ensures { result ≡ u % len }
{
    if u == len { 0 } else { u }
}

// How many places there are from this one to the end of its part.
fn run_len(columns: &Axis, u: u32) -> u32
    requires { u < columns.now.len }
    ensures some { 0 < result }
    ensures part { StaysInPart columns.now u result }
{
    let low = columns.low_part();
    let high = columns.len - columns.high_part();
    if u < low {
        low - u
    } else if u < high {
        high - u
    } else {
        columns.len - u
    }
}
