// Runs: places of the fill that lie in one part of it.
ghost use Rattle.std.specs.Prelude.{◌≡◌, ◌+◌, ◌*◌, ◌/◌, ◌^◌, ◌≤◌, ◌<◌, ◌==◌, ◌||◌, length, map, replicate, slice_get, None};
ghost use Rattle.std.specs.List.{range_with_len};
ghost use Rattle.ev_model.specs.Axis.{IsAxis};
ghost use Rattle.ev_fill.specs.Parts.{StaysInPart, place_sample};

use crate::form::Form;
use ev_argb::Pixel;
use ev_model::Axis;

// What the inverse of a length is scaled by.
const SCALE: u64 = 1 << 52;

// The samples of a run that begins at place u.
pub(crate) fn fill_run<T: Form>(row: &[Pixel], columns: &Axis, hidden: bool, u: u32, into: &mut [T])
    requires axis { IsAxis columns.now }
    requires row { length row.now ≡ columns.now.source }
    requires part { StaysInPart columns.now u (length into.old) }
    requires place { u < columns.now.len }
    ensures { into.new ≡ map (λ u. T.form (place_sample row.now columns.now hidden u)) (range_with_len u (length into.old)) }
{
    let low = columns.low_part();
    let source = columns.middle_source();
    let part = columns.middle_part();
    if u < low {
        copy_run(row, u, into);
    } else if columns.len - columns.high_part() <= u {
        copy_run(row, columns.source - (columns.len - u), into);
    } else if has_no_samples(hidden, source) {
        empty(into);
    } else if source == part {
        copy_run(row, columns.low_source() + (u - low), into);
    } else {
        let middle = &row[columns.low_source() as usize..];
        stretch_run(middle, u - low, source, part, into);
    }
}

// Whether there is nothing between the borders.
fn has_no_samples(hidden: bool, source: u32) -> bool
    ensures { result ≡ (hidden || source == 0) }
{
    hidden || source == 0
}

// Pixels that stand side by side.
fn copy_run<T: Form>(row: &[Pixel], from: u32, into: &mut [T])
    requires { from + length into.old ≤ length row.now }
    ensures { into.new ≡ map (λ x. T.form (slice_get row.now x)) (range_with_len from (length into.old)) }
{
    let from = from as usize;
    T::copy(into, &row[from..from + into.len()]);
}

// Places of the middle, which is stretched or shrunk: place u of it has the pixel at u * source / part.
fn stretch_run<T: Form>(middle: &[Pixel], from: u32, source: u32, part: u32, into: &mut [T])
    requires source { source ≤ length middle.now }
    requires some { (0 < source) × (source ≤ 4096) }
    requires place { (from + length into.old ≤ part) × (part ≤ 1000000) × (0 < part) }
    ensures { into.new ≡ map (λ u. T.form (slice_get middle.now (u * source / part))) (range_with_len from (length into.old)) }
{
    let inverse = SCALE / u64::from(part) + 1;
    for k in 0..into.len() {
        let u = u64::from(from) + k as u64;
        into[k] = T::of(middle[stretched(u, source, part, inverse)]);
    }
}

// u * source / part, as a multiplication by the scaled inverse of part, since divisions are slow. The
// inverse is rounded up, by too little to change a quotient below 4096.
#[inline(always)]
fn stretched(u: u64, source: u32, part: u32, inverse: u64) -> usize
    requires place { u < part }
    requires part { part ≤ 1000000 }
    requires source { (0 < source) × (source ≤ 4096) }
    requires inverse { inverse ≡ 2 ^ 52 / part + 1 }
    ensures value { result ≡ u * source / part }
    ensures within { result < source }
{
    (u * u64::from(source) * inverse / SCALE) as usize
}

// No samples at all.
pub(crate) fn empty<T: Form>(into: &mut [T])
    ensures { into.new ≡ replicate (length into.old) (T.form None) }
{
    for k in 0..into.len() {
        into[k] = T::nothing();
    }
}
