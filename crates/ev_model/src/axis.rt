// One axis of an image that fills an object: the columns, or the rows.
ghost use Rattle.std.specs.Prelude.{◌≡◌, ℕ, ◌+◌, ◌-◌, ◌*◌, ◌/◌, ◌≤◌, ◌<◌, min, IfSome};
ghost use Rattle.ev_model.specs.Axis.{IsAxis};
ghost use Rattle.ev_model.specs.Limits.{IsFill};
ghost use Rattle.ev_model.specs.Sample.{columns_of, rows_of};

use crate::{Fill, Image, ImagePart};

/// Where a fill starts in its object and how long it is, how long the image is, and how much of it
/// keeps its size at the low end and at the high end, all in pixels (docs/CANVAS.md, "Samples").
#[derive(Clone, Copy)]
pub struct Axis {
    pub start: i32,
    pub len: u32,
    pub source: u32,
    pub low: u32,
    pub high: u32,
}

impl Axis {
    ghost use Rattle.ev_model.specs.Axis.{phase, low_source, high_source, low_part, high_part, middle_source, middle_part, is_middle, source_at};

    /// The place in the fill of place i of the object.
    pub fn phase(&self, i: u32) -> u32
        requires axis { IsAxis self.now }
        requires place { i ≤ 2000000 }
        ensures value { result ≡ phase self.now i }
        ensures within { result < self.now.len }
    {
        (i64::from(i) - i64::from(self.start)).rem_euclid(i64::from(self.len)) as u32
    }

    /// How much of the image its low border takes.
    pub fn low_source(&self) -> u32
        ensures { result ≡ low_source self.now }
    {
        self.low.min(self.source)
    }

    /// How much of the image its high border takes.
    pub fn high_source(&self) -> u32
        ensures { result ≡ high_source self.now }
    {
        self.high.min(self.source - self.low_source())
    }

    /// How much of the fill the low border takes.
    pub fn low_part(&self) -> u32
        ensures { result ≡ low_part self.now }
    {
        self.low_source().min(self.len)
    }

    /// How much of the fill the high border takes.
    pub fn high_part(&self) -> u32
        ensures { result ≡ high_part self.now }
    {
        self.high_source().min(self.len - self.low_part())
    }

    /// How much of the image lies between its borders.
    pub fn middle_source(&self) -> u32
        ensures { result ≡ middle_source self.now }
    {
        self.source - self.low_source() - self.high_source()
    }

    /// How much of the fill lies between the borders.
    pub fn middle_part(&self) -> u32
        ensures { result ≡ middle_part self.now }
    {
        self.len - self.low_part() - self.high_part()
    }

    /// Whether a place of the fill lies between the borders.
    pub fn is_middle(&self, u: u32) -> bool
        ensures { result ≡ is_middle self.now u }
    {
        self.low_part() <= u && u < self.len - self.high_part()
    }

    /// The place in the image of place u of the fill. None where u lies between the borders and
    /// the image has nothing there.
    pub fn source_at(&self, u: u32) -> Option<u32>
        requires axis { IsAxis self.now }
        requires place { u < self.now.len }
        ensures value { result ≡ source_at self.now u }
        ensures within { IfSome result (λ x. x < self.now.source) }
    {
        if u < self.low_part() {
            return Some(u);
        }
        if self.len - self.high_part() <= u {
            return Some(self.source - (self.len - u));
        }
        let middle = self.middle_source();
        if middle == 0 {
            return None;
        }
        let offset = u - self.low_part();
        let stretched = u64::from(offset) * u64::from(middle) / u64::from(self.middle_part());
        Some(self.low_source() + stretched as u32)
    }
}

impl ImagePart {
    /// The columns of an image in an object that is w pixels wide (docs/CANVAS.md, "Samples").
    pub fn columns(&self, image: &Image, w: u32) -> Axis
        ensures value { result ≡ columns_of self.now image.now w }
        ensures axis { IsFill self.now.fill → w ≤ 1000000 → 0 < result.len → IsAxis result }
        ensures source { result.source ≡ image.now.w }
    {
        let (start, len) = match self.fill {
            Fill::Filled => (0, w),
            Fill::Area { x, w, .. } => (x, w),
        };
        Axis {
            start,
            len,
            source: image.width(),
            low: self.border.l,
            high: self.border.r,
        }
    }

    /// The rows of an image in an object that is h pixels high (docs/CANVAS.md, "Samples").
    pub fn rows(&self, image: &Image, h: u32) -> Axis
        ensures value { result ≡ rows_of self.now image.now h }
        ensures axis { IsFill self.now.fill → h ≤ 1000000 → 0 < result.len → IsAxis result }
        ensures source { result.source ≡ image.now.h }
    {
        let (start, len) = match self.fill {
            Fill::Filled => (0, h),
            Fill::Area { y, h, .. } => (y, h),
        };
        Axis {
            start,
            len,
            source: image.height(),
            low: self.border.t,
            high: self.border.b,
        }
    }
}
