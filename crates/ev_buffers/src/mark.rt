// What is kept of a buffer beside its picture.
ghost use Rattle.std.specs.Prelude.{◌≡◌, ◌≤◌, None, IfOk};
ghost use Rattle.ev_geom.specs.Bands.{IsBandsOf};

use crate::NoMemory;
use ev_geom::Rect;
use ev_region::Region;
use std::alloc::Global;

/// What is stale in a buffer, and the updates of the plan by which it was lent last, if it ever was.
#[derive(Drop)]
pub struct Mark {
    pub stale: Region,
    pub updates: Option<Region>,
}

impl Mark {
    ghost use Rattle.ev_buffers.specs.Marks.{IsJoined, IsNextOf, in_picture};

    /// The mark of a buffer of w by h pixels that was never lent: all is stale. NoMemory where there
    /// is no room.
    pub fn unused(alloc: Global, w: u32, h: u32) -> Result<Mark, NoMemory>
        requires width { w ≤ 4096 }
        requires height { h ≤ 4096 }
        ensures stale { IfOk result (λ mark. IsBandsOf (in_picture w h) mark.stale) }
        ensures updates { IfOk result (λ mark. mark.updates ≡ None) }
    {
        let mut stale = Region::new(alloc);
        stale.add_rect(&Rect::at_origin(w, h))?;
        Ok(Mark {
            stale,
            updates: None,
        })
    }

    /// The marks once the buffer before these was lent: the updates are stale in these others, and
    /// the lent buffer follows them with nothing stale. NoMemory where there is no room.
    pub fn next_marks(
        alloc: Global,
        others: &[Mark],
        updates: &Region,
    ) -> Result<Vec<Mark>, NoMemory>
        ensures { IfOk result (λ marks. IsNextOf updates.now others.now marks.items) }
    {
        let mut marks = Vec::new(alloc);
        for other in others {
            marks.push(other.joined(updates)?)?;
        }
        let lent = Mark {
            stale: Region::new(alloc),
            updates: Some(updates.copied()?),
        };
        marks.push(lent)?;
        Ok(marks)
    }

    // The mark with these updates stale too.
    fn joined(&self, updates: &Region) -> Result<Mark, NoMemory>
        ensures { IfOk result (λ mark. IsJoined updates.now self.now mark) }
    {
        let mut stale = self.stale.copied()?;
        stale.unite(updates)?;
        let updates = copied(&self.updates)?;
        Ok(Mark { stale, updates })
    }
}

// A copy of the region, if there is one.
fn copied(region: &Option<Region>) -> Result<Option<Region>, NoMemory>
    ensures { IfOk result (λ copy. copy ≡ region.now) }
{
    match region {
        Some(region) => Ok(Some(region.copied()?)),
        None => Ok(None),
    }
}
