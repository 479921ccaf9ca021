// Frames on two buffers, against the areas that have to be drawn.
ghost use Rattle.std.specs.Prelude.{◌≡◌, false};
ghost use Rattle.ev_geom.specs.Bands.{has_pixel};
ghost use Rattle.ev_region.specs.Count.{LiesWithin};
ghost use Rattle.ev_buffers.specs.BufferChain.{is_lent};

use crate::{Buffers, NoMemory};
use ev_geom::Rect;
use ev_region::Region;
use std::alloc::Global;
use std::test::Fail;

// Draws a frame, and says how many pixels it had to draw.
fn frame(
    alloc: Global,
    buffers: &mut Buffers,
    updates: &Region,
    hidden: &Region,
) -> Result<u64, NoMemory>
    requires home { is_lent buffers.old ≡ false }
    requires within { LiesWithin buffers.old.w buffers.old.h (has_pixel updates.now) }
    ensures home { is_lent buffers.new ≡ false }
    ensures width { buffers.new.w ≡ buffers.old.w }
    ensures height { buffers.new.h ≡ buffers.old.h }
{
    let plan = buffers.plan(alloc, updates, hidden)?;
    let area = plan.work().area();
    let loan = buffers.lend(plan);
    buffers.give_back(loan);
    Ok(area)
}

#[test]
fn frames_on_one_buffer(rt: HostRuntime) -> Result<(), Fail> {
    let alloc = rt.alloc();
    let none = Region::new(alloc);
    let mut corner = Region::new(alloc);
    corner.add_rect(&Rect::at_origin(8, 8))?;
    let mut buffers = Buffers::create(alloc, 1, 256, 64)?;
    assert!(rt; buffers.last().is_none());
    assert_eq!(rt; frame(alloc, &mut buffers, &none, &corner)?, 16320);
    assert_eq!(rt; frame(alloc, &mut buffers, &corner, &none)?, 64);
    assert!(rt; buffers.last().is_some());
    Ok(())
}
