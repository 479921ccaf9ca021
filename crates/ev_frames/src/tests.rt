// A frame of three tiles, drawn job by job.
ghost use Rattle.std.specs.Prelude.{◌≡◌, None, IfOk, IsSome};
ghost use Rattle.ev_geom.specs.Bands.{has_pixel};
ghost use Rattle.ev_region.specs.Count.{LiesWithin};
ghost use Rattle.ev_model.specs.Capture.{IsLookOn};
ghost use Rattle.ev_model.specs.Look.{look_of};
ghost use Rattle.ev_frames.specs.Running.{AreOn};

use crate::{Easel, NoMemory};
use ev_argb::Pixel;
use ev_buffers::Plan;
use ev_cmds::Commands;
use ev_geom::Rect;
use ev_model::{Content, Name, Object, Op, Record};
use ev_region::Region;
use ev_state::{Shared, Tally};
use std::alloc::Global;
use std::test::Fail;

// A red rectangle on all of a canvas of 130 by 64.
fn red(alloc: Global) -> Result<Record, Fail>
    ensures { IfOk result (λ r. IsLookOn 130 64 (look_of r)) }
{
    let mut tally = Tally::new();
    let object = Object {
        id: 1,
        name: Name::read(b"o").ok_or("name")?,
        rect: Rect::at_origin(130, 64),
        shown: true,
        color: Pixel::new(255, 255, 0, 0),
        op: Op::Blend,
        layer: 0,
        clipper: None,
        parent: None,
        content: Content::Rect,
    };
    Ok(Record {
        id: 1,
        area: Rect::at_origin(130, 64),
        color: Pixel::new(255, 255, 0, 0),
        object: Shared::make(alloc, object, &mut tally)?,
    })
}

// The commands of a frame that paints the rectangle.
fn commands(alloc: Global, plan: &Plan) -> Result<Commands, Fail>
    requires { LiesWithin 130 64 (has_pixel plan.now.work) }
    ensures { IfOk result (AreOn 130 64 (has_pixel plan.now.work)) }
{
    let record = red(alloc)?;
    Ok(Commands::build(alloc, &[&record], plan.work(), 130, 64)?)
}

// All pixels of the canvas.
fn whole(alloc: Global) -> Result<Region, NoMemory>
    ensures { IfOk result (λ all. LiesWithin 130 64 (has_pixel all)) }
{
    let mut all = Region::new(alloc);
    all.add_rect(&Rect::at_origin(130, 64))?;
    Ok(all)
}

// A frame that was started on a new picture.
fn started(alloc: Global) -> Result<Easel, Fail>
    ensures { IfOk result (λ easel. IsSome easel.frame) }
{
    let mut easel = Easel::create(alloc, 1, 130, 64)?;
    let plan = easel.plan(alloc, &whole(alloc)?, &Region::new(alloc))?;
    let commands = commands(alloc, &plan)?;
    easel.start(alloc, plan, commands)?;
    Ok(easel)
}

// How many jobs are drawn by steps of one, nine and nine jobs.
fn steps(easel: &mut Easel) -> [u32; 3]
    ensures { IsSome easel.old.frame → IsSome easel.new.frame }
{
    [easel.step(1), easel.step(9), easel.step(9)]
}

// Draws what is left of the frame, and ends it.
fn end(easel: &mut Easel)
    requires { IsSome easel.old.frame }
    ensures { easel.new.frame ≡ None }
{
    let left = easel.left();
    easel.step(left);
    easel.close();
}

// The pixel in the last column and row of the picture that was drawn last.
fn corner(easel: &Easel) -> u32 {
    let Some(picture) = easel.last() else {
        return 0;
    };
    if picture.width() < 130 || picture.height() < 64 {
        return 0;
    }
    picture.get(129, 63).bits()
}

#[test]
fn frames_are_drawn_job_by_job(rt: HostRuntime) -> Result<(), Fail> {
    let mut easel = started(rt.alloc())?;
    assert_eq!(rt; easel.painted(), 130 * 64);
    assert_eq!(rt; corner(&easel), 0);
    assert_eq!(rt; steps(&mut easel), [1, 2, 0]);
    assert_eq!(rt; easel.drawn(), 3);
    end(&mut easel);
    assert_eq!(rt; easel.painted(), 2 * 130 * 64);
    assert_eq!(rt; corner(&easel), 0xffff_0000);
    Ok(())
}
