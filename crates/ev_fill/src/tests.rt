// Two worked examples, row by row.
ghost use Rattle.std.specs.Prelude.{◌≤◌, IfOk};
ghost use Rattle.ev_model.specs.Limits.{IsFill};

use crate::{pixel_row, sample, sample_row};
use ev_argb::Pixel;
use ev_model::{Border, Fill, Image, ImagePart, LoadedImage};
use std::alloc::{AllocError, Global};
use std::process::Abort;
use std::sync::Arc;
use std::test::Fail;

// An image of side * side equal pixels, with the same border on each side, without its centre.
fn framed(
    alloc: Global,
    side: u32,
    color: Pixel,
    fill: Fill,
    border: u32,
) -> Result<ImagePart, AllocError>
    requires side { (1 ≤ side) × (side ≤ 4096) }
    requires fill { IsFill fill }
    ensures { IfOk result (λ part. IsFill part.fill) }
{
    let pixels = vec![in alloc; color; side as usize * side as usize]?;
    let image = Arc::new(alloc, Image::new(side, side, pixels))?;
    Ok(ImagePart {
        key: None,
        loaded: Some(LoadedImage::new(1, image)),
        fill,
        border: Border {
            l: border,
            r: border,
            t: border,
            b: border,
        },
        center: false,
    })
}

// In an object of 4 by 4, whose rows are these.
fn check<R: Abort>(rt: &R, part: &ImagePart, rows: [[Pixel; 4]; 4])
    requires { IsFill part.now.fill }
{
    for j in 0..4u32 {
        let mut row = [Pixel::new(255, 255, 255, 255); 4];
        pixel_row(part, 4, 4, 0, j, &mut row);
        let mut samples = [None; 4];
        sample_row(part, 4, 4, 0, j, &mut samples);
        let expected = rows[j as usize];
        assert!(rt; row == expected);
        for i in 0..4u32 {
            let one = sample(part, 4, 4, i, j);
            let among = samples[i as usize];
            let blended = row[i as usize];
            assert!(rt; one == among && one.unwrap_or(Pixel::CLEAR) == blended);
        }
    }
}

#[test]
fn borders_without_a_centre(rt: HostRuntime) -> Result<(), Fail> {
    let none = Pixel::CLEAR;
    let green = Pixel::new(255, 0, 255, 0);
    let fill = Fill::Area {
        x: -1,
        y: -1,
        w: 3,
        h: 3,
    };
    let dot = framed(rt.alloc(), 1, green, fill, 5)?;
    let corner = [none, none, green, none];
    check(&rt, &dot, [[none; 4], [none; 4], corner, [none; 4]]);
    let blue = Pixel::new(255, 0, 0, 255);
    let frame = framed(rt.alloc(), 3, blue, Fill::Filled, 1)?;
    let sides = [blue, none, none, blue];
    check(&rt, &frame, [[blue; 4], sides, sides, [blue; 4]]);
    Ok(())
}
