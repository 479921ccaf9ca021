// The tiles that a region meets.
ghost use Rattle.std.specs.Prelude.{◌≡◌, ◌≤◌, ◌<◌, pos, IfOk};
ghost use Rattle.ev_geom.specs.Bands.{has_pixel};
ghost use Rattle.ev_geom.specs.Tiles.{tiles_along, jobs_of};

use crate::NoMemory;
use ev_argb::PLANE_SIDE;
use ev_region::Region;
use std::alloc::Global;

/// The tiles of a picture of w by h pixels that hold a pixel of the region, in the order of their
/// numbers. NoMemory where there is no room (docs/ARCHITECTURE.md, Tiles).
pub fn jobs(alloc: Global, region: &Region, w: u32, h: u32) -> Result<Vec<u32>, NoMemory>
    requires width { w ≤ 4096 }
    requires height { h ≤ 4096 }
    ensures { IfOk result (λ tiles. tiles.items ≡ jobs_of (has_pixel region.now) w h) }
{
    let columns = tiles_along(w);
    let tiles_met = region.snap(PLANE_SIDE, w, h)?;
    let mut tiles = Vec::new(alloc);
    for tile in 0..tiles_along(h) * columns {
        if has(
            &tiles_met,
            tile % columns * PLANE_SIDE,
            tile / columns * PLANE_SIDE,
        ) {
            tiles.push(tile)?;
        }
    }
    Ok(tiles)
}

// Whether the pixel in this column and row is in the region.
fn has(region: &Region, column: u32, row: u32) -> bool
    requires column { column ≤ 4096 }
    requires row { row ≤ 4096 }
    ensures { result ≡ has_pixel region.now (pos column) (pos row) }
{
    region.has(column as i32, row as i32)
}

// How many tiles stand side by side along this length.
fn tiles_along(len: u32) -> u32
    requires { len ≤ 4096 }
    ensures { result ≡ tiles_along len }
{
    len.div_ceil(PLANE_SIDE)
}
