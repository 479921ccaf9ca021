// What a tile sees of edges.
ghost use Rattle.std.specs.Prelude.{◌≡◌, ◌+◌, ◌≤◌, ◌<◌, nat_lt, ◌&&◌};
ghost use Rattle.ev_cmds.specs.SeenEdges as parts;

use crate::Patch;
use ev_areas::Edges;
use ev_argb::PLANE_SIDE;

// Whether edges have rows among the 64 from this one on.
pub(crate) fn meets_rows(edges: &Edges, top: u32) -> bool
    requires { top ≤ 4096 }
    ensures { result ≡ (nat_lt edges.now.top (top + 64) && nat_lt top edges.now.bottom) }
{
    edges.top < top + PLANE_SIDE && top < edges.bottom
}

// What the tile at this place sees of them, counted from the tile's top left.
pub(crate) fn part_on(edges: &Edges, left: u32, top: u32) -> Option<Patch>
    ensures { parts.IsPartOn edges.now left top result }
{
    let part_left = edges.left.saturating_sub(left);
    let part_right = edges.right.saturating_sub(left).min(PLANE_SIDE);
    let part_top = edges.top.saturating_sub(top);
    let part_bottom = edges.bottom.saturating_sub(top).min(PLANE_SIDE);
    if part_left < part_right && part_top < part_bottom {
        Some(Patch {
            left: part_left as u8,
            right: part_right as u8,
            top: part_top as u8,
            bottom: part_bottom as u8,
        })
    } else {
        None
    }
}
