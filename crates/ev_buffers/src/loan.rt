// A lent picture, whose planes go out one by one.
ghost use Rattle.std.specs.Prelude.{◌≡◌, ◌+◌, ◌<◌, length, slice_index, Some, None};
ghost use Rattle.ev_argb.specs.Grid.{plane_of, with_plane, painted_in, painted_of, FitsPlace};
ghost use Rattle.ev_argb.specs.Tile.{Tile};

use ev_argb::{Picture, Plane};
use std::marker::Model;

/// A lent picture, and the tiles of its jobs, counted from 0: the k-th job draws the plane of the
/// k-th tile (docs/ARCHITECTURE.md, Buffers).
#[derive(Drop)]
pub struct Loan {
    pub(crate) picture: Picture,
    pub(crate) tiles: Vec<u32>,
}

impl Model for Loan {
    ghost use Rattle.ev_buffers.specs.BufferChain.{Lent, IsLoan};

    ghost Value = { Lent };

    ghost view = { λ l. record { picture = l.picture; tiles = l.tiles.items } };

    ghost invariant = { λ l. IsLoan (record { picture = l.picture; tiles = l.tiles.items }) };
}

impl Loan {
    ghost use Rattle.ev_buffers.specs.Kept.{KeepsByTaking, KeepsByPutting};

    /// Takes the plane of the k-th job out. None exactly where it was taken and isn't back
    /// (docs/ARCHITECTURE.md, Buffers).
    pub fn take(&mut self, k: u32) -> Option<Plane>
        requires { k < length self.old.tiles }
        ensures plane { result ≡ plane_of self.old.picture (slice_index self.old.tiles k) }
        ensures size { FitsPlace self.old.picture.w self.old.picture.h (slice_index self.old.tiles k) result }
        ensures left { self.new ≡ record self.old { picture = with_plane self.old.picture (slice_index self.old.tiles k) None } }
        ensures painted { painted_of self.old.picture ≡ painted_of self.new.picture + painted_in result }
        ensures kept { KeepsByTaking self.old k result self.new }
    {
        self.picture.take_plane(self.tiles[k as usize])
    }

    /// Puts the plane of the k-th job back. It was taken and isn't back, and the plane has its size
    /// (docs/ARCHITECTURE.md, Buffers).
    pub fn put(&mut self, k: u32, plane: Plane)
        requires job { k < length self.old.tiles }
        requires taken { plane_of self.old.picture (slice_index self.old.tiles k) ≡ None }
        requires size { FitsPlace self.old.picture.w self.old.picture.h (slice_index self.old.tiles k) (Some plane) }
        ensures back { self.new ≡ record self.old { picture = with_plane self.old.picture (slice_index self.old.tiles k) (Some plane) } }
        ensures painted { painted_of self.new.picture ≡ painted_of self.old.picture + plane.painted }
        ensures kept { KeepsByPutting self.old k plane self.new }
    {
        self.picture.put_plane(self.tiles[k as usize], plane);
    }
}
