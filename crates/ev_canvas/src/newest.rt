// The newest start, with the buffers on which its frame is drawn.
ghost use Rattle.std.specs.Prelude.{◌≡◌, ℤ, IfOk, None, Some};
ghost use Rattle.ev_geom.specs.Bands.{has_pixel};
ghost use Rattle.ev_canvas.specs.Starts.{is_running, is_lost, left};
ghost use Rattle.ev_canvas.specs.CanvasFrames.{drawn_by};
ghost use Rattle.ev_canvas.specs.Drawings.{latest_of};

use crate::NoMemory;
use crate::begun::Begun;
use crate::owed::have_one_size;
use ev_argb::Picture;
use ev_frames::Easel;
use ev_region::Region;
use ev_scene::Captured;
use std::alloc::Global;
use std::mem::replace;

/// How the frame of a start ended, if it did.
#[derive(Clone, Copy)]
pub enum End {
    /// It is still running.
    Running,
    /// It was shown.
    Shown,
    /// The screen failed, and it was lost.
    Lost,
}

impl End {
    pub(crate) fn is_running(self) -> bool
        ensures { result ≡ is_running self }
    {
        match self {
            End::Running => true,
            End::Shown | End::Lost => false,
        }
    }

    fn is_lost(self) -> bool
        ensures { result ≡ is_lost self }
    {
        match self {
            End::Lost => true,
            End::Running | End::Shown => false,
        }
    }
}

/// A start: its number, the scene as it stood, what its frame owes, what is hidden from it, what it
/// updates, how many tiles it draws, how it ended, and the buffers of the canvas, on one of which it
/// is drawn (docs/CANVAS.md, "Frames").
#[derive(Drop)]
pub(crate) struct Newest {
    pub(crate) number: u64,
    pub(crate) shot: Captured,
    pub(crate) owed: Region,
    pub(crate) hidden: Region,
    pub(crate) updates: Region,
    pub(crate) tiles: u32,
    pub(crate) end: End,
    pub(crate) easel: Easel,
}

impl Newest {
    ghost use Rattle.ev_canvas.specs.Starts.{has_size_of};
    ghost use Rattle.ev_canvas.specs.Pictures.{IsPicture};
    ghost use Rattle.ev_canvas.specs.Drawings.{captured, capture_in, entry_of, newest_by, IsDone};

    /// What its frame leaves to the next start.
    pub(crate) fn left(&self) -> Result<Region, NoMemory>
        ensures { IfOk result (λ region. (x y : ℤ)
            → has_pixel region x y ≡ left (latest_of self.now) x y) }
    {
        if !self.end.is_lost() {
            return self.hidden.copied();
        }
        let mut region = self.owed.copied()?;
        region.unite(&self.hidden)?;
        Ok(region)
    }

    /// Whether its scene has the size of this one.
    pub(crate) fn has_size_of(&self, begun: &Begun) -> bool
        ensures { result ≡ has_size_of (captured self.now) (capture_in begun.now) }
    {
        have_one_size(self.shot.scene(), begun.shot.scene())
    }

    /// Another start stands here from now on, whose frame was set up on one of the buffers, with so many
    /// tiles. Gives what this one's frame updates and hides.
    pub(crate) fn renew(&mut self, begun: Begun, tiles: u32) -> Drawn
        ensures stands { self.new ≡ newest_by begun tiles self.old.easel }
        ensures before { result ≡ drawn_by (Some (latest_of self.old)) }
    {
        let Begun {
            number,
            shot,
            owed,
            hidden,
            updates,
        } = begun;
        self.number = number;
        self.shot = shot;
        self.owed = owed;
        self.tiles = tiles;
        self.end = End::Running;
        Drawn {
            updates: replace(&mut self.updates, updates),
            hidden: replace(&mut self.hidden, hidden),
        }
    }

    /// The picture of its frame, which was drawn and has ended.
    pub(crate) fn picture(&self) -> &Picture
        requires { IsDone self.now }
        ensures { IsPicture (entry_of self.now) result.now }
    {
        match self.easel.last() {
            Some(picture) => picture,
            None => unreachable!(),
        }
    }

    /// What its frame updates and hides.
    pub(crate) fn into_drawn(self) -> Drawn
        ensures { result ≡ drawn_by (Some (latest_of self)) }
    {
        Drawn {
            updates: self.updates,
            hidden: self.hidden,
        }
    }
}

/// The updates and hidden pixels of a frame that was drawn.
#[derive(Drop)]
pub(crate) struct Drawn {
    pub(crate) updates: Region,
    pub(crate) hidden: Region,
}

impl Drawn {
    /// Before a frame is drawn.
    pub(crate) fn nothing(alloc: Global) -> Drawn
        ensures { result ≡ drawn_by None }
    {
        Drawn {
            updates: Region::new(alloc),
            hidden: Region::new(alloc),
        }
    }
}
