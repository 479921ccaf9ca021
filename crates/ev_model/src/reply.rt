// What a session answers, as values.
use crate::{BadLine, LoadFault, Name, Refusal};
use ev_argb::Pixel;
use ev_geom::Rect;

/// One reply of a session (docs/SCRIPT.md, "The log"). A dump is one reply for each of its rows.
#[derive(Drop)]
pub enum Reply<'a> {
    /// A frame was started that draws this many tiles.
    Started {
        n: u64,
        tiles: u32,
    },
    /// A frame isn't drawn whole yet.
    Pending {
        n: u64,
        done: u64,
        tiles: u64,
    },
    /// A frame of w by h pixels was shown, which may differ from the one before in these rectangles.
    Shown {
        n: u64,
        w: u32,
        h: u32,
        updates: &'a [Rect],
    },
    /// The screen failed at a frame.
    Lost {
        n: u64,
    },
    /// This many tiles were drawn.
    Stepped {
        drawn: u32,
    },
    /// The preload of this object was served.
    Served {
        name: Name,
    },
    /// The preload of this object is done.
    Preloaded {
        name: Name,
    },
    /// The preload of this object gave nothing.
    PreloadFailed {
        name: Name,
        fault: LoadFault,
    },
    /// The preload of this object was cancelled.
    Cancelled {
        name: Name,
    },
    /// There was nothing to do.
    Idle,
    /// A row of a picture, from left to right; nothing where a pixel was hidden.
    DumpRow {
        pixels: &'a [Option<Pixel>],
    },
    /// The totals of the four channels of a picture, and one that minds the places.
    Sum {
        a: u64,
        r: u64,
        g: u64,
        b: u64,
        p: u64,
    },
    /// How many pixels were painted, and how many states were made.
    Stats {
        painted: u64,
        made: u64,
    },
    /// The line of this number is no command.
    Bad {
        fault: BadLine,
        line: u64,
    },
    /// The command in the line of this number was refused.
    Refused {
        cause: Refusal,
        line: u64,
    },
}
