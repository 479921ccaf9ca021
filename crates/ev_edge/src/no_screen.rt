// A screen that keeps nothing.
ghost use Rattle.std.specs.Prelude.{None};

use ev_argb::Picture;
use ev_geom::Rect;
use ev_port::{Failed, Screen};

/// A screen that takes each frame and keeps nothing. It never fails (docs/ARCHITECTURE.md, "The outside").
#[derive(Drop)]
pub struct NoScreen;

impl NoScreen {
    /// Another such screen.
    pub fn new() -> NoScreen {
        NoScreen
    }
}

impl Screen for NoScreen {
    ghost shown = { λ _. None };

    ghost faults = { λ _. 0 };

    fn present(&mut self, _n: u64, _updates: &[Rect], _picture: &Picture) -> Result<(), Failed> {
        Ok(())
    }

    fn faults(&self) -> u64 {
        0
    }
}
