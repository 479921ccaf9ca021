// What is seen of the frame drawn last, and counts.
ghost use Rattle.std.specs.Prelude.{◌≡◌, Some, MatchResult};

use crate::Canvas;
use ev_argb::Picture;
use ev_geom::Rect;
use ev_region::Region;

/// Why there is no picture. The first that holds is told.
#[derive(Clone, Copy, Debug, PartialEq, Eq)]
pub enum NoPicture {
    /// A frame is running.
    Busy,
    /// No frame was drawn yet.
    NoFrame,
}

impl Canvas {
    ghost use Rattle.ev_canvas.specs.Starts.{last_number};
    ghost use Rattle.ev_canvas.specs.CanvasFrames.{IsPictureOf, picture_refusal, IsDrawnLast, runs};

    /// Whether a frame is running.
    pub(crate) fn is_running(&self) -> bool
        ensures { result ≡ runs self.now.frames.newest }
    {
        match &self.drawing.newest {
            Some(newest) => newest.end.is_running(),
            None => false,
        }
    }

    /// The picture of the frame drawn last. `Busy`: a frame is running. `NoFrame`: none was drawn.
    pub fn picture(&self) -> Result<&Picture, NoPicture>
        ensures { MatchResult result
            (λ picture. IsPictureOf self.now.frames picture.now)
            (λ cause. picture_refusal self.now.frames.newest ≡ Some cause) }
    {
        match &self.drawing.newest {
            None => Err(NoPicture::NoFrame),
            Some(newest) if newest.end.is_running() => Err(NoPicture::Busy),
            Some(newest) => Ok(newest.picture()),
        }
    }

    /// The updates of the frame drawn last, or none before there is one. While a frame is running
    /// they are those of the one before.
    pub fn updates(&self) -> &[Rect]
        ensures value { result.now ≡ self.now.frames.drawn.updates }
        ensures last { IsDrawnLast self.now.frames }
    {
        match &self.drawing.newest {
            Some(newest) if !newest.end.is_running() => newest.updates.rects(),
            _ => self.drawing.before.updates.rects(),
        }
    }

    /// The hidden pixels of the frame drawn last, or none before there is one. While a frame is
    /// running they are those of the one before.
    pub fn hidden(&self) -> &Region
        ensures value { result.now ≡ self.now.frames.drawn.hidden }
        ensures last { IsDrawnLast self.now.frames }
    {
        match &self.drawing.newest {
            Some(newest) if !newest.end.is_running() => &newest.hidden,
            _ => &self.drawing.before.hidden,
        }
    }

    /// How many starts were accepted.
    pub fn frames(&self) -> u64
        ensures { result ≡ last_number self.now.frames.newest }
    {
        match &self.drawing.newest {
            Some(newest) => newest.number,
            None => 0,
        }
    }

    /// How many pixels were painted on the buffers, their making included, and on those that were given
    /// up. A plane of a running frame counts as when the frame started (docs/CANVAS.md, "Frames").
    pub fn painted(&self) -> u64
        ensures { result ≡ self.now.painted }
    {
        match &self.drawing.newest {
            Some(newest) => newest.easel.painted(),
            None => 0,
        }
    }

    /// How many states of objects were made, copies included.
    pub fn made(&self) -> u64
        ensures { result ≡ self.now.scene.made }
    {
        self.scene.made()
    }
}
