// Rectangles that are given and hidden.
ghost use Rattle.std.specs.Prelude.{◌≡◌};
ghost use Rattle.ev_canvas.specs.CanvasCalls.{area_of};
ghost use Rattle.ev_canvas.specs.CanvasFrames.{AddsRect};

use crate::Canvas;
use ev_geom::Rect;
use ev_model::Refusal;

impl Canvas {
    ghost use Rattle.ev_canvas.specs.Canvas.{now_of};
    ghost use Rattle.ev_canvas.specs.CanvasCalls.{MayDamage, MayHide, cleared};

    /// Gives a rectangle whose pixels the next start counts as touched. `Range` exactly where x or
    /// y leaves -1,000,000 to 1,000,000, or w or h leaves 0 to 1,000,000; `NoMemory` where there is
    /// no room for it (docs/SCRIPT.md, "Commands").
    pub fn damage(&mut self, x: i64, y: i64, w: i64, h: i64) -> Result<(), Refusal>
        ensures gives { MayDamage (now_of self.old) (area_of x y w h) result (now_of self.new) }
        ensures alone { self.new ≡ record self.old { frames = self.new.frames } }
    {
        add_rect(&mut self.given, x, y, w, h)
    }

    /// Hides a rectangle from all further starts, until `clear_areas`. `Range` and `NoMemory` as at
    /// `damage` (docs/SCRIPT.md, "Commands").
    pub fn hide_area(&mut self, x: i64, y: i64, w: i64, h: i64) -> Result<(), Refusal>
        ensures hides { MayHide (now_of self.old) (area_of x y w h) result (now_of self.new) }
        ensures alone { self.new ≡ record self.old { frames = self.new.frames } }
    {
        add_rect(&mut self.areas, x, y, w, h)
    }

    /// Hides nothing any more from further starts.
    pub fn clear_areas(&mut self)
        ensures clears { now_of self.new ≡ cleared (now_of self.old) }
        ensures alone { self.new ≡ record self.old { frames = self.new.frames } }
    {
        self.areas.clear();
    }
}

// Adds a rectangle of these numbers.
fn add_rect(areas: &mut Vec<Rect>, x: i64, y: i64, w: i64, h: i64) -> Result<(), Refusal>
    ensures { AddsRect (area_of x y w h) areas.old.items result areas.new.items }
{
    let Some(area) = Rect::new(x, y, w, h) else {
        return Err(Refusal::Range);
    };
    match areas.push(area) {
        Ok(()) => Ok(()),
        Err(_) => Err(Refusal::NoMemory),
    }
}
