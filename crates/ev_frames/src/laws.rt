// A law of what frames cost.
ghost use Rattle.ev_frames.specs.Costs.{FramesCostTheirPixels};

/// A law: what a frame may cost by its tiles is no more than what the pixels of its work region may,
/// where this lies on the canvas (docs/ARCHITECTURE.md, Running frames).
#[tactic(auto, using(crate::proofs::Costing::frame_within))]
pub fn frames_cost_their_pixels()
    ensures { FramesCostTheirPixels }
{}
