// What an edit doesn't reach. The law has no body.
ghost use Rattle.std.specs.Prelude.{◌≡◌};
ghost use Rattle.ev_model.specs.Look.{look};
ghost use Rattle.ev_model.specs.Stage.{Stage};
ghost use Rattle.ev_model.specs.declared.object.Object.{Object};
ghost use Rattle.ev_looks.specs.Reached.{IsUnreached};

/// A law: where an object that is the same in two scenes isn't reached by what differs between them,
/// it looks the same in both (docs/CANVAS.md, "Clippers and groups"). It isn't reached where the canvas has
/// one size, whether it clips another is the same, and whatever stands over anything in the later
/// scene leaves the same to what is below.
pub fn unreached_looks_stay()
    ensures { (s t : Stage) (o : Object) → IsUnreached s t o → look s o ≡ look t o }
{}
