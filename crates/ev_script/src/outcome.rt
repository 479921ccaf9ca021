// What carrying out a line gave.
use ev_canvas::{Event, Flushed};
use ev_model::{BadLine, Refusal};

/// What carrying out a line gave, of which the log tells (docs/SCRIPT.md, "The log").
#[derive(Drop)]
pub(crate) enum Outcome {
    /// The line isn't one of the language, or isn't built yet.
    Bad(BadLine),
    /// The line was carried out, of which nothing is told, or refused.
    Done(Result<(), Refusal>),
    /// The frame of the newest start ended.
    Flushed(Flushed),
    /// A load ended.
    Event(Event),
    /// The rows of the picture drawn last are to be told.
    Rows,
    /// The totals of the picture drawn last are to be told.
    Totals,
}
