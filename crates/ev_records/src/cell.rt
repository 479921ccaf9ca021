// What is kept of a place.
use ev_model::Record;

/// What a place has: its record, if it has one, and where it stands among the formers, once it may have had another
/// record at the start before.
#[derive(Drop)]
pub(crate) struct Cell {
    pub(crate) present: Option<Record>,
    pub(crate) mark: Option<usize>,
}

/// The record that a place had at the start before, if it had one.
#[derive(Drop)]
pub(crate) struct Former {
    pub(crate) place: usize,
    pub(crate) was: Option<Record>,
}
