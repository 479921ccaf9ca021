//! What holds of each asker between its calls.
ghost use Rattle.ev_desk.specs.DeskSeen.{asker_view};
ghost use Rattle.ev_desk.specs.Books.{Books, HasJobWhereAsked};

use crate::askers::Asker;
use crate::errand::Errand;

/// Each job that was asked came back once, or is still at its place, and no place has two jobs. A place has a job exactly
/// where it is asked (docs/THREADS.md, The desk).
pub fn each_job_comes_back_once<J: Errand<E>, E: Drop>(asker: &Asker<J, E>)
    ensures once { Books (asker_view asker.now) }
    ensures places { HasJobWhereAsked (asker_view asker.now) }
{}
