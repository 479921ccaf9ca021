//! Sixty-four places, on which an asker leaves jobs and a loader their ends.
//!
//! Each place has a word, which changes in single atomic steps: 0 free, 1 asked, 2 taken, 3 ended, 4 closed, and 5 ended
//! with a fault. A job comes back to the asker once at most, with its end by `collect` or by `withdraw`. No call but
//! `rest` waits.
#![tactic(auto)]

mod answers;
mod askers;
mod errand;
mod laws;
mod loaders;
mod opening;
mod plays;
mod posts;
#[cfg(test)]
mod tests;
mod view;

pub use answers::{Ask, Collect, TakeJob, Withdraw};
pub use askers::Asker;
pub use errand::Errand;
pub use laws::each_job_comes_back_once;
pub use loaders::Loader;
pub use opening::desk;
pub use plays::Errands;
pub use std::alloc::AllocError as NoMemory;
pub use view::{AskerView, Counts, Entry, LoaderView, Role, Spot, Stage, Try, View};
