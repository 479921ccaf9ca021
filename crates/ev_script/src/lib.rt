//! Scripts: the machine that their lines drive, and the log and frames that they give.
#![tactic(auto)]

mod act;
mod alone;
mod outcome;
mod picture;
mod script;
mod session;
mod source;
mod tell;
mod totals;
mod words;

pub use alone::{Status, run_alone};
pub use script::{Played, play_alone};
pub use words::{BadWords, Folders, Options, read_folders, read_words};

#[cfg(test)]
mod tests;
