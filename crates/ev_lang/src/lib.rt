//! The language of scripts: what a line says, and the text of each reply (docs/SCRIPT.md).
#![tactic(auto)]

mod args;
mod causes;
mod classes;
mod command;
mod draft;
mod line;
mod reply;
mod row;
mod script;
mod shown;
#[cfg(test)]
mod tests;
mod verb;
mod words;

pub use classes::natural;
pub use line::{LONGEST_LINE, Line, read_line};
pub use reply::write_reply;
pub use script::first_line;
