//! What a lock-free structure needs whose threads each sit at a seat of one `atomic_table`.
//!
//! `specs/` has the words of its rules: sums over what all seats know, jobs by number, and slots that are at home or out.
//! `proofs/` has the facts about them.
#![tactic(auto)]

mod sleep;

pub use sleep::low_bits;
