//! Tickets between one owner and any number of hands.
//!
//! The owner publishes jobs by raising a limit. Each hand claims the next ticket below the limit, and counts it as done
//! when it gives it back. The ring has four words, which change in single atomic steps: the limit, the number of
//! tickets that were claimed, the number of tickets that were given back, and the bell, which only wakes the hands
//! that rest (docs/THREADS.md, "Resting"). No call but `rest` waits.
#![tactic(auto)]

mod answers;
mod hands;
mod laws;
mod opening;
mod owners;
mod plays;
mod posts;
#[cfg(test)]
mod tests;
mod view;
mod work;

pub use answers::{Claim, Ready};
pub use hands::Hand;
pub use laws::{each_ticket_is_got_once, empty_hands_leave_all, quiet_rings_are_idle};
pub use opening::ring;
pub use owners::Owner;
pub use plays::Tickets;
pub use std::alloc::AllocError as NoMemory;
pub use view::{Counts, Entry, HandView, OwnerView, Role, View};
pub use work::Work;
