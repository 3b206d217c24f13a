//! A ticket lock. Several passes share one value, and the pass that takes it has it alone until it
//! puts it back.
//!
//! In contracts, and only there, the value has an origin that never changes and a history that only
//! grows. The contract of a take states that the history which a pass finds is what it had seen
//! before, followed by entries of other passes only.
#![tactic(auto)]

pub mod laws;
mod locks;
mod meeting;
mod opening;
mod passes;
mod plays;
mod rule;
mod tables;
mod tickets;
mod views;

pub use locks::{NoMemory, TicketLock};
pub use passes::Pass;
pub use tickets::{Busy, TICKETS, TicketsEnded, TryTakeError};
pub use views::Recorded;
