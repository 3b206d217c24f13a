//! The desk: several viewers share one debugger. The contract of each viewer's call is about the
//! one history that all of them make.
//!
//! A call is one command that the book does under the lock, and one entry of the history. A
//! viewer's contract states how the history that it has seen grows, whatever the other viewers did
//! in between.
#![tactic(auto)]

mod asking;
mod desks;
mod gates;
mod histories;
pub mod laws;
mod recording;
mod rooms;
mod threads;
mod viewers;

pub use desks::{Desk, DeskPass, MOST_VIEWERS};
pub use gates::{Answer, DeskRefusal, Gate, NumberedAnswer};
pub use histories::{Call, History, MOST_CALLS};
pub use rd_lock::{Busy, NoMemory};
pub use recording::BookWithHistory;
pub use viewers::{Ran, ask_viewers, run_viewers};
