//! The journal. A session keeps what was done and what was undone, and goes back and forth along a
//! run. It undoes any step on which no later one depends, or a step together with all that depend
//! on it, and switches to another run with the same beginning.
//!
//! To its callers a session is a start world, the live events and the undone events. It keeps the
//! entries in a slab, each where it was put, and orders their numbers, with a border after the live
//! ones. It undoes a step by the old record and the old content in its entry. The start is kept for
//! contracts alone, and never replayed from.
#![tactic(auto)]

mod entries;
mod entry_list;
mod indexing;
pub mod laws;
mod sessions;

pub use entry_list::EntryList;
pub use sessions::Session;
