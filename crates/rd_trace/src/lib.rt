//! A session written as a JSON trace, and loaded again.
//!
//! A trace of version 2 is one JSON object: the live events in order, the bookmarks, the number of
//! cells of a ring, the start, the undone events and the version. A trace of version 1, which is
//! only read, has a number of actors, for a start in the fresh world, and no bookmarks or undone
//! events. A text is read as a `Value` of serde_json, and the whole value is checked before the
//! first event happens. The whole text of a trace is made in memory before its first byte is
//! written.
#![tactic(auto)]

mod actors;
mod arrays;
mod bookmarks;
mod events;
mod faults;
pub mod laws;
mod load;
mod members;
mod names;
mod replay;
mod saved;
mod segments;
mod spelled;
mod starts;
mod texts;
mod write;

pub use faults::TraceFault;
pub use load::load_trace;
pub use rd_marks::AnyBook;
pub use saved::trace_text;
pub use write::{write_any_trace, write_trace};
