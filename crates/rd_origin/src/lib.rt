//! Who wrote this: the origin of a value that was taken, and the step that last wrote a place.
//!
//! The search for an origin makes at most one pass over the entries of the live steps, from the
//! back. The search for a last writer asks the session's index. They take no memory. Neither looks
//! at the world, except to see whether a place is there.
#![tactic(auto)]

pub mod laws;
mod origins;
mod searches;
mod writers;

pub use origins::Origin;
pub use searches::origin;
pub use writers::last_writer;
