//! The simulated machine: the world, and the plain step of one actor.
//!
//! `specs/` has the model for which the whole debugger is proved: the step of a world, the run of a
//! list of events, dependence and removal. `World` keeps vectors and arrays, and its contracts show
//! it as the model's map. The laws of the model are contracts of the functions in `laws`.
#![tactic(auto)]

mod entries;
mod event_lists;
mod fields;
mod flaws;
pub mod laws;
mod parts;
mod worlds;

pub use entries::{Entry, Event};
pub use event_lists::{EventList, common_beginning_len};
pub use flaws::{Flaw, Unassembled};
pub use parts::Parts;
pub use rd_ring::SegmentParts;
pub use rd_segments::ArrayParts;
pub use worlds::World;
