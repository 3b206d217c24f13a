//! The words of the machine: cells, segment names, places, contents, accesses, refusals and limits.
//!
//! Everything here is plain `Copy` data. The definitions in `specs/` state when two places overlap,
//! what each operation does to one content, and what an access leaves at each place; the crates
//! above execute just that.
#![tactic(auto)]

mod access;
mod cells;
mod contents;
pub mod laws;
pub mod limits;
mod operations;
mod places;
mod refusal;

pub use access::{Access, Done};
pub use cells::Cell;
pub use contents::{ArrSlot, Content};
pub use operations::{Answer, Operation};
pub use places::{Place, SegName, Wrote, overlaps, some_overlap, written};
pub use refusal::Refusal;
