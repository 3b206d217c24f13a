//! Whether two runs are causally equivalent: one is the other, up to the order of steps that do not
//! depend on each other.
//!
//! The runs are given by their entries. One pass over each list decides it (`equivalence`), and the
//! laws say what it means.
#![tactic(auto)]

mod equivalence;
mod keeping_order;
pub mod laws;
mod steps_by_actor;

pub use equivalence::are_equivalent;
