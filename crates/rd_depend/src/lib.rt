//! Dependence of steps: which step depends on which, and the first later step that depends on a
//! given one.
//!
//! Two steps depend on each other if they have the same actor, or if both touched a place that one
//! of them wrote. That dependants are undone first follows Danos and Krivine 2004; the places and
//! the symmetry are our profile's. `first_dependant` scans the later steps, and takes no memory.
//! `DependIndex` finds the same step, and the last writer of a place, by a few look-ups; it takes
//! memory when a step is put in.
#![tactic(auto)]

mod dependence;
mod index;
pub mod laws;

pub use dependence::{depends, first_dependant};
pub use index::{DependIndex, Key, Probes, is_value_written};
