//! Undoing one step, even if later steps remain.
//!
//! A step is undone from the old words that its entry keeps. Nothing is replayed, and no other step
//! is looked at.
#![tactic(auto)]

mod inverse;

pub use inverse::unstep;
