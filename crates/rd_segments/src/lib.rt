//! The space of both queues: the makers' segments, the names at the queue's ends, and the array.
//!
//! The crates above see it as one map from places to contents.
#![tactic(auto)]

mod array;
mod ends;
mod lists;
mod makers;
mod parts;
mod space;

pub use array::ArrayParts;
pub use space::Space;
