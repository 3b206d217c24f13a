//! One segment: a ring of `R` cells with its two counters, its closed bit and the name of the
//! segment that follows.
//!
//! Each operation is one atomic access of Morrison and Afek's CRQ. Each operation that writes has
//! an inverse, which takes the old content and puts it back.
#![tactic(auto)]

mod operations;
mod parts;
mod segments;

pub use parts::SegmentParts;
pub use segments::Segment;
