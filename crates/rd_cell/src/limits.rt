//! The limits of counters, lists and numbers: each is defined here once, for the code and for the
//! definitions.

/// The end of a segment's counters: 2^62.
pub const COUNTER_END: u64 = 1 << 62;

/// The most segments that one maker may make.
pub const MOST_SEGMENTS: usize = 65_535;

/// The most cells that a ring may have.
pub const MOST_CELLS: usize = 64;

/// The number of slots of the array, which is also the end of its counters.
pub const SLOTS: usize = 64;

/// The most actors that a world may have.
pub const MOST_ACTORS: usize = 16;

/// The number of values that an actor's number, a `u8`, can have.
pub const ACTOR_NUMBERS: usize = 256;

/// The most steps that may be live in a journal.
pub const MOST_STEPS: usize = 65_535;

/// The most bookmarks that a session may have.
pub const MOST_MARKS: usize = 64;

/// The most bytes that a bookmark's name may have.
pub const MOST_NAME_BYTES: usize = 16;
