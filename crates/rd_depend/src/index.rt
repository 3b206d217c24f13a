//! An index of a list of entries. It finds the first dependant of a step by a few look-ups, without
//! a scan of the later entries.
//!
//! For each actor it keeps the positions of its entries, counted from 1 and ascending. For each
//! place and each segment it keeps the positions of the entries that touched it and, in a second
//! list, of those that wrote there. It keeps no entries, so its callers pass the entries that are
//! meant.

ghost use Rattle.std.specs.Prelude.{◌≡◌, ◌≤◌, []};
ghost use Rattle.rd_step.specs.Prelude.{MOST_STEPS};

mod changing;
mod finding;
mod keys;
mod lists;
mod positions;
mod probes;
mod searching;
mod table;
mod writers;

pub use keys::{Key, is_value_written};
pub use probes::Probes;
use std::alloc::Global;
use table::Table;

/// The positions of a list's entries, by the actor, the place and the segment of each.
#[derive(Drop)]
pub struct DependIndex {
    /// For each actor, by its number, the positions of its entries.
    by_actor: Vec<Vec<u32>>,
    /// For each place and each segment, the positions of the entries that touched it, and of those
    /// that wrote there.
    by_key: Table,
    /// The number of positions.
    len: usize,
    alloc: Global,
    ghost few: { len ≤ MOST_STEPS },
}

impl DependIndex {
    ghost use Rattle.rd_depend.specs.Index.{IsIndexOf, position_count};

    /// Returns the index of no entries. It takes no memory.
    pub fn new(alloc: Global) -> DependIndex
        ensures { IsIndexOf result [] }
    {
        DependIndex {
            by_actor: Vec::new(alloc),
            by_key: Table::new(alloc),
            len: 0,
            alloc,
        }
    }

    /// Returns the number of positions: one for each entry.
    pub fn len(&self) -> u64
        ensures { result ≡ position_count self.now }
    {
        self.len as u64
    }
}
