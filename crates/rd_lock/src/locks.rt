//! The lock: a table of two atomic words and one slot, on which its passes make steps.
ghost use Rattle.std.specs.Prelude.{◌≡◌, ◌<◌};

use super::rule::Tickets;
use super::views::{Opened, Recorded, View};
use atomic_table::Table;
use std::alloc::Global;

/// The table of a lock that guards a `T`.
pub(crate) type LockTable<T> = Table<
    Option<T>,
    View<<T as Recorded>::Entry, <T as Recorded>::Origin>,
    Opened<T>,
    Tickets,
    Global,
>;

/// A ticket lock: a value that several passes share, one at a time.
///
/// Dropping the lock drops the value, unless a pass holds it.
#[derive(Drop)]
pub struct TicketLock<T: Recorded> {
    pub(crate) table: LockTable<T>,
    ghost sized: { (table.shared.table_id.words ≡ 2) × (table.shared.table_id.slots ≡ 1) },
    ghost seated: { 0 < table.shared.key.seats },
}

/// The error of opening a lock when memory is refused.
#[derive(Debug, Clone, Copy, PartialEq, Eq)]
pub struct NoMemory;
