//! The rule of the lock's table: what holds between any two steps.
//!
//! Word 0 is `served`, the ticket whose pass may hold. Word 1 is `next`, the ticket that is drawn
//! next. Slot 0 has the value, or nothing while a pass holds.
use crate::views::{Opened, Recorded, View};
use atomic_table::TableRule;

/// The index of the word `served`. The steps that join or split seats load it too.
pub const SERVED: usize = 0;

/// The index of the word `next`.
pub const NEXT: usize = 1;

/// The index of the value's slot. Only the seat that has taken the slot uses it, by plain reads and
/// writes.
pub const SLOT: usize = 0;

/// The rule of the lock's table: `holds` is its invariant, and `first` the view of its first seat.
pub struct Tickets;

impl<T: Recorded> TableRule<Option<T>, View<T::Entry, T::Origin>, Opened<T>> for Tickets {
    ghost use Rattle.rd_lock.specs.Rule.{LockRule, lock_of, opening_view};

    ghost holds = { λ key. LockRule (lock_of T.history T.origin key.seats (T.origin key.value.value)) };

    ghost first = { λ key. opening_view key.seats (T.origin key.value.value) key.first };
}
