//! Passes: a pass is one party's right to take the value of a lock.
ghost use Rattle.std.specs.Prelude.{◌≡◌, length};
ghost use Rattle.rd_lock.specs.Lists.{only};
ghost use Rattle.rd_lock.specs.Rule.{in_hand};

use super::views::{Recorded, View};
use atomic_table::Seat;

/// A seat at the table of a lock that guards a `T`.
pub(crate) type LockSeat<T> = Seat<
    Option<T>,
    View<<T as Recorded>::Entry, <T as Recorded>::Origin>,
>;

/// One party's right to take the value of a lock. Each pass of a lock has its own number, from 1.
///
/// A pass that is dropped while it holds the value keeps the lock busy for good: no other pass ever
/// gets the value.
#[derive(Drop)]
pub struct Pass<T: Recorded> {
    /// The pass's seat at the lock's table.
    pub(crate) seat: LockSeat<T>,
    /// The pass's number, from 1.
    pub(crate) number: u64,
    ghost alone: { length seat.me.0.members ≡ 1 },
    ghost hand: { seat.me.1 ≡ in_hand seat.me.0.stage },
    ghost numbered: { number ≡ (only seat.me.0.members alone).pass },
}

impl<T: Recorded> Pass<T> {
    ghost use Rattle.rd_lock.specs.Locks.{number};

    /// Returns the pass's number, from 1.
    pub fn number(&self) -> u64
        ensures { result ≡ number self.now }
    {
        self.number
    }
}
