//! Opening a lock, and closing it.
ghost use Rattle.std.specs.Prelude.{◌≡◌, ◌<◌, ◌≤◌, ◌^◌, [], map, IfOk, IfErr, IsOk};
ghost use Rattle.rd_lock.specs.Opening.{IsOpened, IsClosedOver, HasSeenUpTo};
ghost use Rattle.rd_lock.specs.Lists.{HasAllUpTo};
ghost use Rattle.std.specs.List.{AllByRecursion};
ghost use Rattle.rd_lock.specs.Locks.{number as number_of, opened_origin, seats as seats_of, IsPassOf, IsOut};

use super::locks::{NoMemory, TicketLock};
use super::passes::Pass;
use super::plays::Splits;
use super::rule::{NEXT, SERVED, SLOT};
use super::tables::{close_table, make_table};
use super::tickets::Busy;
use super::views::{Opened, Recorded};
use std::alloc::Global;
use std::snapshot::Snapshot;

impl<T: Recorded> TicketLock<T> {
    /// Returns a lock over the value, and its passes, whose numbers are 1 to `seats`. There must be
    /// at least one seat, and the value's history must be empty.
    ///
    /// # Errors
    ///
    /// `NoMemory`, with the value given back, if memory is refused.
    pub fn open(
        alloc: Global,
        value: T,
        seats: u64,
    ) -> Result<(TicketLock<T>, Vec<Pass<T>>), (NoMemory, T)>
        requires seats { 0 < seats }
        requires empty { T.history value ≡ [] }
        ensures ok { IfOk result (λ opened. IsOpened
            (T.origin value) seats 0 opened.0 opened.1.items) }
        ensures err { IfErr result (λ refused. refused.1 ≡ value) }
    {
        TicketLock::open_at(alloc, value, seats, 0)
    }

    /// Returns a lock over the value, and its passes, whose numbers are 1 to `seats`. The lock's two
    /// words, `served` and `next`, both begin at `first`, so `2^63 - first` tickets are left to
    /// draw. There must be at least one seat, `first` must be at most 2^63, and the value's history
    /// must be empty.
    ///
    /// # Errors
    ///
    /// `NoMemory`, with the value given back, if memory is refused.
    pub fn open_at(
        alloc: Global,
        value: T,
        seats: u64,
        first: u64,
    ) -> Result<(TicketLock<T>, Vec<Pass<T>>), (NoMemory, T)>
        requires seats { 0 < seats }
        requires first { first ≤ 2 ^ 63 }
        requires empty { T.history value ≡ [] }
        ensures ok { IfOk result (λ opened. IsOpened
            (T.origin value) seats first opened.0 opened.1.items) }
        ensures err { IfErr result (λ refused. refused.1 ≡ value) }
    {
        let Ok(mut passes) = Vec::with_capacity(alloc, seats as usize) else {
            return Err((NoMemory, value));
        };
        let about = Opened {
            seats,
            first,
            value: Snapshot::of(&value),
        };
        let (table, mut seat) = match make_table(alloc, value, &about) {
            Ok(laid) => laid,
            Err(value) => return Err((NoMemory, value)),
        };
        for number in 0..seats {
            let pass = table.shared.split_seat::<Splits>(&mut seat);
            let Ok(()) = passes.push(Pass {
                seat: pass,
                number: number + 1,
            }) else {
                unreachable!()
            };
        }
        Ok((TicketLock { table }, passes))
    }

    /// Ends the lock and the given passes, and returns the value. The passes must be this lock's,
    /// and neither wait nor hold.
    ///
    /// # Errors
    ///
    /// `Busy`, with the two words, if a ticket is drawn and not finished; the value is then lost.
    /// This never happens if all passes of the lock are given. Neither word is below what a given
    /// pass has seen.
    pub fn close(self, passes: Vec<Pass<T>>) -> Result<T, Busy>
        requires own { AllByRecursion (IsPassOf self) passes.items }
        requires out { AllByRecursion IsOut passes.items }
        ensures ok { IfOk result (λ value. IsClosedOver self passes.items (T.history value)) }
        ensures rooted { IfOk result (λ value. T.origin value ≡ opened_origin T.origin self) }
        ensures err { IfErr result (λ words. (words.served < words.next) × (words.next ≤ 2 ^ 63)) }
        ensures newest { IfErr result (λ words. AllByRecursion (HasSeenUpTo words) passes.items) }
        ensures succeeds { HasAllUpTo (seats_of self) (map number_of passes.items) → IsOk result }
    {
        let TicketLock { table } = self;
        let mut closed = close_table(table, passes);
        let served = closed.word(SERVED);
        let next = closed.word(NEXT);
        let slot = closed.take(SLOT);
        closed.free();
        if served != next {
            return Err(Busy { next, served });
        }
        let Some(value) = slot else { unreachable!() };
        Ok(value)
    }
}
