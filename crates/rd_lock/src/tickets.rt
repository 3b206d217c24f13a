//! Tickets: drawing one, waiting for it, holding the value by it, and releasing it.
ghost use Rattle.std.specs.Prelude.{◌≡◌, ◌^◌, ◌<◌, IfOk, IfErr, OnOk, OnErr};
ghost use Rattle.rd_lock.specs.Locks.{next_seen, seats, IsOut, IsWaiting, IsPassOf, IsSamePass, IsTaken, IsMissed, MayPutBack, HasPutBack};

use super::locks::TicketLock;
use super::passes::Pass;
use super::plays::{Draws, LoadsNext, LoadsServed, Polls, Releases, Tries};
use super::rule::{NEXT, SERVED, SLOT};
use super::views::Recorded;
use crossbeam_utils::Backoff;
use std::sync::Wait;

/// The number of tickets: they are 0 to 2^63 - 1.
pub const TICKETS: u64 = 1 << 63;

/// The error of a take when all tickets are drawn.
#[derive(Debug, Clone, Copy, PartialEq, Eq)]
pub struct TicketsEnded;

/// The error when a ticket is drawn and not finished, with the lock's two words, `served` below
/// `next`. From `try_take` they are the greatest values that the pass has seen; from `close`,
/// neither is below what a given pass has seen.
#[derive(Debug, Clone, Copy, PartialEq, Eq)]
pub struct Busy {
    /// The word `next`: the ticket that is drawn next.
    pub next: u64,
    /// The word `served`: the ticket that is served now.
    pub served: u64,
}

/// Why `try_take` took nothing.
#[derive(Debug, Clone, Copy, PartialEq, Eq)]
pub enum TryTakeError {
    /// A ticket is drawn and not finished.
    Busy(Busy),
    /// All tickets are drawn.
    TicketsEnded,
}

impl<T: Recorded> TicketLock<T> {
    ghost use Rattle.rd_lock.specs.declared.tickets.TryTakeError.TheVariants as TryTakeError;

    /// Takes the value and returns it, if the lock is free. The pass must be this lock's, and
    /// neither wait nor hold. The call makes one load and at most one compare-and-exchange of the
    /// words, and never waits.
    ///
    /// # Errors
    ///
    /// `TicketsEnded` if this pass saw that all tickets are drawn; `Busy` if at some moment of the
    /// call a ticket is drawn and not finished, which never happens in a lock of one pass. The pass
    /// holds nothing then.
    pub fn try_take(&self, pass: &mut Pass<T>) -> Result<T, TryTakeError>
        requires own { IsPassOf self.now pass.old }
        requires out { IsOut pass.old }
        ensures pass { IsPassOf self.now pass.new }
        ensures unchanged { IsSamePass pass.old pass.new }
        ensures ok { IfOk result (IsTaken self.now pass.old pass.new) }
        ensures left { OnOk result (next_seen pass.old < 2 ^ 63) }
        ensures err { IfErr result (IsMissed pass.new) }
        ensures out { OnErr result (IsOut pass.new) }
        ensures succeeds { seats self.now ≡ 1 → IfErr result
            (λ missed. missed ≡ TryTakeError.TicketsEnded) }
    {
        let shared = &self.table.shared;
        let served = shared.load::<LoadsServed>(&mut pass.seat, SERVED);
        if served >= TICKETS {
            return Err(TryTakeError::TicketsEnded);
        }
        let next = shared.compare_exchange::<Tries>(&mut pass.seat, NEXT, served, served + 1);
        if next == served {
            let found = shared.exchange(&mut pass.seat, SLOT, None);
            let Some(value) = found else { unreachable!() };
            return Ok(value);
        }
        if next >= TICKETS {
            return Err(TryTakeError::TicketsEnded);
        }
        Err(TryTakeError::Busy(Busy { next, served }))
    }

    /// Draws a ticket, waits until it is served, and returns the value. The pass must be this
    /// lock's, and neither wait nor hold. The call tries the draw again whenever another pass was
    /// first, and waits by loading the word `served`.
    ///
    /// # Errors
    ///
    /// `TicketsEnded` if this pass saw that all tickets are drawn. The pass holds nothing then.
    pub fn take<R: Wait>(&self, rt: &R, pass: &mut Pass<T>) -> Result<T, TicketsEnded>
        requires own { IsPassOf self.now pass.old }
        requires out { IsOut pass.old }
        ensures pass { IsPassOf self.now pass.new }
        ensures unchanged { IsSamePass pass.old pass.new }
        ensures ok { IfOk result (IsTaken self.now pass.old pass.new) }
        ensures left { OnOk result (next_seen pass.old < 2 ^ 63) }
        ensures err { OnErr result ((next_seen pass.new ≡ 2 ^ 63) × IsOut pass.new) }
    {
        let shared = &self.table.shared;
        let mut ticket = shared.load::<LoadsNext>(&mut pass.seat, NEXT);
        'draws: for _ in rt.forever() {
            if ticket >= TICKETS {
                return Err(TicketsEnded);
            }
            let next = shared.compare_exchange::<Draws>(&mut pass.seat, NEXT, ticket, ticket + 1);
            if next == ticket {
                return Ok(self.take_when_served(rt, pass, ticket));
            }
            ticket = next;
        }
        unreachable!()
    }

    /// Waits until the pass's ticket is served, takes the value and returns it. The pass must be
    /// this lock's, and wait with this ticket, which must be below `TICKETS`.
    fn take_when_served<R: Wait>(&self, rt: &R, pass: &mut Pass<T>, ticket: u64) -> T
        requires own { IsPassOf self.now pass.old }
        requires ticket { (ticket < 2 ^ 63) × IsWaiting pass.old ticket }
        ensures pass { IsPassOf self.now pass.new }
        ensures unchanged { IsSamePass pass.old pass.new }
        ensures ok { IsTaken self.now pass.old pass.new result }
    {
        let shared = &self.table.shared;
        let pause = Backoff::new();
        'looks: for _ in rt.forever() {
            if shared.load::<Polls>(&mut pass.seat, SERVED) == ticket {
                let found = shared.exchange(&mut pass.seat, SLOT, None);
                let Some(value) = found else { unreachable!() };
                return value;
            }
            pause.snooze();
        }
        unreachable!()
    }

    /// Puts the value back and ends the pass's ticket, so that the next one is served. The pass
    /// then neither waits nor holds. This never fails.
    ///
    /// The pass must be this lock's, and hold. The value must have the lock's origin, and the
    /// history with which the pass found it, followed by entries of this pass only.
    #[tactic(auto, using(crate::proofs::Histories::own_signed))]
    pub fn put_back(&self, pass: &mut Pass<T>, value: T)
        requires own { IsPassOf self.now pass.old }
        requires value { MayPutBack self.now pass.old value }
        ensures pass { IsPassOf self.now pass.new }
        ensures out { IsOut pass.new }
        ensures ok { HasPutBack pass.old pass.new value }
    {
        let shared = &self.table.shared;
        let found = shared.exchange(&mut pass.seat, SLOT, Some(value));
        let None = found else { unreachable!() };
        shared.fetch_add::<Releases>(&mut pass.seat, SERVED, 1);
    }
}
