//! The calls that the tests make, each with what it must answer.
ghost use Rattle.std.specs.Prelude.{◌≡◌, ℕ, ◌-◌, ◌<◌, map};
ghost use Rattle.std.specs.List.{AllByRecursion};
ghost use Rattle.rd_lock.specs.Lists.{numbers_from};
ghost use Rattle.rd_lock.specs.Locks.{number, IsHolding, IsOut, IsPassOf};
ghost use Rattle.rd_lock.specs.Opening.{IsNewPass};

use super::Numbers;
use rd_lock::{Busy, Pass, TICKETS, TicketLock, TryTakeError};
use std::alloc::Global;
use std::process::Abort;
use std::sync::Wait;

/// The last of the passes, which has this number.
pub(super) fn last_pass(
    rt: &impl Abort,
    lock: &TicketLock<Numbers>,
    passes: &mut Vec<Pass<Numbers>>,
    first: u64,
    count: u64,
) -> Pass<Numbers>
    requires each { AllByRecursion (IsNewPass lock.now first) passes.old.items }
    requires numbers { map number passes.old.items ≡ numbers_from 1 count }
    ensures own { IsPassOf lock.now result × IsOut result × (number result ≡ count) }
    ensures each { AllByRecursion (IsNewPass lock.now first) passes.new.items }
    ensures numbers { map number passes.new.items ≡ numbers_from 1 (count - 1) }
{
    let _ = lock;
    let _ = first;
    let _ = count;
    let Some(pass) = passes.pop() else {
        panic!(rt; "too few passes")
    };
    pass
}

/// A lock of two passes that begins with this ticket, and the two.
pub(super) fn opened(
    rt: &impl Abort,
    alloc: Global,
    ticket: u64,
) -> (TicketLock<Numbers>, Pass<Numbers>, Pass<Numbers>)
    ensures first { IsPassOf result.0 result.1 × IsOut result.1 × (number result.1 ≡ 1) }
    ensures second { IsPassOf result.0 result.2 × IsOut result.2 × (number result.2 ≡ 2) }
{
    assert!(rt; ticket <= TICKETS);
    let Ok((lock, mut passes)) = TicketLock::open_at(alloc, Numbers::new(alloc), 2, ticket) else {
        panic!(rt; "out of memory")
    };
    let second = last_pass(rt, &lock, &mut passes, ticket, 2);
    let first = last_pass(rt, &lock, &mut passes, ticket, 1);
    (lock, first, second)
}

/// Puts one more number and gives the value back.
pub(super) fn puts(
    rt: &impl Abort,
    lock: &TicketLock<Numbers>,
    pass: &mut Pass<Numbers>,
    mut numbers: Numbers,
    who: u64,
    added: u64,
)
    requires own { IsPassOf lock.now pass.old × (number pass.old ≡ who) }
    requires holds { (ticket : ℕ) × IsHolding pass.old ticket numbers.entries.items }
    ensures own { IsPassOf lock.now pass.new × IsOut pass.new × (number pass.new ≡ who) }
{
    if numbers.entries.push((who, added)).is_err() {
        panic!(rt; "out of memory")
    }
    lock.put_back(pass, numbers);
}

/// Gives the value back as it was found.
pub(super) fn returns(lock: &TicketLock<Numbers>, pass: &mut Pass<Numbers>, numbers: Numbers)
    requires own { IsPassOf lock.now pass.old }
    requires holds { (ticket : ℕ) × IsHolding pass.old ticket numbers.entries.items }
    ensures own { IsPassOf lock.now pass.new × IsOut pass.new
        × (number pass.new ≡ number pass.old) }
{
    lock.put_back(pass, numbers);
}

/// Takes what is free, which must be these numbers.
pub(super) fn finds(
    rt: &impl Abort,
    lock: &TicketLock<Numbers>,
    pass: &mut Pass<Numbers>,
    wanted: &[(u64, u64)],
) -> Numbers
    requires own { IsPassOf lock.now pass.old × IsOut pass.old }
    ensures own { IsPassOf lock.now pass.new × (number pass.new ≡ number pass.old) }
    ensures holds { (ticket : ℕ) × IsHolding pass.new ticket result.entries.items }
{
    let Ok(numbers) = lock.try_take(pass) else {
        panic!(rt; "not free")
    };
    assert!(rt; numbers.entries.as_slice() == wanted);
    numbers
}

/// Takes what is free, which must be these numbers, and puts one more.
pub(super) fn adds(
    rt: &impl Abort,
    lock: &TicketLock<Numbers>,
    pass: &mut Pass<Numbers>,
    who: u64,
    wanted: &[(u64, u64)],
    added: u64,
)
    requires own { IsPassOf lock.now pass.old × IsOut pass.old × (number pass.old ≡ who) }
    ensures own { IsPassOf lock.now pass.new × IsOut pass.new × (number pass.new ≡ who) }
{
    let numbers = finds(rt, lock, pass, wanted);
    puts(rt, lock, pass, numbers, who, added);
}

/// Tries three times, and gets nothing but these words.
pub(super) fn stays_busy(
    rt: &impl Abort,
    lock: &TicketLock<Numbers>,
    pass: &mut Pass<Numbers>,
    words: Busy,
)
    requires own { IsPassOf lock.now pass.old × IsOut pass.old }
    ensures own { IsPassOf lock.now pass.new × IsOut pass.new }
{
    for _try in 0..3 {
        let Err(missed) = lock.try_take(pass) else {
            panic!(rt; "free")
        };
        assert!(rt; missed == TryTakeError::Busy(words));
    }
}

/// Takes again and again, and puts the number of the take each time.
pub(super) fn works<R: Abort + Wait>(
    rt: &R,
    lock: &TicketLock<Numbers>,
    mut pass: Pass<Numbers>,
    who: u64,
    takes: u64,
) -> Pass<Numbers>
    requires own { IsPassOf lock.now pass × IsOut pass × (number pass ≡ who) }
    ensures own { IsPassOf lock.now result × IsOut result }
{
    for take in 0..takes {
        let Ok(numbers) = lock.take(rt, &mut pass) else {
            panic!(rt; "no tickets")
        };
        puts(rt, lock, &mut pass, numbers, who, take);
    }
    pass
}

/// Whether the entries of a pass are its takes, in order, and all of them.
pub(super) fn has_all_in_order(numbers: &Numbers, who: u64, takes: u64) -> bool {
    let mut next = 0;
    for entry in numbers.entries.as_slice() {
        if entry.0 == who {
            if entry.1 != next || next >= takes {
                return false;
            }
            next += 1;
        }
    }
    next == takes
}
