//! A close of a free lock and of one that is held, with no pass, with some, and with all.
ghost use Rattle.std.specs.List.{AllByRecursion};
ghost use Rattle.rd_lock.specs.Locks.{IsOut, IsPassOf};

use super::Numbers;
use super::calls::{has_all_in_order, last_pass, works};
use rd_lock::{Busy, Pass, TICKETS, TicketLock, TryTakeError};
use std::alloc::Global;
use std::process::Abort;
use std::sync::Wait;

/// A close of a lock of three passes: the first ticket, how often the last pass takes and puts, how
/// many passes are handed in, and the number of entries. If the last pass then takes once more and
/// is dropped, the words are in its place.
type Closing = (u64, u64, usize, Result<usize, Busy>);

/// The words where the last ticket is held.
const LAST_WORDS: Busy = Busy {
    next: TICKETS,
    served: TICKETS - 1,
};

const CLOSINGS: &[Closing] = &[
    (0, 0, 0, Ok(0)),
    (0, 2, 0, Ok(2)),
    (5, 2, 1, Ok(2)),
    (5, 3, 2, Ok(3)),
    (TICKETS - 2, 2, 3, Ok(2)),
    (0, 0, 0, Err(Busy { next: 1, served: 0 })),
    (0, 2, 1, Err(Busy { next: 3, served: 2 })),
    (5, 1, 2, Err(Busy { next: 7, served: 6 })),
    (TICKETS - 1, 0, 2, Err(LAST_WORDS)),
];

/// Takes once more and is dropped, so that another's try is missed for good.
fn keeps<R: Abort + Wait>(
    rt: &R,
    lock: &TicketLock<Numbers>,
    mut pass: Pass<Numbers>,
    other: &mut Pass<Numbers>,
    answer: Result<usize, Busy>,
)
    requires own { IsPassOf lock.now pass × IsOut pass }
    requires other { IsPassOf lock.now other.old × IsOut other.old }
    ensures other { IsPassOf lock.now other.new × IsOut other.new }
{
    let Ok(numbers) = lock.take(rt, &mut pass) else {
        panic!(rt; "no tickets")
    };
    drop(numbers);
    drop(pass);
    let Err(missed) = lock.try_take(other) else {
        panic!(rt; "free")
    };
    match missed {
        TryTakeError::Busy(words) => assert!(rt; answer == Err(words)),
        TryTakeError::TicketsEnded => assert!(rt;
            matches!(answer, Err(Busy { next: TICKETS, .. }))
        ),
    }
}

/// One more pass that is handed in, unless there are enough.
fn hands_in(
    rt: &impl Abort,
    lock: &TicketLock<Numbers>,
    handed: &mut Vec<Pass<Numbers>>,
    pass: Pass<Numbers>,
    enough: usize,
)
    requires own { AllByRecursion (IsPassOf lock.now) handed.old.items × IsPassOf lock.now pass }
    requires out { AllByRecursion IsOut handed.old.items × IsOut pass }
    ensures own { AllByRecursion (IsPassOf lock.now) handed.new.items }
    ensures out { AllByRecursion IsOut handed.new.items }
{
    let _ = lock;
    if handed.len() < enough && handed.push(pass).is_err() {
        panic!(rt; "out of memory")
    }
}

/// Makes one close.
fn closes<R: Abort + Wait>(rt: &R, alloc: Global, row: Closing) {
    let (ticket, takes, enough, answer) = row;
    assert!(rt; ticket <= TICKETS);
    let Ok((lock, mut passes)) = TicketLock::open_at(alloc, Numbers::new(alloc), 3, ticket) else {
        panic!(rt; "out of memory")
    };
    let third = last_pass(rt, &lock, &mut passes, ticket, 3);
    let mut second = last_pass(rt, &lock, &mut passes, ticket, 2);
    let first = last_pass(rt, &lock, &mut passes, ticket, 1);
    let third = works(rt, &lock, third, 3, takes);
    let mut handed = Vec::new(alloc);
    if answer.is_err() {
        keeps(rt, &lock, third, &mut second, answer);
    } else {
        hands_in(rt, &lock, &mut handed, third, enough);
    }
    hands_in(rt, &lock, &mut handed, second, enough);
    hands_in(rt, &lock, &mut handed, first, enough);
    assert!(rt; handed.len() == enough);
    match lock.close(handed) {
        Ok(numbers) => {
            assert!(rt; answer == Ok(numbers.entries.len()));
            assert!(rt; has_all_in_order(&numbers, 3, takes));
        }
        Err(words) => assert!(rt; answer == Err(words)),
    }
}

#[test]
fn a_close_gives_all_that_was_put_or_the_last_words(rt: HostRuntime) {
    for row in CLOSINGS {
        closes(&rt, rt.alloc(), *row);
    }
}
