//! Worked rows, in one thread.

use super::calls::{adds, finds, has_all_in_order, opened, puts, returns, stays_busy};
use rd_lock::{Busy, TICKETS, TicketsEnded, TryTakeError};
use std::alloc::Global;
use std::process::Abort;
use std::sync::Wait;

/// What the first pass puts, and the second after it.
const FIVE: &[(u64, u64)] = &[(1, 5)];

const FIVE_AND_SIX: &[(u64, u64)] = &[(1, 5), (2, 6)];

#[test]
fn each_take_finds_what_was_put_and_each_meeting_the_ticket_served(rt: HostRuntime) {
    let (lock, mut first, second) = opened(&rt, rt.alloc(), 0);
    adds(&rt, &lock, &mut first, 1, &[], 5);
    let (served, mut second, first) = lock.meet(second, first);
    assert!(&rt; served == 1);
    adds(&rt, &lock, &mut second, 2, FIVE, 6);
    let (served, mut first, _second) = lock.meet(first, second);
    assert!(&rt; served == 2);
    let numbers = finds(&rt, &lock, &mut first, FIVE_AND_SIX);
    returns(&lock, &mut first, numbers);
}

#[test]
fn two_passes_put_in_turn_a_try_meanwhile_is_busy_and_the_close_gives_all(rt: HostRuntime) {
    let (lock, mut first, mut second) = opened(&rt, rt.alloc(), 0);
    adds(&rt, &lock, &mut first, 1, &[], 5);
    adds(&rt, &lock, &mut second, 2, FIVE, 6);
    let numbers = finds(&rt, &lock, &mut first, FIVE_AND_SIX);
    stays_busy(&rt, &lock, &mut second, Busy { next: 3, served: 2 });
    returns(&lock, &mut first, numbers);
    let Ok(passes) = vec![in rt.alloc(); first, second] else {
        panic!(&rt; "out of memory")
    };
    let Ok(numbers) = lock.close(passes) else {
        panic!(&rt; "busy")
    };
    assert!(&rt; numbers.entries.as_slice() == FIVE_AND_SIX);
}

#[test]
fn a_pass_dropped_while_it_holds_keeps_the_lock_busy_for_good(rt: HostRuntime) {
    let (lock, mut first, mut second) = opened(&rt, rt.alloc(), 0);
    let numbers = finds(&rt, &lock, &mut first, &[]);
    drop(numbers);
    drop(first);
    stays_busy(&rt, &lock, &mut second, Busy { next: 1, served: 0 });
    let Ok(passes) = vec![in rt.alloc(); second] else {
        panic!(&rt; "out of memory")
    };
    let Err(words) = lock.close(passes) else {
        panic!(&rt; "free")
    };
    assert!(&rt; words == Busy { next: 1, served: 0 });
}

/// This many tickets are left in a lock that begins with this one, and no more.
fn has_left<R: Abort + Wait>(rt: &R, alloc: Global, ticket: u64, left: u64) {
    let (lock, mut first, mut second) = opened(rt, alloc, ticket);
    for added in 0..left {
        let Ok(numbers) = lock.try_take(&mut second) else {
            panic!(rt; "not free")
        };
        assert!(rt; has_all_in_order(&numbers, 2, added));
        puts(rt, &lock, &mut second, numbers, 2, added);
    }
    assert!(rt; matches!(lock.try_take(&mut first), Err(TryTakeError::TicketsEnded)));
    assert!(rt; matches!(lock.take(rt, &mut second), Err(TicketsEnded)));
}

#[test]
fn the_last_ticket_is_drawn_and_none_after_it(rt: HostRuntime) {
    for left in 0..3 {
        has_left(&rt, rt.alloc(), TICKETS - left, left);
    }
}
