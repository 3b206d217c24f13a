//! A pass that waits has drawn its ticket, so whoever takes later comes after it.
ghost use Rattle.std.specs.Prelude.{◌≡◌, ℕ};
ghost use Rattle.rd_lock.specs.Locks.{number, IsHolding, IsOut, IsPassOf};
ghost use Rattle.std.specs.Thread.{IsSync};

use super::Numbers;
use super::calls::{finds, last_pass, puts, works};
use crossbeam_utils::Backoff;
use rd_lock::{Pass, TicketLock, TryTakeError};
use std::process::Abort;
use std::sync::Wait;
use std::thread::{Threads, join};

/// Tries until the words show two drawn tickets, that of the holder and that of who waits. A `take`
/// that draws no ticket while it waits would keep this trying forever.
fn sees_who_waits<R: Abort + Wait>(
    rt: &R,
    lock: &TicketLock<Numbers>,
    mut pass: Pass<Numbers>,
) -> Pass<Numbers>
    requires own { IsPassOf lock.now pass × IsOut pass × (number pass ≡ 3) }
    ensures own { IsPassOf lock.now result × IsOut result × (number result ≡ 3) }
{
    let pause = Backoff::new();
    for _ in rt.forever() {
        match lock.try_take(&mut pass) {
            Err(TryTakeError::Busy(words)) if words.next == 2 => return pass,
            Err(_) => pause.spin(),
            Ok(_) => panic!(rt; "free"),
        }
    }
    pass
}

/// Gives back what the first pass holds once the second waits for it, and then takes by the third.
fn frees_for_two<R: Abort + Wait>(
    rt: &R,
    lock: &TicketLock<Numbers>,
    mut holder: Pass<Numbers>,
    numbers: Numbers,
    later: Pass<Numbers>,
) -> (Pass<Numbers>, Pass<Numbers>)
    requires holder { IsPassOf lock.now holder × (number holder ≡ 1) }
    requires holds { (ticket : ℕ) × IsHolding holder ticket numbers.entries.items }
    requires later { IsPassOf lock.now later × IsOut later × (number later ≡ 3) }
    ensures holder { IsPassOf lock.now result.0 × IsOut result.0 }
    ensures later { IsPassOf lock.now result.1 × IsOut result.1 }
{
    let later = sees_who_waits(rt, lock, later);
    puts(rt, lock, &mut holder, numbers, 1, 0);
    (holder, works(rt, lock, later, 3, 1))
}

/// The first pass holds; the second waits in a thread of its own; the third takes after it.
fn take_in_turn<R: Abort + Threads + Wait + Sync>(
    rt: &R,
    lock: &TicketLock<Numbers>,
    holder: Pass<Numbers>,
    numbers: Numbers,
    waiter: Pass<Numbers>,
    later: Pass<Numbers>,
) -> (Pass<Numbers>, (Pass<Numbers>, Pass<Numbers>))
    requires holder { IsPassOf lock.now holder × (number holder ≡ 1) }
    requires holds { (ticket : ℕ) × IsHolding holder ticket numbers.entries.items }
    requires waiter { IsPassOf lock.now waiter × IsOut waiter × (number waiter ≡ 2) }
    requires later { IsPassOf lock.now later × IsOut later × (number later ≡ 3) }
    ensures waiter { IsPassOf lock.now result.0 × IsOut result.0 }
    ensures holder { IsPassOf lock.now result.1.0 × IsOut result.1.0 }
    ensures later { IsPassOf lock.now result.1.1 × IsOut result.1.1 }
{
    join(
        rt,
        move || -> Pass<Numbers>
            requires { IsSync R.row × IsPassOf lock.now waiter × IsOut waiter
                × (number waiter ≡ 2) }
            ensures { IsPassOf lock.entry.now result × IsOut result }
        { works(rt, lock, waiter, 2, 1) },
        move || -> (Pass<Numbers>, Pass<Numbers>)
            requires { IsSync R.row × IsPassOf lock.now holder × (number holder ≡ 1)
                × ((ticket : ℕ) × IsHolding holder ticket numbers.entries.items)
                × IsPassOf lock.now later × IsOut later × (number later ≡ 3) }
            ensures { IsPassOf lock.entry.now result.0 × IsOut result.0
                × IsPassOf lock.entry.now result.1 × IsOut result.1 }
        { frees_for_two(rt, lock, holder, numbers, later) },
    )
}

#[test]
fn who_waits_has_drawn_and_comes_before_who_takes_later(rt: HostRuntime) {
    let Ok((lock, mut passes)) = TicketLock::open(rt.alloc(), Numbers::new(rt.alloc()), 3) else {
        panic!(&rt; "out of memory")
    };
    let three = last_pass(&rt, &lock, &mut passes, 0, 3);
    let two = last_pass(&rt, &lock, &mut passes, 0, 2);
    let mut one = last_pass(&rt, &lock, &mut passes, 0, 1);
    let numbers = finds(&rt, &lock, &mut one, &[]);
    let (two, (one, three)) = take_in_turn(&rt, &lock, one, numbers, two, three);
    let Ok(passes) = vec![in rt.alloc(); one, two, three] else {
        panic!(&rt; "out of memory")
    };
    let Ok(numbers) = lock.close(passes) else {
        panic!(&rt; "busy")
    };
    assert!(&rt; numbers.entries.as_slice() == [(1, 0), (2, 0), (3, 0)].as_slice());
}
