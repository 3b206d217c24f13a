//! Four threads at one lock.
ghost use Rattle.std.specs.Prelude.{◌≡◌};
ghost use Rattle.rd_lock.specs.Locks.{number, IsOut, IsPassOf};
ghost use Rattle.std.specs.Thread.{IsSync};

use super::Numbers;
use super::calls::{has_all_in_order, last_pass, works};
use rd_lock::{Pass, TicketLock};
use std::process::Abort;
use std::sync::Wait;
use std::thread::{Threads, join};

/// How often each pass takes.
const TAKES: u64 = 1_000;

/// Two passes take in two threads.
fn work_both<R: Abort + Threads + Wait + Sync>(
    rt: &R,
    lock: &TicketLock<Numbers>,
    one: Pass<Numbers>,
    other: Pass<Numbers>,
    who: u64,
    whose: u64,
) -> (Pass<Numbers>, Pass<Numbers>)
    requires one { IsPassOf lock.now one × IsOut one × (number one ≡ who) }
    requires other { IsPassOf lock.now other × IsOut other × (number other ≡ whose) }
    ensures one { IsPassOf lock.now result.0 × IsOut result.0 }
    ensures other { IsPassOf lock.now result.1 × IsOut result.1 }
{
    join(
        rt,
        move || -> Pass<Numbers>
            requires { IsSync R.row × IsPassOf lock.now one × IsOut one × (number one ≡ who) }
            ensures { IsPassOf lock.entry.now result × IsOut result }
        { works(rt, lock, one, who, TAKES) },
        move || -> Pass<Numbers>
            requires { IsSync R.row × IsPassOf lock.now other × IsOut other
                × (number other ≡ whose) }
            ensures { IsPassOf lock.entry.now result × IsOut result }
        { works(rt, lock, other, whose, TAKES) },
    )
}

/// Four passes take in four threads.
fn work_all<R: Abort + Threads + Wait + Sync>(
    rt: &R,
    lock: &TicketLock<Numbers>,
    first: (Pass<Numbers>, Pass<Numbers>),
    last: (Pass<Numbers>, Pass<Numbers>),
) -> (
    (Pass<Numbers>, Pass<Numbers>),
    (Pass<Numbers>, Pass<Numbers>),
)
    requires first { IsPassOf lock.now first.0 × IsOut first.0 × (number first.0 ≡ 1) }
    requires second { IsPassOf lock.now first.1 × IsOut first.1 × (number first.1 ≡ 2) }
    requires third { IsPassOf lock.now last.0 × IsOut last.0 × (number last.0 ≡ 3) }
    requires fourth { IsPassOf lock.now last.1 × IsOut last.1 × (number last.1 ≡ 4) }
    ensures first { IsPassOf lock.now result.0.0 × IsOut result.0.0 }
    ensures second { IsPassOf lock.now result.0.1 × IsOut result.0.1 }
    ensures third { IsPassOf lock.now result.1.0 × IsOut result.1.0 }
    ensures fourth { IsPassOf lock.now result.1.1 × IsOut result.1.1 }
{
    let (one, two) = first;
    let (three, four) = last;
    join(
        rt,
        move || -> (Pass<Numbers>, Pass<Numbers>)
            requires { IsSync R.row × IsPassOf lock.now one × IsOut one × (number one ≡ 1)
                × IsPassOf lock.now two × IsOut two × (number two ≡ 2) }
            ensures { IsPassOf lock.entry.now result.0 × IsOut result.0
                × IsPassOf lock.entry.now result.1 × IsOut result.1 }
        { work_both(rt, lock, one, two, 1, 2) },
        move || -> (Pass<Numbers>, Pass<Numbers>)
            requires { IsSync R.row × IsPassOf lock.now three × IsOut three × (number three ≡ 3)
                × IsPassOf lock.now four × IsOut four × (number four ≡ 4) }
            ensures { IsPassOf lock.entry.now result.0 × IsOut result.0
                × IsPassOf lock.entry.now result.1 × IsOut result.1 }
        { work_both(rt, lock, three, four, 3, 4) },
    )
}

#[test]
fn four_threads_put_each_in_its_order(rt: HostRuntime) {
    let Ok((lock, mut passes)) = TicketLock::open(rt.alloc(), Numbers::new(rt.alloc()), 4) else {
        panic!(&rt; "out of memory")
    };
    let four = last_pass(&rt, &lock, &mut passes, 0, 4);
    let three = last_pass(&rt, &lock, &mut passes, 0, 3);
    let two = last_pass(&rt, &lock, &mut passes, 0, 2);
    let one = last_pass(&rt, &lock, &mut passes, 0, 1);
    let ((one, two), (three, four)) = work_all(&rt, &lock, (one, two), (three, four));
    let Ok(passes) = vec![in rt.alloc(); one, two, three, four] else {
        panic!(&rt; "out of memory")
    };
    let Ok(numbers) = lock.close(passes) else {
        panic!(&rt; "busy")
    };
    assert!(&rt; numbers.entries.len() == 4_000);
    for who in 1..5 {
        assert!(&rt; has_all_in_order(&numbers, who, TAKES));
    }
}
