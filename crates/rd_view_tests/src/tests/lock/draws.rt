//! Two threads that draw at the same moment, in many rounds, so that one draws first and the other
//! loses its draw and draws again. In which rounds that happens no test can choose.
ghost use Rattle.std.specs.Prelude.{◌≡◌};
ghost use Rattle.rd_lock.specs.Locks.{number, IsOut, IsPassOf};
ghost use Rattle.std.specs.Thread.{IsSync};

use super::Numbers;
use super::calls::{has_all_in_order, opened, puts};
use crossbeam_utils::Backoff;
use rd_lock::{Pass, TicketLock};
use std::process::Abort;
use std::sync::Wait;
use std::sync::atomic::{AtomicU64, Ordering};
use std::thread::{Threads, join};

/// In how many rounds the threads draw.
const ROUNDS: u64 = 2_000;

/// One more has arrived; goes on once this many have.
fn arrives<R: Wait>(rt: &R, arrived: &AtomicU64, wanted: u64) {
    arrived.fetch_add(1, Ordering::SeqCst);
    let pause = Backoff::new();
    for _ in rt.forever() {
        if arrived.load(Ordering::SeqCst) >= wanted {
            return;
        }
        pause.spin();
    }
}

/// Takes once a round, when the other has arrived there too, and puts the round's number.
fn draws<R: Abort + Wait>(
    rt: &R,
    lock: &TicketLock<Numbers>,
    arrived: &AtomicU64,
    mut pass: Pass<Numbers>,
    who: u64,
) -> Pass<Numbers>
    requires own { IsPassOf lock.now pass × IsOut pass × (number pass ≡ who) }
    ensures own { IsPassOf lock.now result × IsOut result }
{
    for round in 0..ROUNDS {
        arrives(rt, arrived, 2 * round + 2);
        let Ok(numbers) = lock.take(rt, &mut pass) else {
            panic!(rt; "no tickets")
        };
        puts(rt, lock, &mut pass, numbers, who, round);
    }
    pass
}

/// Two passes draw in two threads.
fn draw_both<R: Abort + Threads + Wait + Sync>(
    rt: &R,
    lock: &TicketLock<Numbers>,
    one: Pass<Numbers>,
    other: Pass<Numbers>,
) -> (Pass<Numbers>, Pass<Numbers>)
    requires one { IsPassOf lock.now one × IsOut one × (number one ≡ 1) }
    requires other { IsPassOf lock.now other × IsOut other × (number other ≡ 2) }
    ensures one { IsPassOf lock.now result.0 × IsOut result.0 }
    ensures other { IsPassOf lock.now result.1 × IsOut result.1 }
{
    let arrived = AtomicU64::new(0);
    join(
        rt,
        || -> Pass<Numbers>
            requires { IsSync R.row × IsPassOf lock.now one × IsOut one × (number one ≡ 1) }
            ensures { IsPassOf lock.entry.now result × IsOut result }
        { draws(rt, lock, &arrived, one, 1) },
        || -> Pass<Numbers>
            requires { IsSync R.row × IsPassOf lock.now other × IsOut other × (number other ≡ 2) }
            ensures { IsPassOf lock.entry.now result × IsOut result }
        { draws(rt, lock, &arrived, other, 2) },
    )
}

#[test]
fn who_loses_a_draw_draws_again(rt: HostRuntime) {
    let (lock, one, two) = opened(&rt, rt.alloc(), 0);
    let (one, two) = draw_both(&rt, &lock, one, two);
    let Ok(passes) = vec![in rt.alloc(); one, two] else {
        panic!(&rt; "out of memory")
    };
    let Ok(numbers) = lock.close(passes) else {
        panic!(&rt; "busy")
    };
    for who in 1..3 {
        assert!(&rt; has_all_in_order(&numbers, who, ROUNDS));
    }
}
