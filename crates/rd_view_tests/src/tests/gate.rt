//! Viewers have threads of their own: a gate that holds one viewer's call until the other's is
//! answered lets both go.
use rd_desk::{Answer, DeskRefusal, Gate, Ran, run_viewers};
use rd_marks::{Command, Reply};
use std::alloc::Global;
use std::process::Abort;
use std::sync::Wait;
use std::sync::atomic::{AtomicBool, Ordering};
use std::thread::Threads;

/// A gate gives up after this many turns, a turn being one load of its flag.
const MOST_TURNS: u64 = 1_000_000_000;

/// A gate that holds the calls of one viewer until another viewer's call is answered.
#[derive(Drop)]
struct Held {
    /// The viewer whose calls are held.
    held: u64,
    /// Whether a call of another viewer is answered.
    is_answered: AtomicBool,
}

impl Gate for Held {
    type Pass = u64;

    ghost takes = { λ gate pass. Unit {0} };

    ghost told = { λ gate pass command answer after. Unit {0} };

    fn ask<R: Wait>(&self, _rt: &R, pass: &mut u64, _command: Command) -> Answer {
        if *pass != self.held {
            self.is_answered.store(true, Ordering::SeqCst);
            return Ok(Ok(Reply::Marks(*pass)));
        }
        for _turn in 0..MOST_TURNS {
            if self.is_answered.load(Ordering::SeqCst) {
                return Ok(Ok(Reply::Marks(*pass)));
            }
        }
        Err(DeskRefusal::TicketsEnded)
    }
}

/// Runs two viewers, one of which is held until the other is answered.
fn holds<R: Abort + Threads + Wait + Sync>(rt: &R, alloc: Global, held: u64) {
    let gate = Held {
        held,
        is_answered: AtomicBool::new(false),
    };
    let mut work = Vec::new(alloc);
    for viewer in 1..3u64 {
        let Ok(commands) = vec![in alloc; Command::Len] else {
            panic!(rt; "out of memory")
        };
        if work.push((viewer, commands)).is_err() {
            panic!(rt; "out of memory")
        }
    }
    let Ok(rans) = run_viewers(rt, alloc, &gate, work) else {
        panic!(rt; "out of memory")
    };
    assert!(rt; rans.len() == 2);
    for i in 0..rans.len() {
        is_answered(rt, &rans[i], i as u64 + 1);
    }
}

/// Compares what a viewer was answered with its number.
fn is_answered(rt: &impl Abort, ran: &Ran<u64>, viewer: u64) {
    let Ran::Answered { pass, answers } = ran else {
        panic!(rt; "no thread")
    };
    let wanted = [Ok(Ok(Reply::Marks(viewer)))];
    let is_wanted = answers.as_slice() == wanted.as_slice();
    assert!(rt; *pass == viewer && is_wanted, "viewer {viewer}");
}

#[test]
fn each_viewer_has_a_thread_of_its_own(rt: HostRuntime) {
    holds(&rt, rt.alloc(), 1);
    holds(&rt, rt.alloc(), 2);
}
