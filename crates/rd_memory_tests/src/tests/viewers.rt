//! Viewers whose threads, or the room for whose answers, are refused.

use rd_desk::{Answer, Gate, Ran, run_viewers};
use rd_marks::{Command, Reply};
use std::alloc::{AllocError, Global};
use std::process::Abort;
use std::sync::Wait;
use std::sync::atomic::{AtomicU64, Ordering};
use std::thread::Threads;

/// A gate of two viewers that counts the calls of each.
#[derive(Drop)]
struct Counter {
    first: AtomicU64,
    second: AtomicU64,
}

impl Counter {
    /// How often this viewer has asked.
    fn calls(&self, viewer: u64) -> &AtomicU64 {
        match viewer {
            1 => &self.first,
            _ => &self.second,
        }
    }
}

impl Gate for Counter {
    type Pass = u64;

    ghost takes = { λ gate pass. Unit {0} };

    ghost told = { λ gate pass command answer after. Unit {0} };

    fn ask<R: Wait>(&self, _rt: &R, pass: &mut u64, _command: Command) -> Answer {
        let calls = self.calls(*pass);
        calls.store(
            calls.load(Ordering::SeqCst).wrapping_add(1),
            Ordering::SeqCst,
        );
        Ok(Ok(Reply::Marks(*pass)))
    }
}

/// The commands of two viewers.
fn work(alloc: Global) -> Result<Vec<(u64, Vec<Command>)>, AllocError> {
    let first = Vec::from_array(alloc, [Command::Len, Command::Marks])?;
    let second = Vec::from_array(alloc, [Command::Len, Command::Marks])?;
    Ok(Vec::from_array(alloc, [(1, first), (2, second)])?)
}

/// What becomes of a viewer.
#[derive(Clone, Copy, PartialEq, Eq)]
enum Fate {
    /// It asked both its commands, and was answered.
    Answered,
    /// It was refused its thread, and asked nothing.
    Refused,
    /// Anything else.
    Wrong,
}

/// The fate of a viewer that has asked so often.
fn fate_of(viewer: u64, calls: u64, ran: &Ran<u64>) -> Fate {
    match ran {
        Ran::Answered { pass, answers } => {
            let wanted = [Ok(Ok(Reply::Marks(viewer))), Ok(Ok(Reply::Marks(viewer)))];
            if *pass == viewer && calls == 2 && answers.as_slice() == wanted.as_slice() {
                Fate::Answered
            } else {
                Fate::Wrong
            }
        }
        Ran::NoMemory if calls == 0 => Fate::Refused,
        Ran::NoMemory => Fate::Wrong,
    }
}

/// Whether both viewers are started and answered. If not, memory was refused: to one of them, who
/// asked nothing, or to both.
fn are_answered<R: Abort + Threads + Wait + Sync>(rt: &R, alloc: Global) -> bool {
    let gate = Counter {
        first: AtomicU64::new(0),
        second: AtomicU64::new(0),
    };
    let work = work(alloc)
        .or(work(alloc))
        .expect(rt, "refused memory twice");
    let ran = run_viewers(rt, alloc, &gate, work);
    let first = gate.first.load(Ordering::SeqCst);
    let second = gate.second.load(Ordering::SeqCst);
    match ran {
        Ok(rans) => {
            assert!(rt; rans.len() == 2);
            let ends = [fate_of(1, first, &rans[0]), fate_of(2, second, &rans[1])];
            assert!(rt; !ends.contains(&Fate::Wrong) && ends != [Fate::Refused; 2]);
            ends == [Fate::Answered; 2]
        }
        Err((_, work)) => {
            assert!(rt; first == 0 && second == 0 && work.len() == 2);
            false
        }
    }
}

#[test]
fn a_viewer_whose_thread_is_refused_asks_nothing_and_the_calls_of_the_other_stand(rt: HostRuntime) {
    assert!(&rt; are_answered(&rt, rt.alloc()) || are_answered(&rt, rt.alloc()));
}
