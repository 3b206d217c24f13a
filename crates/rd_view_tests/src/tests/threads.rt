//! Many viewers at once. The history that they made is replayed over a fresh book, to the same
//! answers.
ghost use Rattle.std.specs.List.{AllByRecursion};
ghost use Rattle.rd_desk.specs.Desks.{IsNewViewer, IsViewerOf};

use super::calls::{compare, fresh, last_pass};
use rd_desk::{Answer, Desk, DeskPass, History, Ran, run_viewers};
use rd_marks::Command;
use std::alloc::Global;
use std::process::Abort;
use std::sync::Wait;
use std::thread::Threads;

/// The command that a viewer asks as its call of this number. The viewers share the actors and the
/// steps.
fn command(viewer: u64, call: u64) -> Command {
    let actor = (viewer % 4) as u8 + 1;
    match call % 8 {
        0 => Command::Enq(actor, call),
        5 => Command::UndoAt(call),
        6 => Command::Len,
        7 => Command::Deq(actor),
        _ => Command::Go(actor),
    }
}

/// Each viewer's pass with its commands.
pub(super) fn work_of(
    rt: &impl Abort,
    alloc: Global,
    desk: &Desk<4>,
    mut passes: Vec<DeskPass<4>>,
    calls: u64,
) -> Vec<(DeskPass<4>, Vec<Command>)>
    requires { AllByRecursion (IsNewViewer desk.now) passes.items }
    ensures { AllByRecursion (λ viewer. IsViewerOf desk.now viewer.0) result.items }
{
    let mut work = Vec::new(alloc);
    for _viewer in 0..passes.len() {
        let pass = last_pass(rt, desk, &mut passes);
        let commands = commands_of(rt, alloc, pass.number(), calls);
        if work.push((pass, commands)).is_err() {
            panic!(rt; "out of memory")
        }
    }
    work
}

/// The commands of a viewer.
fn commands_of(rt: &impl Abort, alloc: Global, viewer: u64, calls: u64) -> Vec<Command> {
    let mut commands = Vec::new(alloc);
    for call in 0..calls {
        if commands.push(command(viewer, call)).is_err() {
            panic!(rt; "out of memory")
        }
    }
    commands
}

/// The history replays over a fresh book, to the same answers.
fn replays(rt: &impl Abort, alloc: Global, history: &History) {
    let mut commands = Vec::new(alloc);
    for number in 1..history.len() + 1 {
        let Some((_, call)) = history.call(number) else {
            panic!(rt; "no call {number}")
        };
        if commands.push(call.command).is_err() {
            panic!(rt; "out of memory")
        }
    }
    let mut book = fresh(rt, alloc);
    let Ok(answers) = book.apply_all(alloc, &commands) else {
        panic!(rt; "out of memory")
    };
    for i in 0..answers.len() {
        let Some((_, call)) = history.call(i as u64 + 1) else {
            panic!(rt; "no call {i}")
        };
        compare(rt, i as u64 + 1, Ok(call.answer), Ok(answers[i]));
    }
}

/// The calls of a viewer are in the history in its order, with the answers that it was given, and
/// no others of it.
fn has_in_order(rt: &impl Abort, history: &History, viewer: u64, answers: &[Answer]) {
    let mut call = 0;
    for number in 1..history.len() + 1 {
        let Some((who, made)) = history.call(number) else {
            panic!(rt; "no call {number}")
        };
        if who == viewer {
            assert!(rt; call < answers.len());
            assert!(rt;
                made.command == command(viewer, call as u64),
                "call {number}"
            );
            compare(rt, number, answers[call], Ok(made.answer));
            call = call + 1;
        }
    }
    assert!(rt; call == answers.len());
}

/// This many viewers ask this many commands each, in their own threads.
fn runs<R: Abort + Threads + Wait + Sync>(rt: &R, alloc: Global, viewers: u64, calls: u64) {
    assert!(rt; 1 <= viewers && viewers <= 64);
    let Ok((desk, passes)) = Desk::open(alloc, fresh(rt, alloc), viewers) else {
        panic!(rt; "out of memory")
    };
    let work = work_of(rt, alloc, &desk, passes, calls);
    let Ok(rans) = run_viewers(rt, alloc, &desk, work) else {
        panic!(rt; "out of memory")
    };
    let Ok((_, history)) = desk.close(Vec::new(alloc)) else {
        panic!(rt; "busy")
    };
    assert!(rt; Some(history.len()) == viewers.checked_mul(calls));
    for ran in rans.as_slice() {
        let Ran::Answered { pass, answers } = ran else {
            panic!(rt; "no thread")
        };
        has_in_order(rt, &history, pass.number(), answers.as_slice());
    }
    replays(rt, alloc, &history);
}

/// How many viewers ask, and how many commands each.
const RUNS: &[(u64, u64)] = &[(1, 200), (4, 50), (64, 20)];

#[test]
fn many_viewers_make_one_legal_history(rt: HostRuntime) {
    for (viewers, calls) in RUNS {
        runs(&rt, rt.alloc(), *viewers, *calls);
    }
}
