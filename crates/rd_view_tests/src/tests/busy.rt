//! A try is Busy while another viewer's call is under the lock.
ghost use Rattle.rd_desk.specs.Desks.{IsViewerOf};

use super::calls::fresh;
use super::threads::work_of;
use rd_desk::{Answer, Desk, DeskPass, DeskRefusal, Gate, Ran, run_viewers};
use rd_marks::Command;
use std::sync::Wait;
use std::sync::atomic::{AtomicBool, Ordering};

/// A viewer of this test gives up after this many calls. The limit of a history, which has the same
/// name, is less.
const MOST_CALLS: u64 = 100_000_000;

/// A gate whose first viewer asks a desk again and again, until the desk was busy for the second
/// one, which only tries.
#[derive(Clone, Copy)]
struct Tried<'a> {
    /// The desk.
    desk: &'a Desk<4>,
    /// Whether it was busy for the second viewer.
    was_busy: &'a AtomicBool,
}

impl<'a> Gate for Tried<'a> {
    type Pass = DeskPass<4>;

    ghost takes = { λ gate pass. IsViewerOf gate.desk.now pass };

    ghost told = { λ gate pass command answer after. Unit {0} };

    fn ask<R: Wait>(&self, rt: &R, pass: &mut DeskPass<4>, command: Command) -> Answer {
        if pass.number() == 1 {
            return ask_until(rt, self.desk, self.was_busy, pass, &command);
        }
        let answer = try_until_busy(self.desk, pass, &command);
        self.was_busy.store(true, Ordering::SeqCst);
        answer
    }
}

/// Asks until the flag is set, and gives the last answer.
fn ask_until<R: Wait>(
    rt: &R,
    desk: &Desk<4>,
    flag: &AtomicBool,
    pass: &mut DeskPass<4>,
    command: &Command,
) -> Answer
    requires own { IsViewerOf desk.now pass.old }
    ensures own { IsViewerOf desk.now pass.new }
{
    for _call in 0..MOST_CALLS {
        let answer = desk.ask(rt, pass, *command);
        if flag.load(Ordering::SeqCst) {
            return answer;
        }
    }
    Err(DeskRefusal::TicketsEnded)
}

/// Tries until the desk is busy, and answers that.
fn try_until_busy(desk: &Desk<4>, pass: &mut DeskPass<4>, command: &Command) -> Answer
    requires own { IsViewerOf desk.now pass.old }
    ensures own { IsViewerOf desk.now pass.new }
{
    for _call in 0..MOST_CALLS {
        let answer = desk.try_ask(pass, *command);
        if matches!(answer, Err(DeskRefusal::Busy(_))) {
            return answer;
        }
    }
    Err(DeskRefusal::TicketsEnded)
}

#[test]
fn a_try_is_busy_while_another_call_is_under_the_lock(rt: HostRuntime) {
    let Ok((desk, passes)) = Desk::open(rt.alloc(), fresh(&rt, rt.alloc()), 2) else {
        panic!(&rt; "out of memory")
    };
    let work = work_of(&rt, rt.alloc(), &desk, passes, 1);
    let was_busy = AtomicBool::new(false);
    let gate = Tried {
        desk: &desk,
        was_busy: &was_busy,
    };
    let Ok(rans) = run_viewers(&rt, rt.alloc(), &gate, work) else {
        panic!(&rt; "out of memory")
    };
    for ran in rans.as_slice() {
        let Ran::Answered { pass, answers } = ran else {
            panic!(&rt; "no thread")
        };
        let is_busy = matches!(answers.as_slice(), [Err(DeskRefusal::Busy(_))]);
        assert_eq!(&rt; is_busy, pass.number() == 2);
    }
}
