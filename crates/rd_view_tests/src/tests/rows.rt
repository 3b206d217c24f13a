//! Worked rows, in one thread.

use super::calls::{compare, fresh, last_pass};
use rd_actor::Act;
use rd_cell::Refusal;
use rd_desk::{Answer, Call, Desk, History};
use rd_marks::{Command, Reply};
use rd_step::Event;
use std::process::Abort;

/// The first step is made.
const FIRST_STEP: Result<Reply, Refusal> = Ok(Reply::Applied {
    step: 1,
    reply: None,
});

/// One step is live.
const ONE_LIVE: Result<Reply, Refusal> = Ok(Reply::At { live: 1, undone: 0 });

/// Compares the call of this number, which the viewer of this number made, with what is wanted.
fn has_call(
    rt: &impl Abort,
    history: &History,
    number: u64,
    command: Command,
    answer: Result<Reply, Refusal>,
) {
    let call = Call { command, answer };
    assert_eq!(rt; history.call(number), Some((number, call)));
}

#[test]
fn a_viewer_sees_what_another_did(rt: HostRuntime) {
    let Ok((desk, mut passes)) = Desk::open(rt.alloc(), fresh(&rt, rt.alloc()), 2) else {
        panic!(&rt; "out of memory")
    };
    let second = last_pass(&rt, &desk, &mut passes);
    let mut first = last_pass(&rt, &desk, &mut passes);
    let answer = desk.ask(&rt, &mut first, Command::Enq(1, 7));
    compare(&rt, 1, answer, Ok(FIRST_STEP));
    let (served, mut second, first) = desk.meet(second, first);
    assert!(&rt; served == 1);
    let answer = desk.try_ask(&mut second, Command::Len);
    compare(&rt, 2, answer, Ok(ONE_LIVE));
    let Ok(passes) = vec![in rt.alloc(); first, second] else {
        panic!(&rt; "out of memory")
    };
    let Ok((book, history)) = desk.close(passes) else {
        panic!(&rt; "busy")
    };
    assert!(&rt; book.session().len() == 1 && history.len() == 2);
    has_call(&rt, &history, 1, Command::Enq(1, 7), FIRST_STEP);
    has_call(&rt, &history, 2, Command::Len, ONE_LIVE);
    assert!(&rt; history.call(0).is_none() && history.call(3).is_none());
}

#[test]
fn one_viewer_waits_for_nobody(rt: HostRuntime) {
    let Ok((desk, mut passes)) = Desk::open(rt.alloc(), fresh(&rt, rt.alloc()), 1) else {
        panic!(&rt; "out of memory")
    };
    let mut pass = last_pass(&rt, &desk, &mut passes);
    let answer = desk.try_ask(&mut pass, Command::Enq(1, 7));
    compare(&rt, 1, answer, Ok(FIRST_STEP));
    is_first_step(&rt, desk.try_ask(&mut pass, Command::Step(1)));
    let Ok(passes) = vec![in rt.alloc(); pass] else {
        panic!(&rt; "out of memory")
    };
    let Ok((book, history)) = desk.close(passes) else {
        panic!(&rt; "busy")
    };
    assert!(&rt; book.session().len() == 1 && history.len() == 2);
}

/// Compares a shown step with the first one.
fn is_first_step(rt: &impl Abort, answer: Answer) {
    let Ok(Ok(Reply::Step { number, entry })) = answer else {
        panic!(rt; "no step")
    };
    let act = Act::Enq(7);
    assert!(rt; number == 1 && entry.event == Event { actor: 1, act });
}
