//! A full history.

use super::calls::{compare, fresh, last_pass};
use rd_desk::{Answer, Desk, DeskRefusal, MOST_CALLS};
use rd_marks::{Command, Reply};

/// No step is live.
const NONE_LIVE: Answer = Ok(Ok(Reply::At { live: 0, undone: 0 }));

/// No call is recorded any more.
const FULL: Answer = Err(DeskRefusal::HistoryFull);

#[test]
fn the_100_001st_call_finds_the_history_full(rt: HostRuntime) {
    let Ok((desk, mut passes)) = Desk::open(rt.alloc(), fresh(&rt, rt.alloc()), 1) else {
        panic!(&rt; "out of memory")
    };
    let mut pass = last_pass(&rt, &desk, &mut passes);
    for call in 0..MOST_CALLS {
        compare(
            &rt,
            call as u64,
            desk.try_ask(&mut pass, Command::Len),
            NONE_LIVE,
        );
    }
    compare(&rt, 100_000, desk.try_ask(&mut pass, Command::Len), FULL);
    let answer = desk.ask(&rt, &mut pass, Command::Enq(1, 7));
    compare(&rt, 100_000, answer, FULL);
    let Ok((book, history)) = desk.close(Vec::new(rt.alloc())) else {
        panic!(&rt; "busy")
    };
    assert!(&rt; book.session().len() == 0 && history.len() == 100_000);
}
