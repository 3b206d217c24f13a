//! Viewers that are there at once, whose lines are in memory: what is written when all have ended.

use rd_devices::{ReadSource, ScriptFault, WriteSink};
use rd_marks::{AnyBook, Ring};
use rd_program::{ProgramFault, ViewExtras, view_live};
use rd_view::{Terminal, ViewFault, ViewerEnd};
use std::alloc::Global;
use std::io;
use std::process::Abort;
use std::sync::Wait;
use std::thread::Threads;
use test_kit::BrokenWriter;

/// A terminal that gives these lines, and takes any replies. Without a line it can't be opened.
#[derive(Clone, Copy)]
struct Lines(&'static [u8]);

impl Terminal for Lines {
    type Reader = ReadSource<&'static [u8]>;

    type Writer = WriteSink<io::Sink>;

    ghost opens = { λ lines reader writer. Unit {0} };

    fn open(self) -> Result<(ReadSource<&'static [u8]>, WriteSink<io::Sink>), ScriptFault> {
        if self.0.is_empty() {
            return Err(ScriptFault::Read);
        }
        Ok((ReadSource::new(self.0), WriteSink::new(io::sink())))
    }
}

/// The terminals of viewers, what is written behind their number of calls, all that is written, and
/// how each viewer ends.
struct Live {
    lines: &'static [Lines],
    extras: ViewExtras,
    text: &'static str,
    ends: &'static [ViewerEnd],
}

/// Viewers of one world with one actor and rings of 2 cells. Only the first of them makes calls.
const LIVES: &[Live] = &[
    Live {
        lines: &[Lines(b"enq 1 7\nhello\ngo 1\nundo 1"), Lines(b"")],
        extras: ViewExtras {
            history: false,
            trace: false,
        },
        text: "history 3\n",
        ends: &[ViewerEnd::Ended(4), ViewerEnd::Stopped(ScriptFault::Read)],
    },
    Live {
        lines: &[Lines(b"enq 1 7\nundo\n"), Lines(b"\n")],
        extras: ViewExtras {
            history: true,
            trace: true,
        },
        text: "history 2\n1 enq 1 7\n1 undo\n{\"events\":[],\"marks\":[],\"ring\":2,\"start\":{\"fresh\":1},\"undone\":[[\"enq\",1,7]],\"version\":2}\n",
        ends: &[ViewerEnd::Ended(2), ViewerEnd::Ended(1)],
    },
];

/// The book of a fresh world with one actor and rings of 2 cells.
fn fresh(rt: &impl Abort, alloc: Global) -> AnyBook {
    AnyBook::fresh(alloc, Ring::Two, 1).expect(rt, "out of memory")
}

/// Viewers at these terminals end so, and this is written.
fn lives<R: Abort + Threads + Wait + Sync>(rt: &R, alloc: Global, live: &Live) {
    let terminals = Vec::from_slice(alloc, live.lines).expect(rt, "out of memory");
    assert!(rt; 1 <= terminals.len() && terminals.len() <= 64);
    let mut written = Vec::new(alloc);
    let sink = &mut WriteSink::new(&mut written);
    let book = fresh(rt, alloc);
    let Ok((ends, _)) = view_live(rt, alloc, terminals, sink, book, live.extras) else {
        panic!(rt; "nothing was left");
    };
    assert_eq!(rt; ends.as_slice(), live.ends);
    assert_eq!(rt; written.as_slice(), live.text.as_bytes());
}

#[test]
fn viewers_that_are_there_leave_their_history_and_their_ends(rt: HostRuntime) {
    for live in LIVES {
        lives(&rt, rt.alloc(), live);
    }
}

#[test]
fn a_history_that_cannot_be_written_is_a_failed_write(rt: HostRuntime) {
    let terminals = Vec::from_slice(rt.alloc(), &[Lines(b"len\n")]).expect(&rt, "out of memory");
    assert!(&rt; terminals.len() == 1);
    let sink = &mut WriteSink::new(BrokenWriter);
    let extras = ViewExtras {
        history: false,
        trace: false,
    };
    let book = fresh(&rt, rt.alloc());
    let ends = view_live(&rt, rt.alloc(), terminals, sink, book, extras);
    assert!(&rt; matches!(ends, Err(ProgramFault::View(ViewFault::Write))));
}
