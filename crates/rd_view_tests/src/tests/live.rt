//! Viewers that are there at once, at terminals in memory.

use super::calls::fresh;
use rd_devices::{ReadSource, ScriptFault, WriteSink};
use rd_view::{Terminal, ViewerEnd, run_live};
use std::alloc::Global;
use std::io::{self, ErrorKind, Write};
use std::process::Abort;
use std::sync::Wait;
use std::thread::Threads;

/// A terminal in memory: the lines that it gives, and the replies that it takes. Without a line it
/// can't be opened.
#[derive(Clone, Copy)]
struct Paper {
    lines: &'static [u8],
    replies: &'static [u8],
}

/// Takes just these bytes; a write of others fails.
#[derive(Drop)]
struct Expected {
    rest: &'static [u8],
}

impl Write for Expected {
    fn write(&mut self, buf: &[u8]) -> io::Result<usize> {
        match self.rest.strip_prefix(buf) {
            Some(rest) => {
                self.rest = rest;
                Ok(buf.len())
            }
            None => Err(io::Error::from(ErrorKind::BrokenPipe)),
        }
    }

    fn flush(&mut self) -> io::Result<()> {
        Ok(())
    }
}

impl Terminal for Paper {
    type Reader = ReadSource<&'static [u8]>;

    type Writer = WriteSink<Expected>;

    ghost opens = { λ paper reader writer. Unit {0} };

    fn open(self) -> Result<(ReadSource<&'static [u8]>, WriteSink<Expected>), ScriptFault> {
        if self.lines.is_empty() {
            return Err(ScriptFault::Read);
        }
        let writer = Expected { rest: self.replies };
        Ok((ReadSource::new(self.lines), WriteSink::new(writer)))
    }
}

/// The terminals of viewers, how each viewer ends, and how many calls the history has.
struct Live {
    papers: &'static [Paper],
    ends: &'static [ViewerEnd],
    calls: u64,
}

const LIVES: &[Live] = &[
    // Each reply has the number of its call; a line that spells no command has none, and a refused
    // command has one. The last line needs no line feed.
    Live {
        papers: &[Paper {
            lines: b"enq 1 7\nhello\ngo 1\nundo 1\nlen",
            replies: b"1 ok 1\n- refused 22 BadLine\n2 ok 2\n3 refused 13 Depended 2\n4 at 2 0\n",
        }],
        ends: &[ViewerEnd::Ended(5)],
        calls: 4,
    },
    // A viewer whose terminal can't be opened, and one that makes no call, hold up no other.
    Live {
        papers: &[
            Paper {
                lines: b"hello\n",
                replies: b"- refused 22 BadLine\n",
            },
            Paper {
                lines: b"",
                replies: b"",
            },
            Paper {
                lines: b"len\n",
                replies: b"1 at 0 0\n",
            },
        ],
        ends: &[
            ViewerEnd::Ended(1),
            ViewerEnd::Stopped(ScriptFault::Read),
            ViewerEnd::Ended(1),
        ],
        calls: 1,
    },
    // A viewer whose replies are not taken ends there; its call stands.
    Live {
        papers: &[Paper {
            lines: b"enq 1 7\ngo 1\nlen\n",
            replies: b"1 ok 1\n",
        }],
        ends: &[ViewerEnd::Stopped(ScriptFault::Write)],
        calls: 2,
    },
];

/// Viewers at these terminals end so, and leave this many calls.
fn lives<R: Abort + Threads + Wait + Sync>(rt: &R, alloc: Global, live: &Live) {
    let Ok(terminals) = Vec::from_slice(alloc, live.papers) else {
        panic!(rt; "out of memory")
    };
    assert!(rt; 1 <= terminals.len());
    assert!(rt; terminals.len() <= 64);
    let Ok(left) = run_live(rt, alloc, terminals, fresh(rt, alloc)) else {
        panic!(rt; "no desk")
    };
    assert_eq!(rt; left.ends.as_slice(), live.ends);
    assert_eq!(rt; left.history.len(), live.calls);
}

#[test]
fn viewers_that_are_there_are_answered_line_by_line(rt: HostRuntime) {
    for live in LIVES {
        lives(&rt, rt.alloc(), live);
    }
}
