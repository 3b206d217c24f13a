//! A conversation: each line is answered before more is read.

use super::runs::poised;
use rd_devices::{ReadSource, WriteSink};
use rd_script::run;
use std::cell::Cell;
use std::io;
use std::io::{Read, Write};

/// What the two devices of a conversation record of their calls.
#[derive(Drop)]
struct Turns {
    /// How many whole lines were read that have no answer yet.
    unanswered: Cell<u64>,
    /// Whether there was a read while a whole line had no answer.
    read_on: Cell<bool>,
}

/// Gives one piece of a text a call, as a terminal does.
#[derive(Drop)]
struct Asking<'a> {
    /// The pieces, each with the number of its line feeds.
    pieces: &'a [(&'static str, u64)],
    /// How many of them were given.
    given: usize,
    turns: &'a Turns,
}

impl<'a> Read for Asking<'a> {
    fn read(&mut self, buf: &mut [u8]) -> io::Result<usize> {
        if self.turns.unanswered.get() > 0 {
            self.turns.read_on.set(true);
        }
        let Some((piece, lines)) = self.pieces.get(self.given) else {
            return Ok(0);
        };
        let count = piece.len().min(buf.len());
        buf[..count].copy_from_slice(&piece.as_bytes()[..count]);
        self.given += 1;
        self.turns.unanswered.set(*lines);
        Ok(count)
    }
}

/// Keeps what it takes, of which each call is one answer.
#[derive(Drop)]
struct Answering<'a> {
    taken: Vec<u8>,
    turns: &'a Turns,
}

impl<'a> Write for Answering<'a> {
    fn write(&mut self, buf: &[u8]) -> io::Result<usize> {
        self.taken.extend_from_slice(buf)?;
        let unanswered = self.turns.unanswered.get();
        self.turns.unanswered.set(unanswered.saturating_sub(1));
        Ok(buf.len())
    }

    fn flush(&mut self) -> io::Result<()> {
        Ok(())
    }
}

/// Whole lines, parts of lines, two lines at once, and a last line without a line feed.
const PIECES: [(&str, u64); 7] = [
    ("go 1\n", 1),
    ("go", 0),
    (" 2\n", 1),
    ("undo\nlen\n", 2),
    ("hello\nre", 1),
    ("do\n", 1),
    ("len", 0),
];

#[test]
fn each_whole_line_is_answered_before_more_is_read(rt: HostRuntime) {
    let turns = Turns {
        unanswered: Cell::new(0),
        read_on: Cell::new(false),
    };
    let reader = Asking {
        pieces: &PIECES,
        given: 0,
        turns: &turns,
    };
    let mut writer = Answering {
        taken: Vec::new(rt.alloc()),
        turns: &turns,
    };
    let lines = run(
        &mut ReadSource::new(reader),
        &mut WriteSink::new(&mut writer),
        &mut poised::<4>(&rt, rt.alloc()),
    );
    let wanted = "ok 1\nok 2\nat 1 1\nat 1 1\nrefused 22 BadLine\nat 2 0\nat 2 0\n";
    assert!(&rt; lines == Ok(7) && writer.taken.as_slice() == wanted.as_bytes());
    assert!(&rt; !turns.read_on.get());
}
