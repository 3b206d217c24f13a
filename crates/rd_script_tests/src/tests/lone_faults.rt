//! Devices that fail once and then work: a fault ends the run and the device is not asked again,
//! but after an interruption it is.

use super::runs::poised;
use rd_devices::{ReadSource, ScriptFault, WriteSink};
use rd_script::run;
use std::alloc::Global;
use std::io;
use std::io::{ErrorKind, Read, Write};
use std::process::Abort;

/// The calls of a device, one of which fails.
#[derive(Clone, Copy)]
struct Calls {
    /// How many there were.
    made: u64,
    /// The number of the one that fails, from 1.
    failing: u64,
    /// How it fails.
    kind: ErrorKind,
}

impl Calls {
    /// One more call, which fails if it is the one that does.
    fn make(&mut self) -> io::Result<()> {
        self.made = self.made.saturating_add(1);
        if self.made == self.failing {
            return Err(io::Error::from(self.kind));
        }
        Ok(())
    }
}

/// Gives what is left of a text, five bytes a call.
#[derive(Drop)]
struct TestReader<'a> {
    rest: &'a [u8],
    calls: Calls,
}

impl<'a> Read for TestReader<'a> {
    fn read(&mut self, buf: &mut [u8]) -> io::Result<usize> {
        self.calls.make()?;
        let count = self.rest.len().min(buf.len()).min(5);
        let (given, rest) = self.rest.split_at(count);
        buf[..count].copy_from_slice(given);
        self.rest = rest;
        Ok(count)
    }
}

/// Keeps all that it is given.
#[derive(Drop)]
struct TestWriter {
    taken: Vec<u8>,
    calls: Calls,
}

impl Write for TestWriter {
    fn write(&mut self, buf: &[u8]) -> io::Result<usize> {
        self.calls.make()?;
        self.taken.extend_from_slice(buf)?;
        Ok(buf.len())
    }

    fn flush(&mut self) -> io::Result<()> {
        Ok(())
    }
}

/// Two lines of five bytes.
const SCRIPT: &str = "go 1\ngo 2\n";

/// How a call fails and its number, what the run answers and writes, and how many calls the device
/// then had.
type Row = (ErrorKind, u64, Result<u64, ScriptFault>, &'static str, u64);

/// Runs the script over a reader that fails at one call, and compares what it answers and writes,
/// and the number of calls.
fn reads_are(rt: &impl Abort, alloc: Global, rows: &[Row]) {
    for (kind, failing, answer, report, made) in rows {
        let mut reader = TestReader {
            rest: SCRIPT.as_bytes(),
            calls: Calls {
                made: 0,
                failing: *failing,
                kind: *kind,
            },
        };
        let mut written = Vec::new(alloc);
        let said = run(
            &mut ReadSource::new(&mut reader),
            &mut WriteSink::new(&mut written),
            &mut poised::<4>(rt, alloc),
        );
        let wrote = written.as_slice() == report.as_bytes();
        assert!(rt;
            said == *answer && wrote && reader.calls.made == *made,
            "read {failing}"
        );
    }
}

/// Runs the script over a writer that fails at one call, and compares what it answers and writes,
/// and the number of calls.
fn writes_are(rt: &impl Abort, alloc: Global, rows: &[Row]) {
    for (kind, failing, answer, report, made) in rows {
        let mut writer = TestWriter {
            taken: Vec::new(alloc),
            calls: Calls {
                made: 0,
                failing: *failing,
                kind: *kind,
            },
        };
        let said = run(
            &mut ReadSource::new(SCRIPT.as_bytes()),
            &mut WriteSink::new(&mut writer),
            &mut poised::<4>(rt, alloc),
        );
        let wrote = writer.taken.as_slice() == report.as_bytes();
        assert!(rt;
            said == *answer && wrote && writer.calls.made == *made,
            "write {failing}"
        );
    }
}

/// Reads of which one fails.
const READS: &[Row] = &[
    // A reader that failed is not asked again.
    (ErrorKind::WouldBlock, 1, Err(ScriptFault::Read), "", 1),
    (
        ErrorKind::WouldBlock,
        2,
        Err(ScriptFault::Read),
        "ok 1\n",
        2,
    ),
    (
        ErrorKind::WouldBlock,
        3,
        Err(ScriptFault::Read),
        "ok 1\nok 2\n",
        3,
    ),
    (ErrorKind::TimedOut, 2, Err(ScriptFault::Read), "ok 1\n", 2),
    // A reader that was interrupted is asked again.
    (ErrorKind::Interrupted, 1, Ok(2), "ok 1\nok 2\n", 4),
    (ErrorKind::Interrupted, 3, Ok(2), "ok 1\nok 2\n", 4),
];

/// Writes of which one fails.
const WRITES: &[Row] = &[
    // A writer that failed is not asked again.
    (ErrorKind::WouldBlock, 1, Err(ScriptFault::Write), "", 1),
    (
        ErrorKind::WouldBlock,
        2,
        Err(ScriptFault::Write),
        "ok 1\n",
        2,
    ),
    (ErrorKind::TimedOut, 2, Err(ScriptFault::Write), "ok 1\n", 2),
    // A writer that was interrupted is asked again.
    (ErrorKind::Interrupted, 1, Ok(2), "ok 1\nok 2\n", 3),
    (ErrorKind::Interrupted, 2, Ok(2), "ok 1\nok 2\n", 3),
];

#[test]
fn a_device_that_failed_is_not_asked_again_and_one_that_was_interrupted_is(rt: HostRuntime) {
    reads_are(&rt, rt.alloc(), READS);
    writes_are(&rt, rt.alloc(), WRITES);
}
