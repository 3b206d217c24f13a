//! Devices that fail, take little or are interrupted.

use super::runs::poised;
use rd_devices::{ReadSource, ScriptFault, WriteSink};
use rd_script::run;
use std::alloc::Global;
use std::io;
use std::io::{Read, Write};
use std::process::Abort;

/// How the devices of a run work.
#[derive(Clone, Copy)]
struct Devices {
    /// How many reads give bytes or the end; those after them fail.
    good_reads: usize,
    /// How many writes take bytes; those after them fail.
    good_writes: usize,
    /// The most bytes that a read gives.
    most_given: usize,
    /// The most bytes that a write takes.
    most_taken: usize,
    /// Whether a signal interrupts each read and each write once, before it is made again.
    interrupted: bool,
}

/// Devices that work. A read gives one byte.
const WORKING: Devices = Devices {
    good_reads: 100_000,
    good_writes: 100_000,
    most_given: 1,
    most_taken: 100_000,
    interrupted: false,
};

/// Gives what is left of a text.
#[derive(Drop)]
struct TestReader<'a> {
    rest: &'a [u8],
    devices: Devices,
    interrupts_next: bool,
}

impl<'a> Read for TestReader<'a> {
    fn read(&mut self, buf: &mut [u8]) -> io::Result<usize> {
        if self.interrupts_next {
            self.interrupts_next = false;
            return Err(io::Error::from(io::ErrorKind::Interrupted));
        }
        if self.devices.good_reads == 0 {
            return Err(io::Error::from(io::ErrorKind::BrokenPipe));
        }
        self.devices.good_reads -= 1;
        self.interrupts_next = self.devices.interrupted;
        let count = self.rest.len().min(buf.len()).min(self.devices.most_given);
        let (given, rest) = self.rest.split_at(count);
        buf[..count].copy_from_slice(given);
        self.rest = rest;
        Ok(count)
    }
}

/// Keeps what it takes.
#[derive(Drop)]
struct TestWriter<'a> {
    taken: &'a mut Vec<u8>,
    devices: Devices,
    interrupts_next: bool,
}

impl<'a> Write for TestWriter<'a> {
    fn write(&mut self, buf: &[u8]) -> io::Result<usize> {
        if self.interrupts_next {
            self.interrupts_next = false;
            return Err(io::Error::from(io::ErrorKind::Interrupted));
        }
        if self.devices.good_writes == 0 {
            return Err(io::Error::from(io::ErrorKind::BrokenPipe));
        }
        self.devices.good_writes -= 1;
        self.interrupts_next = self.devices.interrupted;
        let count = buf.len().min(self.devices.most_taken);
        self.taken.extend_from_slice(&buf[..count])?;
        Ok(count)
    }

    fn flush(&mut self) -> io::Result<()> {
        Ok(())
    }
}

/// Runs a script over its devices and a poised world, and compares what it answers and writes.
fn run_is(
    rt: &impl Abort,
    alloc: Global,
    script: &str,
    devices: Devices,
    answer: Result<u64, ScriptFault>,
    report: &str,
) {
    let mut taken = Vec::new(alloc);
    let reader = TestReader {
        rest: script.as_bytes(),
        devices,
        interrupts_next: devices.interrupted,
    };
    let writer = TestWriter {
        taken: &mut taken,
        devices,
        interrupts_next: devices.interrupted,
    };
    let said = run(
        &mut ReadSource::new(reader),
        &mut WriteSink::new(writer),
        &mut poised::<4>(rt, alloc),
    );
    assert!(rt;
        said == answer && taken.as_slice() == report.as_bytes(),
        "report {report}"
    );
}

/// A script and its devices, and what a run answers and writes.
type Row = (
    &'static str,
    Devices,
    Result<u64, ScriptFault>,
    &'static str,
);

/// Runs each script over its devices, and compares what it answers and writes.
fn runs_are(rt: &impl Abort, alloc: Global, rows: &[Row]) {
    for (script, devices, answer, report) in rows {
        run_is(rt, alloc, *script, *devices, *answer, *report);
    }
}

/// Runs two scripts over devices whose reads give this many bytes.
fn portions_are_read(rt: &impl Abort, alloc: Global, rows: &[usize]) {
    for most_given in rows {
        let devices = Devices {
            most_given: *most_given,
            ..WORKING
        };
        run_is(rt, alloc, "", devices, Ok(0), "");
        run_is(
            rt,
            alloc,
            "go 1\n\nundo\nlen",
            devices,
            Ok(4),
            "ok 1\nrefused 22 BadLine\nat 0 1\nat 0 1\n",
        );
    }
}

/// Runs 3000 lines over a reader of this many good reads, and compares how many were answered and
/// what the run answers.
fn long_reads_are(
    rt: &impl Abort,
    alloc: Global,
    rows: &[(usize, usize, Result<u64, ScriptFault>)],
) {
    let script = "len\n".repeat(alloc, 3000).expect(rt, "out of memory");
    for (good_reads, lines, answer) in rows {
        let devices = Devices {
            good_reads: *good_reads,
            most_given: 100_000,
            ..WORKING
        };
        let report = "at 0 0\n".repeat(alloc, *lines).expect(rt, "out of memory");
        run_is(rt, alloc, &script, devices, *answer, &report);
    }
}

/// Devices each of whose reads and writes a signal interrupts once.
const INTERRUPTED: Devices = Devices {
    interrupted: true,
    ..WORKING
};

/// Runs over devices that fail, take little or are interrupted.
const RUNS: &[Row] = &[
    // A failed read leaves whole lines done.
    (
        "go 1\ngo 2\n",
        Devices {
            good_reads: 0,
            ..WORKING
        },
        Err(ScriptFault::Read),
        "",
    ),
    (
        "go 1\ngo 2\n",
        Devices {
            good_reads: 4,
            ..WORKING
        },
        Err(ScriptFault::Read),
        "",
    ),
    (
        "go 1\ngo 2\n",
        Devices {
            good_reads: 5,
            ..WORKING
        },
        Err(ScriptFault::Read),
        "ok 1\n",
    ),
    (
        "go 1\ngo 2\n",
        Devices {
            good_reads: 9,
            ..WORKING
        },
        Err(ScriptFault::Read),
        "ok 1\n",
    ),
    (
        "go 1\ngo 2\n",
        Devices {
            good_reads: 10,
            ..WORKING
        },
        Err(ScriptFault::Read),
        "ok 1\nok 2\n",
    ),
    // A failed write leaves a beginning of the report.
    (
        "go 1\ngo 2\nundo\n",
        Devices {
            good_writes: 0,
            most_taken: 2,
            ..WORKING
        },
        Err(ScriptFault::Write),
        "",
    ),
    (
        "go 1\ngo 2\nundo\n",
        Devices {
            good_writes: 1,
            most_taken: 2,
            ..WORKING
        },
        Err(ScriptFault::Write),
        "ok",
    ),
    (
        "go 1\ngo 2\nundo\n",
        Devices {
            good_writes: 2,
            most_taken: 2,
            ..WORKING
        },
        Err(ScriptFault::Write),
        "ok 1",
    ),
    (
        "go 1\ngo 2\nundo\n",
        Devices {
            good_writes: 3,
            most_taken: 2,
            ..WORKING
        },
        Err(ScriptFault::Write),
        "ok 1\n",
    ),
    (
        "go 1\ngo 2\nundo\n",
        Devices {
            good_writes: 4,
            most_taken: 2,
            ..WORKING
        },
        Err(ScriptFault::Write),
        "ok 1\nok",
    ),
    // A writer that takes nothing has failed.
    (
        "go 1\n",
        Devices {
            most_taken: 0,
            ..WORKING
        },
        Err(ScriptFault::Write),
        "",
    ),
    // A writer may take a byte a call.
    (
        "go 1\ngo 2\nundo\n",
        Devices {
            most_taken: 1,
            ..WORKING
        },
        Ok(3),
        "ok 1\nok 2\nat 1 1\n",
    ),
    // Each answer is one write.
    (
        "go 1\nhello\nundo\n",
        Devices {
            good_writes: 3,
            ..WORKING
        },
        Ok(3),
        "ok 1\nrefused 22 BadLine\nat 0 1\n",
    ),
    // Reads and writes that a signal interrupts are made again.
    (
        "go 1\ngo 2\nundo\n",
        INTERRUPTED,
        Ok(3),
        "ok 1\nok 2\nat 1 1\n",
    ),
    (
        "go 1\ngo 2\nundo\n",
        Devices {
            most_taken: 1,
            ..INTERRUPTED
        },
        Ok(3),
        "ok 1\nok 2\nat 1 1\n",
    ),
    (
        "go 1\ngo 2\nundo\n",
        Devices {
            good_reads: 5,
            ..INTERRUPTED
        },
        Err(ScriptFault::Read),
        "ok 1\n",
    ),
    (
        "go 1\ngo 2\nundo\n",
        Devices {
            good_writes: 1,
            ..INTERRUPTED
        },
        Err(ScriptFault::Write),
        "ok 1\n",
    ),
];

#[test]
fn a_run_ends_as_its_devices_do(rt: HostRuntime) {
    runs_are(&rt, rt.alloc(), RUNS);
}

#[test]
fn reads_may_give_any_number_of_bytes_and_what_they_gave_before_one_fails_is_done(rt: HostRuntime) {
    portions_are_read(&rt, rt.alloc(), &[1, 2, 3, 7, 4096, 100_000]);
    long_reads_are(
        &rt,
        rt.alloc(),
        &[
            (0, 0, Err(ScriptFault::Read)),
            (1, 1024, Err(ScriptFault::Read)),
            (2, 2048, Err(ScriptFault::Read)),
            (4, 3000, Ok(3000)),
        ],
    );
}
