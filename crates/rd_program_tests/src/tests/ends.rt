//! How the program ends after each outcome.

use rd_cell::Refusal;
use rd_desk::Busy;
use rd_devices::{ScriptFault, WriteSink};
use rd_program::{Done, ProgramFault, show_program_fault};
use rd_step::Flaw;
use rd_trace::TraceFault;
use rd_view::{ViewFault, ViewerEnd};
use std::alloc::Global;
use std::process::{Abort, ExitCode};
use test_kit::BrokenWriter;

/// Ends after an outcome, and compares the status, and what is written to standard error.
fn ends_with(
    rt: &impl Abort,
    alloc: Global,
    outcome: Result<Done, ProgramFault>,
    status: ExitCode,
    line: &str,
) {
    let mut errors = Vec::new(alloc);
    let ended = show_program_fault(&outcome, &mut WriteSink::new(&mut errors));
    let said = errors.as_slice() == line.as_bytes();
    assert!(rt; ended == status && said, "line {line}");
}

/// Each fault, and its line.
const FAULTS: &[(ProgramFault, &str)] = &[
    (ProgramFault::NoMemory, "lcrqdb: refused 20 NoMemory\n"),
    (ProgramFault::Read, "lcrqdb: refused 24 Read\n"),
    (
        ProgramFault::Script(ScriptFault::Read),
        "lcrqdb: refused 24 Read\n",
    ),
    (
        ProgramFault::Script(ScriptFault::Write),
        "lcrqdb: refused 25 Write\n",
    ),
    (
        ProgramFault::Trace(TraceFault::NoMemory),
        "lcrqdb: refused 20 NoMemory\n",
    ),
    (
        ProgramFault::Trace(TraceFault::BadTrace),
        "lcrqdb: refused 27 BadTrace\n",
    ),
    (
        ProgramFault::Trace(TraceFault::Flawed(Flaw::Counters)),
        "lcrqdb: refused 26 Flaw 4\n",
    ),
    (
        ProgramFault::Trace(TraceFault::TraceStep {
            step: 65_536,
            cause: Refusal::TooLong,
        }),
        "lcrqdb: refused 28 TraceStep 65536 cause 9 TooLong\n",
    ),
    (
        ProgramFault::Trace(TraceFault::TraceMark {
            mark: 2,
            step: 1,
            cause: Refusal::Idle,
        }),
        "lcrqdb: refused 32 TraceMark 2 1 cause 3 Idle\n",
    ),
    (
        ProgramFault::Trace(TraceFault::Write),
        "lcrqdb: refused 25 Write\n",
    ),
    (
        ProgramFault::View(ViewFault::NoMemory),
        "lcrqdb: refused 20 NoMemory\n",
    ),
    (
        ProgramFault::View(ViewFault::Write),
        "lcrqdb: refused 25 Write\n",
    ),
    (
        ProgramFault::View(ViewFault::Busy(Busy { next: 3, served: 2 })),
        "lcrqdb: refused 30 Busy next 3 served 2\n",
    ),
];

#[test]
fn a_fault_has_status_1_and_its_line_and_a_run_that_came_to_its_end_0_and_none(rt: HostRuntime) {
    for (fault, line) in FAULTS {
        ends_with(&rt, rt.alloc(), Err(*fault), ExitCode::FAILURE, *line);
    }
    let counted = Ok(Done::Counted(7));
    ends_with(&rt, rt.alloc(), counted, ExitCode::SUCCESS, "");
}

/// How viewers end that are there at once, and the lines for those that did not come to the end.
const VIEWERS: &[(&[ViewerEnd], ExitCode, &str)] = &[
    (&[ViewerEnd::Ended(0)], ExitCode::SUCCESS, ""),
    (
        &[ViewerEnd::Ended(7), ViewerEnd::Ended(9)],
        ExitCode::SUCCESS,
        "",
    ),
    (
        &[
            ViewerEnd::Stopped(ScriptFault::Write),
            ViewerEnd::Ended(7),
            ViewerEnd::Stopped(ScriptFault::Read),
            ViewerEnd::NotStarted,
            ViewerEnd::Ended(0),
        ],
        ExitCode::FAILURE,
        "lcrqdb: viewer 1: refused 25 Write\n\
         lcrqdb: viewer 3: refused 24 Read\n\
         lcrqdb: viewer 4: refused 20 NoMemory\n",
    ),
];

#[test]
fn each_viewer_that_did_not_come_to_the_end_has_its_line(rt: HostRuntime) {
    for (ends, status, lines) in VIEWERS {
        let ends = Vec::from_slice(rt.alloc(), *ends).expect(&rt, "out of memory");
        ends_with(&rt, rt.alloc(), Ok(Done::Lived(ends)), *status, *lines);
    }
}

#[test]
fn a_stream_that_fails_leaves_the_status(rt: HostRuntime) {
    let fault = ProgramFault::Script(ScriptFault::Write);
    let status = show_program_fault(&Err(fault), &mut WriteSink::new(BrokenWriter));
    assert!(&rt; status == ExitCode::FAILURE);
}
