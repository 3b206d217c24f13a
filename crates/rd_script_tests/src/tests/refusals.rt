//! The line of each refusal: its number, its name, and its data.

use super::line_is;
use rd_cell::Refusal;
use rd_devices::{ScriptFault, WriteSink};
use rd_script::write_answer;
use rd_step::Flaw;
use rd_text::{AnyRefusal, LineFault};
use std::alloc::Global;
use std::process::Abort;

/// Compares the line of each refusal of a command with its text, and with what a writer is given of
/// it.
fn refusals_are(rt: &impl Abort, alloc: Global, rows: &[(Refusal, &str)]) {
    for (refusal, line) in rows {
        let answer = Err(AnyRefusal::Refused(*refusal));
        line_is(rt, &answer, *line);
        let mut written = Vec::new(alloc);
        let said = write_answer(&mut WriteSink::new(&mut written), &answer);
        assert!(rt;
            said.is_ok() && written.as_slice() == line.as_bytes(),
            "line {line}"
        );
    }
}

/// Compares the line of each other refusal with its text.
fn others_are(rt: &impl Abort, rows: &[(AnyRefusal, &str)]) {
    for (refusal, line) in rows {
        line_is(rt, &Err(*refusal), *line);
    }
}

#[test]
fn each_refusal_of_a_command_has_its_line(rt: HostRuntime) {
    refusals_are(
        &rt,
        rt.alloc(),
        &[
            (Refusal::NoActor, "refused 1 NoActor\n"),
            (Refusal::NotIdle, "refused 2 NotIdle\n"),
            (Refusal::Idle, "refused 3 Idle\n"),
            (Refusal::NeedsChoice, "refused 4 NeedsChoice\n"),
            (Refusal::NoChoice, "refused 5 NoChoice\n"),
            (Refusal::CounterEnd, "refused 6 CounterEnd\n"),
            (Refusal::SegmentsEnd, "refused 7 SegmentsEnd\n"),
            (Refusal::ArrayEnd, "refused 8 ArrayEnd\n"),
            (Refusal::TooLong, "refused 9 TooLong\n"),
            (Refusal::NothingToUndo(2), "refused 10 NothingToUndo 2\n"),
            (Refusal::NothingToRedo, "refused 11 NothingToRedo\n"),
            (Refusal::NoSuchStep(31), "refused 12 NoSuchStep 31\n"),
            (Refusal::Depended(3), "refused 13 Depended 3\n"),
            (Refusal::NoMark, "refused 14 NoMark\n"),
            (Refusal::MarkTaken, "refused 15 MarkTaken\n"),
            (Refusal::TooManyMarks, "refused 16 TooManyMarks\n"),
            (Refusal::BadName, "refused 17 BadName\n"),
            (Refusal::NotATake, "refused 18 NotATake\n"),
            (Refusal::NoSuchPlace, "refused 19 NoSuchPlace\n"),
            (Refusal::NoMemory, "refused 20 NoMemory\n"),
        ],
    );
}

/// The line of each refusal that is not a command's.
const OTHERS: &[(AnyRefusal, &str)] = &[
    // Each other refusal has its line.
    (AnyRefusal::HistoryFull, "refused 21 HistoryFull\n"),
    (
        AnyRefusal::Unread(LineFault::BadLine),
        "refused 22 BadLine\n",
    ),
    (
        AnyRefusal::Unread(LineFault::LineTooLong),
        "refused 23 LineTooLong\n",
    ),
    (
        AnyRefusal::Unread(LineFault::BadName),
        "refused 17 BadName\n",
    ),
    (AnyRefusal::Stopped(ScriptFault::Read), "refused 24 Read\n"),
    (
        AnyRefusal::Stopped(ScriptFault::Write),
        "refused 25 Write\n",
    ),
    (AnyRefusal::BadTrace, "refused 27 BadTrace\n"),
    (AnyRefusal::TicketsEnded, "refused 29 TicketsEnded\n"),
    (
        AnyRefusal::Busy { next: 3, served: 2 },
        "refused 30 Busy next 3 served 2\n",
    ),
    (AnyRefusal::NotRecorded, "refused 31 NotRecorded\n"),
    // Each flaw has its number.
    (AnyRefusal::Flawed(Flaw::Makers), "refused 26 Flaw 1\n"),
    (AnyRefusal::Flawed(Flaw::PlaceNames), "refused 26 Flaw 2\n"),
    (AnyRefusal::Flawed(Flaw::ActorNames), "refused 26 Flaw 3\n"),
    (AnyRefusal::Flawed(Flaw::Counters), "refused 26 Flaw 4\n"),
    (AnyRefusal::Flawed(Flaw::Indexes), "refused 26 Flaw 5\n"),
    (
        AnyRefusal::Flawed(Flaw::ArrayCounters),
        "refused 26 Flaw 6\n",
    ),
    (
        AnyRefusal::Flawed(Flaw::ActorNumbers),
        "refused 26 Flaw 7\n",
    ),
    (AnyRefusal::Flawed(Flaw::ActorWords), "refused 26 Flaw 8\n"),
    // A refused event of a trace shows the cause with its data.
    (
        AnyRefusal::TraceStep {
            step: 1,
            cause: Refusal::NoActor,
        },
        "refused 28 TraceStep 1 cause 1 NoActor\n",
    ),
    (
        AnyRefusal::TraceStep {
            step: 70_000,
            cause: Refusal::TooLong,
        },
        "refused 28 TraceStep 70000 cause 9 TooLong\n",
    ),
    (
        AnyRefusal::TraceStep {
            step: 4,
            cause: Refusal::NoSuchStep(3),
        },
        "refused 28 TraceStep 4 cause 12 NoSuchStep 3\n",
    ),
    (
        AnyRefusal::TraceStep {
            step: u64::MAX,
            cause: Refusal::NothingToUndo(u64::MAX),
        },
        "refused 28 TraceStep 18446744073709551615 cause 10 NothingToUndo 18446744073709551615\n",
    ),
    // A refused event of a bookmark shows both numbers and the cause.
    (
        AnyRefusal::TraceMark {
            mark: 1,
            step: 1,
            cause: Refusal::Idle,
        },
        "refused 32 TraceMark 1 1 cause 3 Idle\n",
    ),
    (
        AnyRefusal::TraceMark {
            mark: u64::MAX,
            step: u64::MAX,
            cause: Refusal::NothingToUndo(u64::MAX),
        },
        "refused 32 TraceMark 18446744073709551615 18446744073709551615 cause 10 NothingToUndo 18446744073709551615\n",
    ),
];

#[test]
fn each_other_refusal_has_its_line(rt: HostRuntime) {
    others_are(&rt, OTHERS);
}
