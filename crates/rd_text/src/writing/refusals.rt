//! The number, the name and the data of each refusal.

ghost use Rattle.std.specs.Prelude.{◌≡◌, ◌≤◌, length};
ghost use Rattle.rd_text.specs.Puts.{PutsUpTo};
ghost use Rattle.rd_text.specs.Refusals.{refusal_name, refusal_words, line_fault_name, script_fault_name, trace_step_words, trace_mark_words, busy_words, any_refusal_words};

use super::numbers::{put_spaced_number, put_words_and_number};
use super::texts::{Text, put};
use crate::answers::AnyRefusal;
use crate::faults::LineFault;
use rd_cell::Refusal;
use rd_devices::ScriptFault;

/// Appends to the text the number, the name and the data of any refusal or fault.
pub fn put_any_refusal(text: &mut Text, refusal: &AnyRefusal)
    ensures { PutsUpTo 100 text.old.items text.new.items (any_refusal_words refusal.now) }
{
    match *refusal {
        AnyRefusal::Refused(refusal) => put_refusal(text, refusal),
        AnyRefusal::Unread(fault) => put(text, line_fault_name(fault)),
        AnyRefusal::Stopped(fault) => put(text, script_fault_name(fault)),
        AnyRefusal::Flawed(flaw) => put_words_and_number(
            text,
            b"26 Flaw",
            u64::from(flaw.number()),
        ),
        AnyRefusal::HistoryFull => put(text, b"21 HistoryFull"),
        AnyRefusal::BadTrace => put(text, b"27 BadTrace"),
        AnyRefusal::TraceStep { step, cause } => put_trace_step(text, step, cause),
        AnyRefusal::TicketsEnded => put(text, b"29 TicketsEnded"),
        AnyRefusal::Busy { next, served } => {
            put(text, b"30 Busy");
            put_busy(text, next, served);
        }
        AnyRefusal::NotRecorded => put(text, b"31 NotRecorded"),
        AnyRefusal::TraceMark { mark, step, cause } => put_trace_mark(text, mark, step, cause),
    }
}

/// Appends to the text the refusal of an event of a trace: the event's number, and the cause.
fn put_trace_step(text: &mut Text, step: u64, cause: Refusal)
    ensures { PutsUpTo 78 text.old.items text.new.items (trace_step_words step cause) }
{
    put_words_and_number(text, b"28 TraceStep", step);
    put(text, b" cause ");
    put_refusal(text, cause);
}

/// Appends to the text the refusal of an event of a trace's bookmark: the numbers of the bookmark
/// and of the event in it, and the cause.
fn put_trace_mark(text: &mut Text, mark: u64, step: u64, cause: Refusal)
    ensures { PutsUpTo 99 text.old.items text.new.items (trace_mark_words mark step cause) }
{
    put_words_and_number(text, b"32 TraceMark", mark);
    put_spaced_number(text, step);
    put(text, b" cause ");
    put_refusal(text, cause);
}

/// Appends to the text the tickets of a busy lock, each after a space and its word: the one to be
/// drawn next (`next`), and the one that is served (`served`).
fn put_busy(text: &mut Text, next: u64, served: u64)
    ensures { PutsUpTo 54 text.old.items text.new.items (busy_words next served) }
{
    put_words_and_number(text, b" next", next);
    put_words_and_number(text, b" served", served);
}

/// Appends to the text the number and the name of a refusal, and after them its data, if it has
/// any: the number of live steps, or a step's number.
fn put_refusal(text: &mut Text, refusal: Refusal)
    ensures { PutsUpTo 38 text.old.items text.new.items (refusal_words refusal) }
{
    put(text, refusal_name(refusal));
    match refusal {
        Refusal::NothingToUndo(live) => put_spaced_number(text, live),
        Refusal::NoSuchStep(live) => put_spaced_number(text, live),
        Refusal::Depended(step) => put_spaced_number(text, step),
        _ => {}
    }
}

/// Returns the number and the name of the fault of a line.
fn line_fault_name(fault: LineFault) -> &'static [u8]
    ensures name { result.now ≡ line_fault_name fault }
    ensures len { length result.now ≤ 17 }
{
    match fault {
        LineFault::BadLine => b"22 BadLine",
        LineFault::LineTooLong => b"23 LineTooLong",
        LineFault::BadName => b"17 BadName",
    }
}

/// Returns the number and the name of the fault that stopped a run.
fn script_fault_name(fault: ScriptFault) -> &'static [u8]
    ensures name { result.now ≡ script_fault_name fault }
    ensures len { length result.now ≤ 17 }
{
    match fault {
        ScriptFault::Read => b"24 Read",
        ScriptFault::Write => b"25 Write",
    }
}

/// Returns the number and the name of a refusal, without its data.
fn refusal_name(refusal: Refusal) -> &'static [u8]
    ensures name { result.now ≡ refusal_name refusal }
    ensures len { length result.now ≤ 17 }
{
    match refusal {
        Refusal::NoActor => b"1 NoActor",
        Refusal::NotIdle => b"2 NotIdle",
        Refusal::Idle => b"3 Idle",
        Refusal::NeedsChoice => b"4 NeedsChoice",
        Refusal::NoChoice => b"5 NoChoice",
        Refusal::CounterEnd => b"6 CounterEnd",
        Refusal::SegmentsEnd => b"7 SegmentsEnd",
        Refusal::ArrayEnd => b"8 ArrayEnd",
        Refusal::TooLong => b"9 TooLong",
        Refusal::NothingToUndo(_) => b"10 NothingToUndo",
        Refusal::NothingToRedo => b"11 NothingToRedo",
        Refusal::NoSuchStep(_) => b"12 NoSuchStep",
        Refusal::Depended(_) => b"13 Depended",
        Refusal::NoMark => b"14 NoMark",
        Refusal::MarkTaken => b"15 MarkTaken",
        Refusal::TooManyMarks => b"16 TooManyMarks",
        Refusal::BadName => b"17 BadName",
        Refusal::NotATake => b"18 NotATake",
        Refusal::NoSuchPlace => b"19 NoSuchPlace",
        Refusal::NoMemory => b"20 NoMemory",
    }
}
