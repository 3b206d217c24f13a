//! Whole sessions as JSON: the object of version 1, which is only read, and the object of version
//! 2, which is read and written.

ghost use Rattle.std.specs.Prelude.{◌≡◌, ◌≤◌, Some, codes, IfOk, OnOk, IsUtf8, string_bytes};
ghost use Rattle.serde_json.specs.View.{view};
ghost use Rattle.rd_step.specs.Prelude.{MOST_CELLS};
ghost use Rattle.rd_journal.specs.Sessions.{state};
ghost use Rattle.rd_marks.specs.Book.{book_state};
ghost use Rattle.rd_trace.specs.Numbers.{member_count, number_at};
ghost use Rattle.rd_trace.specs.Spelled.{Reads, Gives};
ghost use Rattle.rd_trace.specs.Events.{event_of, event_data};
ghost use Rattle.rd_trace.specs.Saved.{saved_trace, IsVersion1, IsVersion2, IsEitherVersion};
ghost use Rattle.rd_trace.specs.Texts.{AreAppended};
ghost use Rattle.rd_trace.specs.Writing.{IsTextOf};

use super::bookmarks::{SavedMark, parse_marks, put_marks};
use super::events::put_next_event;
use super::faults::TraceFault;
use super::members::{items_at, member_count, number_at};
use super::spelled::parse_list;
use super::starts::{Start, actor_count_at, parse_start, put_start};
use super::texts::put_number;
use rd_journal::Session;
use rd_marks::Book;
use rd_marks::laws::the_events_of_a_session_can_run;
use rd_step::Event;
use serde_json::Value;
use std::alloc::{AllocError, Global};

/// The number of members of a trace of version 1.
const VERSION_1_MEMBERS: usize = 4;

/// The number of members of a trace of version 2.
const VERSION_2_MEMBERS: usize = 6;

/// The version that is written.
const WRITTEN_VERSION: u64 = 2;

const ACTORS: &str = "actors";

const EVENTS: &str = "events";

const MARKS: &str = "marks";

const START: &str = "start";

const UNDONE: &str = "undone";

const VERSION: &str = "version";

/// A book that was read.
#[derive(Drop)]
pub struct SavedBook<const R: usize> {
    /// Where it starts.
    pub start: Start<R>,
    /// Its bookmarks, in order.
    pub marks: Vec<SavedMark>,
    /// Its live events, in order.
    pub events: Vec<Event>,
    /// Its undone events, beginning with the one that was undone last.
    pub undone: Vec<Event>,
}

/// Returns the book over rings of `R` cells that a JSON value spells, as a trace of version 1 or
/// 2. The value must have the number `R`, at most 64, at the key `ring`.
///
/// # Errors
///
/// `BadTrace` if it spells none; `NoMemory` if memory was refused.
#[tactic(auto, using(crate::proofs::SavedLemmas::version1_read, crate::proofs::SavedLemmas::version2_read))]
pub fn parse_book<const R: usize>(alloc: Global, value: &Value) -> Result<SavedBook<R>, TraceFault>
    requires small { R ≤ MOST_CELLS }
    requires ring { number_at (codes "ring") (view value.now) ≡ Some R }
    ensures { Reads saved_trace (IsEitherVersion (view value.now)) result }
{
    match (number_at(value, VERSION), member_count(value)) {
        (Some(1), Some(VERSION_1_MEMBERS)) => parse_version_1_book(alloc, value),
        (Some(WRITTEN_VERSION), Some(VERSION_2_MEMBERS)) => parse_version_2_book(alloc, value),
        _ => Err(TraceFault::BadTrace),
    }
}

/// Returns the book that a JSON value spells as a trace of version 1: over a fresh world, with
/// nothing undone and no bookmark. The value must be an object of four members, with the version 1
/// and rings of `R` cells, and `R` must be at most 64. Fails with `BadTrace` if it spells none, and
/// with `NoMemory` if memory is refused.
fn parse_version_1_book<const R: usize>(
    alloc: Global,
    value: &Value,
) -> Result<SavedBook<R>, TraceFault>
    requires small { R ≤ MOST_CELLS }
    requires members { member_count (view value.now) ≡ Some 4 }
    requires version { number_at (codes "version") (view value.now) ≡ Some 1 }
    requires ring { number_at (codes "ring") (view value.now) ≡ Some R }
    ensures { Reads saved_trace (IsVersion1 (view value.now)) result }
{
    let Some(actors) = actor_count_at(value, ACTORS) else {
        return Err(TraceFault::BadTrace);
    };
    Ok(SavedBook {
        start: Start::Fresh(actors),
        marks: Vec::new(alloc),
        events: parse_list(alloc, items_at(value, EVENTS))?,
        undone: Vec::new(alloc),
    })
}

/// Returns the book that a JSON value spells as a trace of version 2. The value must be an
/// object of six members, with the version 2 and rings of `R` cells, and `R` must be at most 64.
/// Fails with `BadTrace` if it spells none, and with `NoMemory` if memory is refused.
fn parse_version_2_book<const R: usize>(
    alloc: Global,
    value: &Value,
) -> Result<SavedBook<R>, TraceFault>
    requires small { R ≤ MOST_CELLS }
    requires members { member_count (view value.now) ≡ Some 6 }
    requires version { number_at (codes "version") (view value.now) ≡ Some 2 }
    requires ring { number_at (codes "ring") (view value.now) ≡ Some R }
    ensures { Reads saved_trace (IsVersion2 (view value.now)) result }
{
    let Some(start) = value.get(START) else {
        return Err(TraceFault::BadTrace);
    };
    let Some(marks) = items_at(value, MARKS) else {
        return Err(TraceFault::BadTrace);
    };
    Ok(SavedBook {
        start: parse_start(alloc, start)?,
        marks: parse_marks(alloc, marks)?,
        events: parse_list(alloc, items_at(value, EVENTS))?,
        undone: parse_list(alloc, items_at(value, UNDONE))?,
    })
}

/// Returns the text of a book's session and bookmarks as a trace of version 2, with a line feed
/// after it. With rings of 2, 4 or 8 cells, the text can be loaded as the same book. Fails only if
/// memory is refused.
pub fn trace_text<const R: usize>(alloc: Global, book: &Book<R>) -> Result<String, AllocError>
    ensures { IfOk result (λ text. IsUtf8 (string_bytes text)
        → IsTextOf (book_state book.now) (string_bytes text)) }
{
    let session = book.session();
    the_events_of_a_session_can_run(session);
    let mut text = String::new(alloc);
    text.push_str("{\"events\":[")?;
    put_live_events(&mut text, session)?;
    text.push_str("],\"marks\":[")?;
    put_marks(alloc, &mut text, book)?;
    text.push_str("],\"ring\":")?;
    put_number(&mut text, R as u64)?;
    text.push_str(",\"start\":")?;
    put_start(alloc, &mut text, session)?;
    text.push_str(",\"undone\":[")?;
    put_undone_events(&mut text, session)?;
    text.push_str("],\"version\":2}\n")?;
    Ok(text)
}

/// Appends the texts of the live events of a session, in order, with commas between them. Fails
/// only if memory is refused; the text may then end with a beginning of this.
fn put_live_events<const R: usize>(
    text: &mut String,
    session: &Session<R>,
) -> Result<(), AllocError>
    ensures { OnOk result (AreAppended (Gives event_of) event_data (state session.now).live
        (string_bytes text.old) (string_bytes text.new)) }
{
    let live = session.live();
    for k in 0..live.len() {
        put_next_event(text, k, live.at(k).event)?;
    }
    Ok(())
}

/// Appends the texts of the undone events of a session, with commas between them, beginning with
/// the event that was undone last. Fails only if memory is refused; the text may then end with a
/// beginning of this.
fn put_undone_events<const R: usize>(
    text: &mut String,
    session: &Session<R>,
) -> Result<(), AllocError>
    ensures { OnOk result (AreAppended (Gives event_of) event_data (state session.now).undone
        (string_bytes text.old) (string_bytes text.new)) }
{
    for k in 0..session.undone_len() {
        let Some(event) = session.undone_event(k + 1) else {
            unreachable!();
        };
        put_next_event(text, k as usize, event)?;
    }
    Ok(())
}
