//! Bookmarks as JSON: an object with the name and the list of events.

ghost use Rattle.std.specs.Prelude.{◌≡◌, OnOk, IfSome, string_bytes};
ghost use Rattle.serde_json.specs.View.{view, items_view};
ghost use Rattle.rd_marks.specs.Book.{book_state};
ghost use Rattle.rd_marks.specs.BookState.{mark_events};
ghost use Rattle.rd_marks.specs.Rules.{KeepsRules};
ghost use Rattle.rd_marks.specs.declared.names.MarkName.{MarkName};
ghost use Rattle.rd_trace.specs.Spelled.{Reads};
ghost use Rattle.rd_trace.specs.Bookmarks.{SpellMarksOfBook, SpellsMark, saved_mark, saved_marks, mark_data};
ghost use Rattle.rd_trace.specs.Texts.{AreAppended, IsMarkAppended};

use super::events::put_events;
use super::faults::TraceFault;
use super::members::{items_at, member_count};
use super::spelled::parse_list;
use super::texts::comma_after;
use rd_cell::limits::MOST_MARKS;
use rd_marks::{Book, MarkName};
use rd_step::Event;
use serde_json::Value;
use std::alloc::{AllocError, Global};

/// The number of members of the JSON object of a bookmark.
const MEMBERS: usize = 2;

const EVENTS: &str = "events";

const NAME: &str = "name";

/// A bookmark that was read.
#[derive(Drop)]
pub struct SavedMark {
    /// The bookmark's name.
    pub name: MarkName,
    /// The events that were live when the bookmark was set.
    pub events: Vec<Event>,
}

/// Returns the bookmarks that the values of a list spell, in order.
///
/// # Errors
///
/// `BadTrace` if a value spells no bookmark, if two bookmarks have one name, or if there are more
/// than 64; `NoMemory` if memory was refused.
pub fn parse_marks(alloc: Global, list: &Vec<Value>) -> Result<Vec<SavedMark>, TraceFault>
    ensures { Reads saved_marks (SpellMarksOfBook (items_view list.now.items)) result }
{
    let count = list.len();
    if count > MOST_MARKS {
        return Err(TraceFault::BadTrace);
    }
    let mut marks = Vec::with_capacity(alloc, count)?;
    for value in list {
        let mark = parse_mark(alloc, value)?;
        if marks
            .iter()
            .any(|other: &SavedMark| mark.name == other.name)
        {
            return Err(TraceFault::BadTrace);
        }
        marks.push_reserved(mark);
    }
    Ok(marks)
}

/// Returns the bookmark that a JSON value spells. Fails with `BadTrace` if it spells none, and with
/// `NoMemory` if memory is refused.
fn parse_mark(alloc: Global, value: &Value) -> Result<SavedMark, TraceFault>
    ensures { Reads saved_mark (SpellsMark (view value.now)) result }
{
    if member_count(value) != Some(MEMBERS) {
        return Err(TraceFault::BadTrace);
    }
    let Some(text) = value.get(NAME).and_then(Value::as_str) else {
        return Err(TraceFault::BadTrace);
    };
    let Ok(name) = MarkName::new(text.as_bytes()) else {
        return Err(TraceFault::BadTrace);
    };
    Ok(SavedMark {
        name,
        events: parse_list(alloc, items_at(value, EVENTS))?,
    })
}

/// Appends the texts of a book's bookmarks to the text, in order, with commas between them. Fails
/// only if memory is refused; the text may then end with a beginning of this. Whatever the result,
/// the book keeps the rules of bookmarks, `KeepsRules`.
pub fn put_marks<const R: usize>(
    alloc: Global,
    text: &mut String,
    book: &Book<R>,
) -> Result<(), AllocError>
    ensures marks { OnOk result (AreAppended SpellsMark mark_data (book_state book.now).marks
        (string_bytes text.old) (string_bytes text.new)) }
    ensures rules { KeepsRules (book_state book.now) }
{
    let count = book.marks();
    for i in 0..count {
        let Ok((name, _)) = book.mark_at(i + 1) else {
            unreachable!();
        };
        text.push_str(comma_after(i as usize))?;
        put_mark(alloc, text, book, i + 1, name)?;
    }
    Ok(())
}

/// Appends the text of a bookmark with this name, and with the events of the book's bookmark of
/// number `i`, from 1. Fails if memory is refused, and the text may then end with a beginning of
/// it; or if the book has no such bookmark, and the text is then unchanged.
fn put_mark<const R: usize>(
    alloc: Global,
    text: &mut String,
    book: &Book<R>,
    i: u64,
    name: MarkName,
) -> Result<(), AllocError>
    ensures { OnOk result (IfSome (mark_events (book_state book.now) i)
        (λ es. IsMarkAppended (record { name = name; events = es }) (string_bytes text.old)
        (string_bytes text.new))) }
{
    let Ok(events) = book.mark_events(alloc, i) else {
        return Err(AllocError);
    };
    text.push_str("{\"events\":[")?;
    put_events(text, &events)?;
    text.push_str("],\"name\":\"")?;
    text.push_str(name.as_str())?;
    text.push_str("\"}")
}
