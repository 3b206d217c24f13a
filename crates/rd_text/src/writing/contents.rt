//! The words that spell segments' names, values and the contents of places.

ghost use Rattle.std.specs.Prelude.{◌≡◌, ◌≤◌, length};
ghost use Rattle.rd_text.specs.Puts.{PutsUpTo};
ghost use Rattle.rd_text.specs.Contents.{segment_name_words, value_words, next_words, tail_word, cell_words, index_words, slot_words, content_words};

use super::numbers::{bit_number, put_number, put_spaced_number, put_words_and_number};
use super::texts::{Text, put};
use rd_cell::{ArrSlot, Cell, Content, SegName};

/// Appends to the text the content of a place.
pub fn put_content(text: &mut Text, content: Content)
    ensures { PutsUpTo 62 text.old.items text.new.items (content_words content) }
{
    match content {
        Content::Name(name) => put_segment_name(text, name),
        Content::Number(number) => put_number(text, number),
        Content::Tail { closed, count } => put_words_and_number(text, tail_word(closed), count),
        Content::Next(next) => put_next(text, next),
        Content::Cell(cell) => put_cell(text, cell),
        Content::Val(value) => put_value(text, value),
        Content::Idx { safe, idx } => put_index(text, safe, idx),
        Content::Whole => put(text, b"exists"),
        Content::Slot(slot) => put_slot(text, slot),
    }
}

/// Appends to the text a segment's name.
pub fn put_segment_name(text: &mut Text, name: SegName)
    ensures { PutsUpTo 41 text.old.items text.new.items (segment_name_words name) }
{
    put_number(text, u64::from(name.maker));
    put(text, b".");
    put_number(text, u64::from(name.n));
}

/// Appends to the text a value, or `none` if there is none.
pub fn put_value(text: &mut Text, value: Option<u64>)
    ensures { PutsUpTo 20 text.old.items text.new.items (value_words value) }
{
    match value {
        None => put(text, b"none"),
        Some(number) => put_number(text, number),
    }
}

/// Returns the word for the closed bit of a tail: `closed` or `open`.
pub fn tail_word(closed: bool) -> &'static [u8]
    ensures name { result.now ≡ tail_word closed }
    ensures len { length result.now ≤ 6 }
{
    if closed { b"closed" } else { b"open" }
}

/// Appends to the text the name of the next segment, or `none` if there is none.
fn put_next(text: &mut Text, next: Option<SegName>)
    ensures { PutsUpTo 41 text.old.items text.new.items (next_words next) }
{
    match next {
        None => put(text, b"none"),
        Some(name) => put_segment_name(text, name),
    }
}

/// Appends to the text a cell's safe bit, index and value.
fn put_cell(text: &mut Text, cell: Cell)
    ensures { PutsUpTo 62 text.old.items text.new.items (cell_words cell) }
{
    put_number(text, bit_number(cell.safe));
    put_spaced_number(text, cell.idx);
    put(text, b" ");
    put_value(text, cell.val);
}

/// Appends to the text a safe bit and an index.
pub fn put_index(text: &mut Text, safe: bool, idx: u64)
    ensures { PutsUpTo 41 text.old.items text.new.items (index_words safe idx) }
{
    put_number(text, bit_number(safe));
    put_spaced_number(text, idx);
}

/// Appends to the text the content of a slot of the array: `empty`, `top`, or `value` and its
/// value.
fn put_slot(text: &mut Text, slot: ArrSlot)
    ensures { PutsUpTo 26 text.old.items text.new.items (slot_words slot) }
{
    match slot {
        ArrSlot::Empty => put(text, b"empty"),
        ArrSlot::Top => put(text, b"top"),
        ArrSlot::Value(value) => put_words_and_number(text, b"value", value),
    }
}
