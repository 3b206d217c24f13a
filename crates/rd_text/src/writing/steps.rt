//! The words of a step in a reply: its parts, with semicolons between them.

ghost use Rattle.std.specs.Prelude.{◌≡◌, ◌≤◌, length};
ghost use Rattle.rd_text.specs.Puts.{PutsUpTo};
ghost use Rattle.rd_text.specs.Steps.{step_place_words, access_kind_words, access_answer_words, result_words, step_result_words, access_words, step_words};

use super::contents::{put_content, put_index, put_segment_name, put_value, tail_word};
use super::events::put_event;
use super::numbers::put_words_and_number;
use super::places::put_place;
use super::texts::{Text, put};
use rd_actor::OpReply;
use rd_cell::{Answer, Place, Wrote};
use rd_step::Entry;

/// Appends to the text all words of the step of this number, from its entry.
pub fn put_step(text: &mut Text, number: u64, entry: &Entry)
    ensures { PutsUpTo 300 text.old.items text.new.items (step_words number entry.now) }
{
    put_words_and_number(text, b"step", number);
    put(text, b"; ");
    put_event(text, entry.event);
    put(text, b"; ");
    put_access(text, entry);
    put(text, b"; ");
    put_step_result(text, entry.reply);
}

/// Appends to the text the result of a call.
pub fn put_result(text: &mut Text, reply: OpReply)
    ensures { PutsUpTo 26 text.old.items text.new.items (result_words reply) }
{
    match reply {
        OpReply::Enqueued => put(text, b"enqueued"),
        OpReply::Value(value) => put_words_and_number(text, b"value", value),
        OpReply::Empty => put(text, b"empty"),
    }
}

/// Appends to the text the place, the kind and the answer of a step's access.
fn put_access(text: &mut Text, entry: &Entry)
    ensures { PutsUpTo 145 text.old.items text.new.items (access_words entry.now) }
{
    put_step_place(text, entry.place);
    put(text, b"; ");
    put(text, access_kind_words(entry.place, entry.wrote));
    put(text, b"; ");
    put_access_answer(text, entry.answer);
}

/// Appends to the text the place of a step, or a hyphen if it has none.
fn put_step_place(text: &mut Text, place: Option<Place>)
    ensures { PutsUpTo 68 text.old.items text.new.items (step_place_words place) }
{
    match place {
        None => put(text, b"-"),
        Some(place) => put_place(text, place),
    }
}

/// Returns the words for what a step did at its place: it read, wrote, or wrote only the index
/// half. `none` if it has no place.
fn access_kind_words(place: Option<Place>, wrote: Wrote) -> &'static [u8]
    ensures name { result.now ≡ access_kind_words place wrote }
    ensures len { length result.now ≤ 11 }
{
    match (place, wrote) {
        (None, _) => b"none",
        (Some(_), Wrote::Nothing) => b"read",
        (Some(_), Wrote::Place) => b"wrote",
        (Some(_), Wrote::Index) => b"wrote index",
    }
}

/// Appends to the text the answer of an access, or a hyphen if that is nothing.
fn put_access_answer(text: &mut Text, answer: Answer)
    ensures { PutsUpTo 62 text.old.items text.new.items (access_answer_words answer) }
{
    match answer {
        Answer::Nothing => put(text, b"-"),
        Answer::Found(content) => put_content(text, content),
        Answer::Value(value) => put_value(text, value),
        Answer::SafeAndIndex { safe, idx } => put_index(text, safe, idx),
        Answer::WasClosed(closed) => {
            put(text, b"was ");
            put(text, tail_word(closed));
        }
        Answer::Won => put(text, b"won"),
        Answer::Lost => put(text, b"lost"),
        Answer::Made(name) => {
            put(text, b"made ");
            put_segment_name(text, name);
        }
    }
}

/// Appends to the text the result of the call that a step ended, or a hyphen if it ended none.
fn put_step_result(text: &mut Text, reply: Option<OpReply>)
    ensures { PutsUpTo 26 text.old.items text.new.items (step_result_words reply) }
{
    match reply {
        None => put(text, b"-"),
        Some(reply) => put_result(text, reply),
    }
}
