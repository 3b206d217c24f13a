//! The line of an answer in a report.
//!
//! A run makes the lines of all its answers in one buffer, so that no answer needs a new one. There
//! is a function for each kind of answer, because copying a whole `LineAnswer`, which has room for
//! a step's entry, takes time.

ghost use Rattle.std.specs.Prelude.{◌≡◌, [], ◌∷◌, Ok, Err};
ghost use Rattle.rd_text.specs.Calls.{numbered_text};
ghost use Rattle.rd_text.specs.Headings.{viewer_refusal_text};
ghost use Rattle.rd_text.specs.Puts.{Puts, PutsUpTo};
ghost use Rattle.rd_text.specs.Replies.{answer_text, answer_words};

use super::numbers::{put_number_or_hyphen, put_words_and_number};
use super::refusals::put_any_refusal;
use super::replies::put_reply;
use super::texts::{Text, put};
use crate::answers::{AnyRefusal, LineAnswer};
use rd_marks::Reply;

/// Replaces the text by the line of an answer, with its line feed.
pub fn set_answer(text: &mut Text, answer: &LineAnswer)
    ensures { text.new.items ≡ answer_text answer.now }
{
    match answer {
        Ok(reply) => set_reply(text, reply),
        Err(refusal) => set_refusal(text, refusal),
    }
}

/// Replaces the text by the line of a reply, with its line feed.
pub fn set_reply(text: &mut Text, reply: &Reply)
    ensures { text.new.items ≡ answer_text (Ok reply.now) }
{
    text.clear();
    put_reply(text, reply);
    end_line(text);
}

/// Replaces the text by the line of a refusal, with its line feed.
pub fn set_refusal(text: &mut Text, refusal: &AnyRefusal)
    ensures { text.new.items ≡ answer_text (Err refusal.now) }
{
    text.clear();
    put_refusal(text, refusal);
    end_line(text);
}

/// Replaces the text by the line of an answer, with the number of the call that it answers before
/// it, or a hyphen if the line was no call.
pub fn set_numbered_answer(text: &mut Text, call: Option<u64>, answer: &LineAnswer)
    ensures { text.new.items ≡ numbered_text call answer.now }
{
    text.clear();
    put_number_or_hyphen(text, call);
    put(text, b" ");
    put_answer(text, answer);
    end_line(text);
}

/// Replaces the text by a viewer's number, a colon, a space, and the line of a refusal.
pub fn set_viewer_refusal(text: &mut Text, viewer: u64, refusal: &AnyRefusal)
    ensures { text.new.items ≡ viewer_refusal_text viewer refusal.now }
{
    text.clear();
    put_words_and_number(text, b"viewer", viewer);
    put(text, b": ");
    put_refusal(text, refusal);
    end_line(text);
}

/// Appends to the text the words of an answer, without a line feed.
fn put_answer(text: &mut Text, answer: &LineAnswer)
    ensures { PutsUpTo 400 text.old.items text.new.items (answer_words answer.now) }
{
    match answer {
        Ok(reply) => put_reply(text, reply),
        Err(refusal) => put_refusal(text, refusal),
    }
}

/// Appends to the text the words of a refusal, without a line feed.
fn put_refusal(text: &mut Text, refusal: &AnyRefusal)
    ensures { PutsUpTo 108 text.old.items text.new.items (answer_words (Err refusal.now)) }
{
    put(text, b"refused ");
    put_any_refusal(text, refusal);
}

/// Appends to the text the line feed that ends its line.
pub fn end_line(text: &mut Text)
    ensures { Puts text.old.items text.new.items (10 ∷ []) }
{
    put(text, b"\n");
}
