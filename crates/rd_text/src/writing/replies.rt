//! The words of a book's replies.

ghost use Rattle.std.specs.Prelude.{◌≤◌, ◌+◌, length};
ghost use Rattle.rd_marks.specs.Names.{bytes_of};
ghost use Rattle.rd_text.specs.Puts.{Puts, PutsUpTo};
ghost use Rattle.rd_text.specs.Replies.{ended_call_words, origin_words, number_or_none, reply_words};

use super::actors::put_actor;
use super::contents::put_content;
use super::numbers::{put_number_or_hyphen, put_spaced_number, put_words_and_number, yes_or_no};
use super::steps::{put_result, put_step};
use super::texts::{Text, put};
use rd_actor::OpReply;
use rd_marks::{MarkName, Reply};
use rd_origin::Origin;

/// Appends to the text the words of a reply.
pub fn put_reply(text: &mut Text, reply: &Reply)
    ensures { PutsUpTo 400 text.old.items text.new.items (reply_words reply.now) }
{
    match *reply {
        Reply::Applied { step, reply } => {
            put_words_and_number(text, b"ok", step);
            put_ended_call(text, reply);
        }
        Reply::At { live, undone } => {
            put_words_and_number(text, b"at", live);
            put_spaced_number(text, undone);
        }
        Reply::Marked(len) => put_words_and_number(text, b"marked", len),
        Reply::Dropped => put(text, b"dropped"),
        Reply::Marks(count) => put_words_and_number(text, b"marks", count),
        Reply::Mark { name, len } => {
            put(text, b"mark ");
            put_mark_name(text, name);
            put_spaced_number(text, len);
        }
        Reply::Same(same) => {
            put(text, b"same ");
            put(text, yes_or_no(same));
        }
        Reply::Origin(origin) => put_origin(text, origin),
        Reply::Writer(step) => put_number_or_none(text, b"writer", step),
        Reply::Content(content) => {
            put(text, b"is ");
            put_content(text, content);
        }
        Reply::Actor(ref actor) => put_actor(text, actor),
        Reply::Step { number, ref entry } => put_step(text, number, entry),
    }
}

/// Appends to the text a space and the result of the call that an event ended, or nothing if it
/// ended none.
fn put_ended_call(text: &mut Text, reply: Option<OpReply>)
    ensures { PutsUpTo 27 text.old.items text.new.items (ended_call_words reply) }
{
    match reply {
        None => {}
        Some(reply) => {
            put(text, b" ");
            put_result(text, reply);
        }
    }
}

/// Appends to the text the words of an origin: the numbers of the call's first step, the put and
/// the take.
fn put_origin(text: &mut Text, origin: Origin)
    ensures { PutsUpTo 90 text.old.items text.new.items (origin_words origin) }
{
    put(text, b"origin call ");
    put_number_or_hyphen(text, origin.call);
    put(text, b" put ");
    put_number_or_hyphen(text, origin.put);
    put_words_and_number(text, b" take", origin.take);
}

/// Appends to the text this word, a space, and the number, or `none` if there is no number.
fn put_number_or_none(text: &mut Text, word: &[u8], number: Option<u64>)
    ensures words { Puts text.old.items text.new.items (number_or_none word.now number) }
    ensures len { length (number_or_none word.now number) ≤ length word.now + 21 }
{
    match number {
        None => {
            put(text, word);
            put(text, b" none");
        }
        Some(number) => put_words_and_number(text, word, number),
    }
}

/// Appends to the text a bookmark's name.
#[tactic(auto, using(crate::proofs::NameLemmas::length_mark_name))]
pub fn put_mark_name(text: &mut Text, name: MarkName)
    ensures { PutsUpTo 16 text.old.items text.new.items (bytes_of name) }
{
    put(text, name.as_str().as_bytes());
}
