//! The words of an actor in a reply. Each part after the call begins with a space.

ghost use Rattle.rd_text.specs.Puts.{PutsUpTo};
ghost use Rattle.rd_text.specs.Actors.{op_words, point_and_call_words, crq_new_and_next_words, counter_words, cell_read_and_pass_words, actor_words};

use super::contents::{put_segment_name, put_value};
use super::numbers::{bit_number, put_words_and_number};
use super::texts::{Text, put};
use rd_actor::{Actor, Op};

/// Appends to the text the word `actor` and all words of an actor.
pub fn put_actor(text: &mut Text, actor: &Actor)
    ensures { PutsUpTo 355 text.old.items text.new.items (actor_words actor.now) }
{
    put_point_and_call(text, actor);
    put_segments(text, actor);
    put_counters(text, actor);
    put_cell_read_and_pass(text, actor);
}

/// Appends to the text the word `actor`, the actor's control point, and its call.
fn put_point_and_call(text: &mut Text, actor: &Actor)
    ensures { PutsUpTo 40 text.old.items text.new.items (point_and_call_words actor.now) }
{
    put(text, b"actor ");
    put(text, actor.pc.label().as_bytes());
    put(text, b" ");
    put_op(text, actor.op);
}

/// Appends to the text the segments in an actor's record: crq, new and next.
fn put_segments(text: &mut Text, actor: &Actor)
    ensures { PutsUpTo 139 text.old.items text.new.items (crq_new_and_next_words actor.now) }
{
    put(text, b" crq ");
    put_segment_name(text, actor.crq);
    put(text, b" new ");
    put_segment_name(text, actor.new);
    put(text, b" next ");
    put_segment_name(text, actor.next);
}

/// Appends to the text the counters in an actor's record, t and h, and its closed bit.
fn put_counters(text: &mut Text, actor: &Actor)
    ensures { PutsUpTo 74 text.old.items text.new.items (counter_words actor.now) }
{
    put_words_and_number(text, b" t", actor.t);
    put_words_and_number(text, b" h", actor.h);
    put_words_and_number(text, b" closed", bit_number(actor.closed));
}

/// Appends to the text an actor's words val, safe, idx and pass.
fn put_cell_read_and_pass(text: &mut Text, actor: &Actor)
    ensures { PutsUpTo 102 text.old.items text.new.items (cell_read_and_pass_words actor.now) }
{
    put(text, b" val ");
    put_value(text, actor.val);
    put_words_and_number(text, b" safe", bit_number(actor.safe));
    put_words_and_number(text, b" idx", actor.idx);
    put_words_and_number(text, b" pass", u64::from(actor.pass));
}

/// Appends to the text the call that an actor is in, or `none` if it is in none.
fn put_op(text: &mut Text, op: Option<Op>)
    ensures { PutsUpTo 25 text.old.items text.new.items (op_words op) }
{
    match op {
        None => put(text, b"none"),
        Some(Op::Enq(value)) => put_words_and_number(text, b"enq", value),
        Some(Op::Deq) => put(text, b"deq"),
        Some(Op::AEnq(value)) => put_words_and_number(text, b"aenq", value),
        Some(Op::ADeq) => put(text, b"adeq"),
    }
}
