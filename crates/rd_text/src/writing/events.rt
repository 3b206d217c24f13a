//! The words that spell an event.

ghost use Rattle.rd_text.specs.Puts.{PutsUpTo};
ghost use Rattle.rd_text.specs.Events.{event_words};

use super::numbers::{put_spaced_number, put_words_and_number, yes_or_no};
use super::texts::{Text, put};
use rd_actor::Act;
use rd_step::Event;

/// Appends to the text the words of an event: the line that makes it happen, without a line feed.
pub fn put_event(text: &mut Text, event: Event)
    ensures { PutsUpTo 46 text.old.items text.new.items (event_words event) }
{
    let actor = u64::from(event.actor);
    match event.act {
        Act::Enq(value) => {
            put_words_and_number(text, b"enq", actor);
            put_spaced_number(text, value);
        }
        Act::Deq => put_words_and_number(text, b"deq", actor),
        Act::AEnq(value) => {
            put_words_and_number(text, b"aenq", actor);
            put_spaced_number(text, value);
        }
        Act::ADeq => put_words_and_number(text, b"adeq", actor),
        Act::Go => put_words_and_number(text, b"go", actor),
        Act::Starve(choice) => {
            put_words_and_number(text, b"starve", actor);
            put(text, b" ");
            put(text, yes_or_no(choice));
        }
    }
}
