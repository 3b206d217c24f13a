//! Events as JSON: an array of a word and an actor, from 0 to 255, and of a number or a choice if
//! the word takes one. The text that is appended for an event is read back as that event.

ghost use Rattle.std.specs.Prelude.{◌≡◌, ◌++◌, ◌∷◌, [], nat_lt, Some, IfSome, IsNone, OnOk, string_bytes, decimal};
ghost use Rattle.serde_json.specs.View.{view};
ghost use Rattle.json.specs.Token.{boolean};
ghost use Rattle.json.specs.Print.{token_text};
ghost use Rattle.serde_json.specs.Data.{number, unsigned};
ghost use Rattle.serde_json.specs.Written.{compact_text, comma_if};
ghost use Rattle.rd_trace.specs.Spelled.{Gives};
ghost use Rattle.rd_trace.specs.Events.{act_of_word, act_with_value, event_of, event_data};
ghost use Rattle.rd_trace.specs.Texts.{IsReadBack, IsSpelledBack, AreAppended};

use super::spelled::Plain;
use super::texts::{comma_after, put_number};
use rd_actor::Act;
use rd_step::Event;
use serde_json::Value;
use std::alloc::AllocError;

impl Plain for Event {
    ghost spells = { Gives event_of };

    /// Returns the event that a JSON value spells; none if it spells none.
    fn parse_value(value: &Value) -> Option<Event> {
        let (word, actor, value) = match value.as_array()?.as_slice() {
            [word, actor] => (word, actor, None),
            [word, actor, value] => (word, actor, Some(value)),
            _ => return None,
        };
        Some(Event {
            act: parse_act(word.as_str()?, value)?,
            actor: u8::try_from(actor.as_u64()?).ok()?,
        })
    }
}

/// Returns the act that a word spells, with the JSON value after the actor if there is one; none if
/// they spell none.
fn parse_act(word: &str, value: Option<&Value>) -> Option<Act>
    ensures alone { IsNone value.entry → result ≡ act_of_word word.now }
    ensures with_value { IfSome value.entry (λ d. result ≡ act_with_value word.now (view d.now)) }
{
    match (word, value) {
        ("go", None) => Some(Act::Go),
        ("deq", None) => Some(Act::Deq),
        ("adeq", None) => Some(Act::ADeq),
        ("enq", Some(value)) => value.as_u64().map(Act::Enq),
        ("aenq", Some(value)) => value.as_u64().map(Act::AEnq),
        ("starve", Some(choice)) => choice.as_bool().map(Act::Starve),
        _ => None,
    }
}

/// Appends the texts of events to the text, in order, with commas between them. Fails only if
/// memory is refused; the text may then end with a beginning of this.
pub fn put_events(text: &mut String, events: &[Event]) -> Result<(), AllocError>
    ensures { OnOk result (AreAppended (Gives event_of) event_data events.now
        (string_bytes text.old) (string_bytes text.new)) }
{
    for i in 0..events.len() {
        put_next_event(text, i, events[i])?;
    }
    Ok(())
}

/// Appends the text of an event, as the next one of a list that has `count` events so far: a comma
/// comes before it unless it is the first. Fails only if memory is refused; the text may then end
/// with a beginning of this.
pub fn put_next_event(text: &mut String, count: usize, event: Event) -> Result<(), AllocError>
    ensures ok { OnOk result (string_bytes text.new
        ≡ string_bytes text.old ++ (comma_if (nat_lt 0 count) ++ compact_text (event_data event))) }
    ensures kept { OnOk result (IsSpelledBack (Gives event_of) (event_data event) event) }
{
    text.push_str(comma_after(count))?;
    put_event(text, event)
}

/// Appends the text of an event. Fails only if memory is refused; the text may then end with a
/// beginning of it.
#[tactic(auto, unfolding(json::specs::Print::escape_byte))]
fn put_event(text: &mut String, event: Event) -> Result<(), AllocError>
    ensures ok { OnOk result (string_bytes text.new
        ≡ string_bytes text.old ++ compact_text (event_data event)) }
    ensures spelled { event_of (event_data event) ≡ Some event }
    ensures back { IsReadBack (event_data event) }
{
    match event.act {
        Act::Enq(x) => {
            number_is_read_back(x);
            put_number_event(text, "[\"enq\",", event.actor, x)
        }
        Act::Deq => put_actor_between(text, "[\"deq\",", event.actor, "]"),
        Act::AEnq(x) => {
            number_is_read_back(x);
            put_number_event(text, "[\"aenq\",", event.actor, x)
        }
        Act::ADeq => put_actor_between(text, "[\"adeq\",", event.actor, "]"),
        Act::Go => put_actor_between(text, "[\"go\",", event.actor, "]"),
        Act::Starve(choice) => put_actor_between(
            text,
            "[\"starve\",",
            event.actor,
            closing_with_choice(choice),
        ),
    }
}

/// Does nothing. The JSON value of a number below 2^64 is read back, and each `u64` is one.
fn number_is_read_back(x: u64)
    ensures { IsReadBack (number (unsigned x)) }
{
    let _x = x;
}

/// Appends the text of an event that has a number: `opening`, which is the bracket, the word and a
/// comma; the actor, a comma, the number, and the closing bracket. Fails only if memory is refused;
/// the text may then end with a beginning of this.
fn put_number_event(text: &mut String, opening: &str, actor: u8, x: u64) -> Result<(), AllocError>
    ensures { OnOk result (string_bytes text.new
        ≡ string_bytes text.old ++ (opening.now
        ++ (decimal actor ++ (44 ∷ (decimal x ++ 93 ∷ []))))) }
{
    put_actor_between(text, opening, actor, ",")?;
    put_number(text, x)?;
    text.push_str("]")
}

/// Appends `opening`, the actor's number and `closing`. Fails only if memory is refused; the text
/// may then end with a beginning of this.
fn put_actor_between(
    text: &mut String,
    opening: &str,
    actor: u8,
    closing: &str,
) -> Result<(), AllocError>
    ensures { OnOk result (string_bytes text.new
        ≡ string_bytes text.old ++ (opening.now ++ (decimal actor ++ closing.now))) }
{
    text.push_str(opening)?;
    put_number(text, u64::from(actor))?;
    text.push_str(closing)
}

/// Returns what follows the actor in the text of a `starve` event: a comma, the choice as `true` or
/// `false`, and the closing bracket.
fn closing_with_choice(choice: bool) -> &'static str
    ensures { result.now ≡ 44 ∷ (token_text (boolean choice) ++ 93 ∷ []) }
{
    if choice { ",true]" } else { ",false]" }
}
