//! The start of a session as JSON: the number of actors of a fresh world, or the parts of any other
//! world.

ghost use Rattle.std.specs.Prelude.{◌≡◌, ◌≤◌, ℕ, Some, IfOk, OnOk, IfSome, IfNone, string_bytes};
ghost use Rattle.serde_json.specs.View.{view, items_view};
ghost use Rattle.rd_step.specs.Prelude.{MOST_CELLS, model};
ghost use Rattle.rd_journal.specs.Sessions.{state};
ghost use Rattle.rd_trace.specs.Numbers.{member_count};
ghost use Rattle.rd_trace.specs.Spelled.{Reads, itself};
ghost use Rattle.rd_trace.specs.Starts.{HasActorCount, SpellsParts, SpellsStart, IsStartValue, fresh_data, parts_object, parts_data};
ghost use Rattle.rd_trace.specs.Texts.{IsStartAppended};

use super::arrays::{array_parts_json, parse_array_parts};
use super::faults::TraceFault;
use super::members::{items_at, member_count, number_at};
use super::names::{parse_segment_name, segment_name_json};
use super::spelled::{list_json, parse_list};
use rd_cell::limits::MOST_ACTORS;
use rd_journal::Session;
use rd_step::{Parts, World};
use serde_json::{Value, json};
use std::alloc::{AllocError, Global};

/// The number of members of the JSON object of a fresh start.
const FRESH_MEMBERS: usize = 1;

/// The number of members of the JSON object of a world's parts.
const PARTS_MEMBERS: usize = 5;

const ACTORS: &str = "actors";

const ARRAY: &str = "array";

const FRESH: &str = "fresh";

const QHEAD: &str = "qhead";

const QTAIL: &str = "qtail";

const SEGMENTS: &str = "segments";

/// The start of a session, as a trace spells it.
#[derive(Drop)]
pub enum Start<const R: usize> {
    /// The fresh world of this many actors, 1 to 16.
    Fresh(u8),
    /// The world of these parts, which may fail to make a well-formed world.
    Parts(Parts<R>),
}

/// Returns the start that a JSON value spells. `R` must be at most 64.
///
/// # Errors
///
/// `BadTrace` if it spells none; `NoMemory` if memory was refused.
pub fn parse_start<const R: usize>(alloc: Global, value: &Value) -> Result<Start<R>, TraceFault>
    requires { R ≤ MOST_CELLS }
    ensures { Reads itself (SpellsStart (view value.now)) result }
{
    match member_count(value) {
        Some(FRESH_MEMBERS) => match actor_count_at(value, FRESH) {
            None => Err(TraceFault::BadTrace),
            Some(actors) => Ok(Start::Fresh(actors)),
        },
        Some(PARTS_MEMBERS) => Ok(Start::Parts(parse_parts(alloc, value)?)),
        _ => Err(TraceFault::BadTrace),
    }
}

/// Returns the number of actors at a key of an object; none if it has no whole number from 1 to 16
/// there.
pub fn actor_count_at(value: &Value, key: &str) -> Option<u8>
    ensures some { IfSome result (HasActorCount key.now (view value.now)) }
    ensures none { IfNone result ((count : ℕ) → HasActorCount key.now (view value.now) count → ⊥) }
{
    let actors = number_at(value, key)?;
    if actors < 1 || actors > MOST_ACTORS as u64 {
        return None;
    }
    Some(actors as u8)
}

/// Returns the parts that a JSON object of five members spells. `R` must be at most 64. Fails with
/// `BadTrace` if it spells none, and with `NoMemory` if memory is refused.
fn parse_parts<const R: usize>(alloc: Global, value: &Value) -> Result<Parts<R>, TraceFault>
    requires small { R ≤ MOST_CELLS }
    requires members { member_count (view value.now) ≡ Some 5 }
    ensures { Reads itself (SpellsParts (view value.now)) result }
{
    let Some(qhead) = value.get(QHEAD).and_then(parse_segment_name) else {
        return Err(TraceFault::BadTrace);
    };
    let Some(qtail) = value.get(QTAIL).and_then(parse_segment_name) else {
        return Err(TraceFault::BadTrace);
    };
    let Some(array) = value.get(ARRAY).and_then(parse_array_parts) else {
        return Err(TraceFault::BadTrace);
    };
    Ok(Parts {
        actors: parse_list(alloc, items_at(value, ACTORS))?,
        segments: parse_list(alloc, items_at(value, SEGMENTS))?,
        qhead,
        qtail,
        array,
    })
}

/// Appends the text of the start of a session. Fails only if memory is refused; the text is then
/// unchanged.
pub fn put_start<const R: usize>(
    alloc: Global,
    text: &mut String,
    session: &Session<R>,
) -> Result<(), AllocError>
    ensures { OnOk result (IsStartAppended (state session.now).start (string_bytes text.old)
        (string_bytes text.new)) }
{
    let start = session_start_json(alloc, session)?;
    let written = start.to_string(alloc)?;
    text.push_str(written.as_str())
}

/// Returns the JSON value of the start of a session. Fails only if memory is refused.
fn session_start_json<const R: usize>(
    alloc: Global,
    session: &Session<R>,
) -> Result<Value, AllocError>
    ensures { IfOk result (λ value. IsStartValue (state session.now).start (view value)) }
{
    let Ok(world) = session.start_world(alloc) else {
        return Err(AllocError);
    };
    start_json(alloc, &world)
}

/// Returns the JSON value of a session's start in this world: an object with the number of actors
/// if the world is fresh, else the object of its parts. Fails only if memory is refused.
fn start_json<const R: usize>(alloc: Global, world: &World<R>) -> Result<Value, AllocError>
    ensures { IfOk result (λ value. IsStartValue (model world.now) (view value)) }
{
    if world.is_fresh() {
        return fresh_json(alloc, u64::from(world.actors()));
    }
    let Ok(parts) = world.parts(alloc) else {
        return Err(AllocError);
    };
    parts_json(alloc, &parts)
}

/// Returns the JSON value of the fresh start with this many actors. Fails only if memory is
/// refused.
fn fresh_json(alloc: Global, actors: u64) -> Result<Value, AllocError>
    ensures { IfOk result (λ value. view value ≡ fresh_data actors) }
{
    json!(in alloc; {FRESH: actors})
}

/// Returns the JSON value of a world's parts. Fails only if memory is refused.
fn parts_json<const R: usize>(alloc: Global, parts: &Parts<R>) -> Result<Value, AllocError>
    ensures value { IfOk result (λ value. view value ≡ parts_data parts.now) }
    ensures spelled { OnOk result (SpellsParts (parts_data parts.now) parts.now) }
{
    let actors = list_json(alloc, &parts.actors)?;
    let slots = array_parts_json(alloc, &parts.array)?;
    let qhead = segment_name_json(alloc, parts.qhead)?;
    let qtail = segment_name_json(alloc, parts.qtail)?;
    let segments = list_json(alloc, &parts.segments)?;
    parts_object(alloc, actors, slots, qhead, qtail, segments)
}

/// Returns the JSON object of a world's parts, from the JSON values of the parts. Fails only if
/// memory is refused.
fn parts_object(
    alloc: Global,
    actors: Vec<Value>,
    slots: Value,
    qhead: Value,
    qtail: Value,
    segments: Vec<Value>,
) -> Result<Value, AllocError>
    ensures { IfOk result (λ value. view value
        ≡ parts_object (items_view actors.items) (view slots) (view qhead) (view qtail)
        (items_view segments.items)) }
{
    json!(in alloc; {
        ACTORS: actors,
        ARRAY: slots,
        QHEAD: qhead,
        QTAIL: qtail,
        SEGMENTS: segments
    })
}
