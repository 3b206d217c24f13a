//! Actors as JSON: an object with a member for each part of an actor's record.

ghost use Rattle.std.specs.Prelude.{◌≡◌, Some, IfOk, OnOk};
ghost use Rattle.serde_json.specs.Data.{number, string, unsigned};
ghost use Rattle.serde_json.specs.View.{view};
ghost use Rattle.rd_actor.specs.declared.actors.Actor.{Actor};
ghost use Rattle.rd_actor.specs.declared.actors.Pc.{Pc};
ghost use Rattle.rd_actor.specs.Labels.{label};
ghost use Rattle.rd_trace.specs.Numbers.{byte_number};
ghost use Rattle.rd_trace.specs.Actors.{op_of, op_data, val_of, SpellsActor, actor_data};

use super::members::{member_count, number_at};
use super::names::{parse_segment_name, segment_name_json};
use super::spelled::{Plain, Written};
use rd_actor::{Actor, Op, Pc};
use serde_json::{Map, Value, json, put};
use std::alloc::{AllocError, Global};

/// The number of members of the JSON object of an actor.
const MEMBERS: usize = 12;

const CLOSED: &str = "closed";

const CRQ: &str = "crq";

const H: &str = "h";

const IDX: &str = "idx";

const NEW: &str = "new";

const NEXT: &str = "next";

const OP: &str = "op";

const PASS: &str = "pass";

const PC: &str = "pc";

const SAFE: &str = "safe";

const T: &str = "t";

const VAL: &str = "val";

impl Plain for Actor {
    ghost spells = { SpellsActor };

    /// Returns the actor that a JSON value spells; none if it spells none.
    fn parse_value(value: &Value) -> Option<Actor> {
        if member_count(value)? != MEMBERS {
            return None;
        }
        Some(Actor {
            pc: value
                .get(PC)
                .and_then(Value::as_str)
                .and_then(Pc::of_label)?,
            pass: u8::try_from(number_at(value, PASS)?).ok()?,
            closed: value.get(CLOSED).and_then(Value::as_bool)?,
            safe: value.get(SAFE).and_then(Value::as_bool)?,
            crq: value.get(CRQ).and_then(parse_segment_name)?,
            new: value.get(NEW).and_then(parse_segment_name)?,
            next: value.get(NEXT).and_then(parse_segment_name)?,
            op: value.get(OP).and_then(parse_op)?,
            t: number_at(value, T)?,
            h: number_at(value, H)?,
            val: value.get(VAL).and_then(parse_val)?,
            idx: number_at(value, IDX)?,
        })
    }
}

impl Written for Actor {
    ghost datum = { actor_data };

    /// Returns the JSON value of the actor. Fails only if memory is refused.
    fn to_value(&self, alloc: Global) -> Result<Value, AllocError> {
        actor_json(alloc, self)
    }
}

/// Returns the JSON value of an actor. Fails only if memory is refused.
fn actor_json(alloc: Global, actor: &Actor) -> Result<Value, AllocError>
    ensures value { IfOk result (λ value. view value ≡ actor_data actor.now) }
    ensures spelled { OnOk result (SpellsActor (actor_data actor.now) actor.now) }
{
    // Each member has its own step here, which the proof can name; it cannot name those of `json!`.
    let mut members = Map::new(alloc);
    put(&mut members, alloc, CLOSED, Value::from(actor.closed))?;
    put(
        &mut members,
        alloc,
        CRQ,
        segment_name_json(alloc, actor.crq)?,
    )?;
    put(&mut members, alloc, H, Value::from(actor.h))?;
    put(&mut members, alloc, IDX, Value::from(actor.idx))?;
    put(
        &mut members,
        alloc,
        NEW,
        segment_name_json(alloc, actor.new)?,
    )?;
    put(
        &mut members,
        alloc,
        NEXT,
        segment_name_json(alloc, actor.next)?,
    )?;
    put(&mut members, alloc, OP, op_json(alloc, actor.op)?)?;
    put(&mut members, alloc, PASS, pass_json(actor.pass))?;
    put(&mut members, alloc, PC, pc_json(alloc, actor.pc)?)?;
    put(&mut members, alloc, SAFE, Value::from(actor.safe))?;
    put(&mut members, alloc, T, Value::from(actor.t))?;
    put(&mut members, alloc, VAL, Value::from(actor.val))?;
    Ok(Value::Object(members))
}

/// Returns the JSON value of an actor's pass.
fn pass_json(pass: u8) -> Value
    ensures value { view result ≡ number (unsigned pass) }
    ensures spelled { byte_number (number (unsigned pass)) ≡ Some pass }
{
    Value::from(pass)
}

/// Returns what a JSON value spells as the value of a cell or an actor: no value for `null`, the
/// number for a whole number; none for anything else.
pub fn parse_val(value: &Value) -> Option<Option<u64>>
    ensures { result ≡ val_of (view value.now) }
{
    if value.is_null() {
        return Some(None);
    }
    Some(Some(value.as_u64()?))
}

/// Returns the call that a JSON value spells, or no call for `null`; none if the JSON value spells
/// neither.
fn parse_op(value: &Value) -> Option<Option<Op>>
    ensures { result ≡ op_of (view value.now) }
{
    if value.is_null() {
        return Some(None);
    }
    let items = value.as_array()?;
    match items.as_slice() {
        [word] => match word.as_str()? {
            "deq" => Some(Some(Op::Deq)),
            "adeq" => Some(Some(Op::ADeq)),
            _ => None,
        },
        [word, value] => match word.as_str()? {
            "enq" => Some(Some(Op::Enq(value.as_u64()?))),
            "aenq" => Some(Some(Op::AEnq(value.as_u64()?))),
            _ => None,
        },
        _ => None,
    }
}

/// Returns a call as a JSON array, or `null` for no call. Fails only if memory is refused.
fn op_json(alloc: Global, op: Option<Op>) -> Result<Value, AllocError>
    ensures { IfOk result (λ value. view value ≡ op_data op) }
{
    match op {
        None => Ok(Value::Null),
        Some(Op::Enq(x)) => json!(in alloc; ["enq", x]),
        Some(Op::Deq) => json!(in alloc; ["deq"]),
        Some(Op::AEnq(x)) => json!(in alloc; ["aenq", x]),
        Some(Op::ADeq) => json!(in alloc; ["adeq"]),
    }
}

/// Returns the JSON value of a control point: its label. Fails only if memory is refused.
fn pc_json(alloc: Global, pc: Pc) -> Result<Value, AllocError>
    ensures { IfOk result (λ value. view value ≡ string (label pc)) }
{
    Value::try_from_str(alloc, pc.label())
}
