//! The array as JSON: an object with its two counters and its slots that aren't empty, each with
//! its position.

ghost use Rattle.std.specs.Prelude.{◌≡◌, List, IfOk, IfSome, IfNone, length};
ghost use Rattle.serde_json.specs.View.{view, items_view};
ghost use Rattle.rd_step.specs.Prelude.{SLOTS};
ghost use Rattle.rd_cell.specs.declared.contents.ArrSlot.{ArrSlot};
ghost use Rattle.rd_segments.specs.declared.array.ArrayParts.{ArrayParts};
ghost use Rattle.rd_trace.specs.Spelled.{Gives, SpellEach, items_by};
ghost use Rattle.rd_trace.specs.Arrays.{slot_of, content_data, slot_data, filled_slots, SpellsArray, array_data};

use super::members::{items_at, member_count, number_at};
use rd_cell::ArrSlot;
use rd_cell::limits::SLOTS;
use rd_step::ArrayParts;
use serde_json::{Value, json};
use std::alloc::{AllocError, Global};

/// The number of members of the JSON object of the array.
const MEMBERS: usize = 3;

const CELLS: &str = "cells";

const HEAD: &str = "head";

const TAIL: &str = "tail";

/// Returns the array that a JSON value spells; none if it spells none.
pub fn parse_array_parts(value: &Value) -> Option<ArrayParts>
    ensures some { IfSome result (SpellsArray (view value.now)) }
    ensures none { IfNone result ((parts : ArrayParts) → SpellsArray (view value.now) parts → ⊥) }
{
    if member_count(value)? != MEMBERS {
        return None;
    }
    Some(ArrayParts {
        head: number_at(value, HEAD)?,
        tail: number_at(value, TAIL)?,
        cells: parse_slots(items_at(value, CELLS)?)?,
    })
}

/// Returns the JSON value of the array. Fails only if memory is refused.
pub fn array_parts_json(alloc: Global, array: &ArrayParts) -> Result<Value, AllocError>
    ensures { IfOk result (λ value. view value ≡ array_data array.now) }
{
    let cells = slots_json(alloc, &array.cells)?;
    json!(in alloc; {CELLS: cells, HEAD: array.head, TAIL: array.tail})
}

/// Returns all slots of the array, from a list of those that aren't empty. Returns none if a value
/// spells no slot, or if the positions don't ascend or one is not below `SLOTS`.
fn parse_slots(list: &Vec<Value>) -> Option<[ArrSlot; SLOTS]>
    ensures some { IfSome result (λ slots.
        SpellEach (Gives slot_of) (items_view list.now.items) (filled_slots 0 slots)) }
    ensures length { IfSome result (λ slots. length slots ≡ SLOTS) }
    ensures none { IfNone result ((slots : List ArrSlot) → length slots ≡ SLOTS
        → SpellEach (Gives slot_of) (items_view list.now.items) (filled_slots 0 slots) → ⊥) }
{
    let mut slots = [ArrSlot::Empty; SLOTS];
    let mut free = 0;
    for value in list {
        let (position, slot) = parse_slot(value)?;
        if position < free || position >= SLOTS {
            return None;
        }
        slots[position] = slot;
        free = position + 1;
    }
    Some(slots)
}

/// Returns the JSON values of the slots that aren't empty, each with its position, in order. Fails
/// only if memory is refused.
fn slots_json(alloc: Global, slots: &[ArrSlot]) -> Result<Vec<Value>, AllocError>
    ensures { IfOk result (λ values. items_view values.items
        ≡ items_by slot_data (filled_slots 0 slots.now)) }
{
    let mut values = Vec::new(alloc);
    for position in 0..slots.len() {
        match slots[position] {
            ArrSlot::Empty => {}
            slot => values.push(slot_json(alloc, position, slot)?)?,
        }
    }
    Ok(values)
}

/// Returns the JSON array of a slot's position and content. Fails only if memory is refused.
fn slot_json(alloc: Global, position: usize, slot: ArrSlot) -> Result<Value, AllocError>
    ensures { IfOk result (λ value. view value ≡ slot_data (position, slot)) }
{
    let content = content_json(alloc, slot)?;
    json!(in alloc; [position as u64, content])
}

/// Returns the JSON value of a slot's content: `"top"`, a number, or `null` for an empty slot,
/// which is never written. Fails only if memory is refused.
fn content_json(alloc: Global, slot: ArrSlot) -> Result<Value, AllocError>
    ensures { IfOk result (λ value. view value ≡ content_data slot) }
{
    match slot {
        ArrSlot::Empty => Ok(Value::Null),
        ArrSlot::Top => Value::try_from_str(alloc, TOP),
        ArrSlot::Value(x) => Ok(Value::from(x)),
    }
}

/// The JSON text for the content of a slot that a dequeue reached first.
const TOP: &str = "top";

/// Returns the position and the content of the slot that a JSON value spells, where `Top` is
/// spelled `"top"` and a value as its number; none if it spells none. The position may be `SLOTS`
/// or more.
#[tactic(auto, using(crate::proofs::ArrayLemmas::spells_no_slot))]
fn parse_slot(value: &Value) -> Option<(usize, ArrSlot)>
    ensures { result ≡ slot_of (view value.now) }
{
    let [position, content] = value.as_array()?.as_slice() else {
        return None;
    };
    let position = position.as_u64()? as usize;
    match content.as_str() {
        Some(TOP) => Some((position, ArrSlot::Top)),
        Some(_) => None,
        None => Some((position, ArrSlot::Value(content.as_u64()?))),
    }
}
