//! Segments as JSON: an object with a member for each part of a segment, and an array of three for
//! each cell.

ghost use Rattle.std.specs.Prelude.{◌≡◌, ◌≤◌, List, IfSome, IfNone, length};
ghost use Rattle.serde_json.specs.View.{items_view};
ghost use Rattle.rd_step.specs.Prelude.{MOST_CELLS};
ghost use Rattle.rd_cell.specs.declared.cells.Cell.{Cell};
ghost use Rattle.rd_ring.specs.declared.parts.SegmentParts.{SegmentParts};
ghost use Rattle.rd_trace.specs.Spelled.{Gives, SpellEach};
ghost use Rattle.rd_trace.specs.Segments.{cell_of, cell_data, SpellsSegment, SpellsSegmentList, segment_data, segment_list_data};

use super::actors::parse_val;
use super::faults::TraceFault;
use super::members::{items_at, member_count, number_at};
use super::names::{next_json, parse_segment_name};
use super::spelled::{Plain, Spelled, Written, list_json, parse_list};
use rd_cell::Cell;
use rd_step::SegmentParts;
use serde_json::{Value, json};
use std::alloc::{AllocError, Global};

/// The number of members of the JSON object of a segment.
const MEMBERS: usize = 5;

const CELLS: &str = "cells";

const CLOSED: &str = "closed";

const HEAD: &str = "head";

const NEXT: &str = "next";

const TAIL: &str = "tail";

impl<const R: usize> Spelled for Vec<SegmentParts<R>> {
    ghost spells = { SpellsSegmentList };

    ghost fits = { R ≤ MOST_CELLS };

    /// Returns the list of segments that a JSON value spells. `R` must be at most 64. Fails with
    /// `BadTrace` if it spells none, and with `NoMemory` if memory is refused.
    fn from_value(alloc: Global, value: &Value) -> Result<Vec<SegmentParts<R>>, TraceFault> {
        parse_list(alloc, value.as_array())
    }
}

impl<const R: usize> Written for Vec<SegmentParts<R>> {
    ghost datum = { segment_list_data };

    /// Returns the JSON value of the list of segments. Fails only if memory is refused.
    fn to_value(&self, alloc: Global) -> Result<Value, AllocError> {
        Ok(Value::Array(list_json(alloc, self)?))
    }
}

impl<const R: usize> Plain for SegmentParts<R> {
    ghost spells = { SpellsSegment };

    ghost fits = { R ≤ MOST_CELLS };

    /// Returns the segment that a JSON value spells; none if it spells none. `R` must be at most
    /// 64.
    fn parse_value(value: &Value) -> Option<SegmentParts<R>> {
        if member_count(value)? != MEMBERS {
            return None;
        }
        Some(SegmentParts {
            head: number_at(value, HEAD)?,
            tail: number_at(value, TAIL)?,
            closed: value.get(CLOSED).and_then(Value::as_bool)?,
            next: match value.get(NEXT)? {
                Value::Null => None,
                name => Some(parse_segment_name(name)?),
            },
            cells: parse_cells(items_at(value, CELLS)?)?,
        })
    }
}

impl<const R: usize> Written for SegmentParts<R> {
    ghost datum = { segment_data };

    /// Returns the JSON value of the segment. Fails only if memory is refused.
    fn to_value(&self, alloc: Global) -> Result<Value, AllocError> {
        let cells = list_json(alloc, &self.cells[..])?;
        let next = next_json(alloc, self.next)?;
        json!(in alloc; {
            CELLS: cells,
            CLOSED: self.closed,
            HEAD: self.head,
            NEXT: next,
            TAIL: self.tail
        })
    }
}

impl Plain for Cell {
    ghost spells = { Gives cell_of };

    /// Returns the cell that a JSON value spells; none if it spells none.
    fn parse_value(value: &Value) -> Option<Cell> {
        let items = value.as_array()?;
        match items.as_slice() {
            [safe, idx, val] => Some(Cell {
                safe: safe.as_bool()?,
                idx: idx.as_u64()?,
                val: parse_val(val)?,
            }),
            _ => None,
        }
    }
}

impl Written for Cell {
    ghost datum = { cell_data };

    /// Returns the JSON value of the cell, an array of its safe bit, index and value. Fails only if
    /// memory is refused.
    fn to_value(&self, alloc: Global) -> Result<Value, AllocError> {
        json!(in alloc; [self.safe, self.idx, self.val])
    }
}

/// Returns the `R` cells that the values of a list spell; none if a value spells no cell, or if
/// there are not `R` values.
fn parse_cells<const R: usize>(list: &Vec<Value>) -> Option<[Cell; R]>
    ensures some { IfSome result (SpellEach (Gives cell_of) (items_view list.now.items)) }
    ensures length { IfSome result (λ cells. length cells ≡ R) }
    ensures none { IfNone result ((cells : List Cell) → length cells ≡ R
        → SpellEach (Gives cell_of) (items_view list.now.items) cells → ⊥) }
{
    if list.len() != R {
        return None;
    }
    let mut cells = [Cell::fresh(0); R];
    for i in 0..R {
        cells[i] = Cell::parse_value(&list[i])?;
    }
    Some(cells)
}
