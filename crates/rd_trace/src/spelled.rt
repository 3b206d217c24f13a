//! The kinds of things that a trace lists. For each kind: which JSON values spell a thing, and how
//! a thing or a list of things is read and written.

ghost use Rattle.std.specs.Prelude.{◌≡◌, IfOk, OnOk, IfSome, IfNone, option_map};
ghost use Rattle.serde_json.specs.Data.{Data};
ghost use Rattle.serde_json.specs.View.{view, items_view};
ghost use Rattle.rd_trace.specs.Spelled.{Reads, itself, elements, SpellEachOf, AreSpelled};

use super::faults::TraceFault;
use serde_json::Value;
use std::alloc::{AllocError, Global};

/// A kind of thing that JSON values of a trace spell.
pub trait Spelled: Sized + Drop {
    /// Whether a JSON value spells a thing.
    ghost spells: { Data → Self → Type 0 };

    /// What must hold when `from_value` is called; by default nothing.
    ghost fits: { Type 0 } = { Unit {0} };

    /// Returns the thing of this kind that a JSON value spells. `fits` must hold.
    ///
    /// # Errors
    ///
    /// `BadTrace` if it spells none; `NoMemory` if memory was refused.
    fn from_value(alloc: Global, value: &Value) -> Result<Self, TraceFault>
        requires { fits }
        ensures { Reads itself (spells (view value.now)) result };
}

/// A kind of thing of fixed size, so that reading it takes no memory. Each is `Spelled`.
pub trait Plain: Sized + Drop {
    /// Whether a JSON value spells a thing.
    ghost spells: { Data → Self → Type 0 };

    /// What must hold when `parse_value` is called; by default nothing.
    ghost fits: { Type 0 } = { Unit {0} };

    /// Returns the thing of this kind that a JSON value spells; none if it spells none. `fits` must
    /// hold.
    fn parse_value(value: &Value) -> Option<Self>
        requires { fits }
        ensures some { IfSome result (spells (view value.now)) }
        ensures none { IfNone result ((thing : Self) → spells (view value.now) thing → ⊥) };
}

impl<T: Plain> Spelled for T {
    ghost spells = { T.spells };

    ghost fits = { T.fits };

    /// Returns the thing that a JSON value spells. `T.fits` must hold. Fails only if the value
    /// spells none, with `BadTrace`.
    #[tactic(auto, using(crate::proofs::SpellLemmas::read_or_bad))]
    fn from_value(_alloc: Global, value: &Value) -> Result<T, TraceFault> {
        T::parse_value(value).ok_or(TraceFault::BadTrace)
    }
}

/// A kind of thing that is also written as JSON values. The value as which a thing is written
/// spells the thing.
pub trait Written: Spelled {
    /// The JSON value as which a thing is written.
    ghost datum: { Self → Data };

    /// Returns the JSON value as which the thing is written. Fails only if memory is refused.
    fn to_value(&self, alloc: Global) -> Result<Value, AllocError>
        ensures value { IfOk result (λ value. view value ≡ datum self.now) }
        ensures spelled { OnOk result (Self.spells (datum self.now) self.now) };
}

/// Returns the things that the JSON values of a list spell, in order. `T.fits` must hold.
///
/// # Errors
///
/// `BadTrace` if there is no list, or if a value spells none; `NoMemory` if memory was refused.
pub fn parse_list<T: Spelled>(
    alloc: Global,
    list: Option<&Vec<Value>>,
) -> Result<Vec<T>, TraceFault>
    requires { T.fits }
    ensures { Reads elements (SpellEachOf T.spells
        (option_map (λ values. items_view values.now.items) list.entry)) result }
{
    let Some(list) = list else {
        return Err(TraceFault::BadTrace);
    };
    let mut things = Vec::with_capacity(alloc, list.len())?;
    for value in list {
        things.push_reserved(T::from_value(alloc, value)?);
    }
    Ok(things)
}

/// Returns the JSON values as which these things are written, in order. Fails only if memory is
/// refused.
pub fn list_json<T: Written>(alloc: Global, things: &[T]) -> Result<Vec<Value>, AllocError>
    ensures { IfOk result (λ values. AreSpelled T.spells T.datum values.items things.now) }
{
    let mut values = Vec::with_capacity(alloc, things.len())?;
    for thing in things {
        values.push_reserved(thing.to_value(alloc)?);
    }
    Ok(values)
}
