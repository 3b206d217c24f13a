//! Whether the events of two lists of entries are causally equivalent.
//!
//! The events with which both lists begin are skipped, and one pass over each list compares the
//! others. The lists are equivalent exactly if each actor makes the same steps in the same order in
//! both, and steps that depend on each other are in the same order (`keeping_order`).

ghost use Rattle.std.specs.Prelude.{◌≡◌, ◌≤◌, ◌↔◌, length, true, false, IsTrue, IfOk, OnErr};
ghost use Rattle.rd_step.specs.Run.{events};
ghost use Rattle.rd_equivalence.specs.Beginnings.{NeitherBegins};
ghost use Rattle.rd_equivalence.specs.Equivalence.{DecidesEquivalence};
ghost use Rattle.rd_equivalence.specs.KeepingOrder.{AreAlike};
ghost use Rattle.rd_equivalence.specs.ComparedSteps.{IsMatched, IsUnmatched, remaining_steps, reached_of};

use super::keeping_order::ReachedByKey;
use super::steps_by_actor::StepsByActor;
use rd_step::{Entry, common_beginning_len};
use std::alloc::{AllocError, Global};

/// Whether the events of two runs from one start are causally equivalent: one list is the other, up
/// to the order of steps that do not depend on each other. The lists must be the entries of two
/// such runs; the result is unspecified for others. The time grows with the lengths of the
/// lists; each event after their common beginning costs a few look-ups. The common beginning takes
/// no memory.
///
/// # Errors
///
/// `AllocError` if memory is refused. None is asked for if the events of one list begin those of
/// the other.
pub fn are_equivalent(alloc: Global, a: &[Entry], b: &[Entry]) -> Result<bool, AllocError>
    ensures answer { IfOk result (DecidesEquivalence a.now b.now) }
    ensures memory { OnErr result (NeitherBegins (events a.now) (events b.now)) }
{
    let common = common_beginning_len(&a, &b);
    are_rests_equivalent(alloc, &a[common..], &b[common..])
}

/// Whether two runs from one start are causally equivalent, given their entries. It passes once
/// over each list, and skips no common beginning. Fails only if memory is refused, and never if one
/// of the lists is empty.
fn are_rests_equivalent(alloc: Global, a: &[Entry], b: &[Entry]) -> Result<bool, AllocError>
    ensures answer { IfOk result (DecidesEquivalence a.now b.now) }
    ensures memory { OnErr result ((1 ≤ length a.now) × (1 ≤ length b.now)) }
{
    if a.is_empty() {
        return Ok(b.is_empty());
    }
    if b.is_empty() {
        return Ok(false);
    }
    let mut left = StepsByActor::of(alloc, b)?;
    let mut reached = ReachedByKey::new(alloc);
    for entry in a {
        if !match_next(&mut left, &mut reached, entry)? {
            return Ok(false);
        }
    }
    Ok(left.is_empty())
}

/// Compares the next step of the first run with the second run. Removes the next step of the same
/// actor from those left of the second run. Returns whether there is one, it is like this step, and
/// it comes there after all earlier steps on which it depends. If it is like this step, this step
/// is added under its keys with its number there. Fails only if memory is refused; the step may
/// then be added under some of its keys only.
fn match_next(
    left: &mut StepsByActor,
    reached: &mut ReachedByKey,
    entry: &Entry,
) -> Result<bool, AllocError>
    ensures same { IfOk result (λ ok. ok ≡ true
        → IsMatched entry.now (reached_of reached.old) (reached_of reached.new) (remaining_steps left.old)
        (remaining_steps left.new)) }
    ensures differs { IfOk result (λ ok. ok ≡ false
        → IsUnmatched entry.now (reached_of reached.old) (remaining_steps left.old)) }
{
    let Some(other) = left.pop_front(entry.event.actor) else {
        return Ok(false);
    };
    if !are_alike(entry, other.entry) {
        return Ok(false);
    }
    reached.add_step(entry, other.at)
}

/// Whether the two steps have the same event and the same place, and wrote the same part of it.
fn are_alike(a: &Entry, b: &Entry) -> bool
    ensures { IsTrue result ↔ AreAlike a.now b.now }
{
    a.event == b.event && a.place == b.place && a.wrote == b.wrote
}
