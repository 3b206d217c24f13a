//! Compares the order of dependent steps in two runs.
//!
//! Two runs are causally equivalent exactly if each actor makes the same steps in the same order in
//! both, and any two steps that depend on each other are in the same order. So the code goes over
//! the steps of the first run in order, and keeps how far they reached in the second run.
//! For each key this is the greatest number there of a step that touched it, and of one that wrote
//! it. A step that writes has to come after both there, and a step that only reads after those that
//! wrote. A making counts as a write of its segment, and any other step at a place of the segment
//! as a read of it.

ghost use Rattle.std.specs.Prelude.{◌≡◌, ◌↔◌, ◌<◌, IsTrue, IfOk, OnOk};
ghost use Rattle.rd_depend.specs.declared.index.keys.Key.{Key as KeyOf};
ghost use Rattle.rd_equivalence.specs.KeepingOrder.{IsAfter, IsInOrder, last_blocking, is_whole_segment, nothing_reached, raised, with_step, with_step_under};
ghost use Rattle.rd_equivalence.specs.ComparedSteps.{reached_of};

use indexmap::IndexMap;
use rd_cell::Place;
use rd_depend::{Key, is_value_written};
use rd_step::Entry;
use std::alloc::{AllocError, Global};

/// How far the steps under one key reached in the second run. Each field is the greatest number of
/// such a step there, from 1, or 0 if there is none.
#[derive(Clone, Copy, Debug)]
pub(crate) struct Reached {
    /// Among the steps that touched the key.
    pub(crate) touched: usize,
    /// Among the steps that wrote it.
    pub(crate) wrote: usize,
}

impl Reached {
    /// Raises the numbers to `at`, the number in the second run of one more step that touched the
    /// key and, if `wrote`, wrote it. Returns whether this step comes there after all steps added
    /// before under the key on which it depends.
    fn raise(&mut self, wrote: bool, at: usize) -> bool
        ensures order { IsTrue result ↔ (last_blocking self.old wrote < at) }
        ensures reached { self.new ≡ raised self.old wrote at }
    {
        let last = if wrote { self.touched } else { self.wrote };
        self.touched = self.touched.max(at);
        if wrote {
            self.wrote = self.wrote.max(at);
        }
        last < at
    }
}

/// How far the steps that were added reached in the second run, under each key.
#[derive(Drop)]
pub(crate) struct ReachedByKey {
    /// By key; a key under which no step was added is missing.
    reached: IndexMap<Key, Reached>,
}

impl ReachedByKey {
    /// Returns the state before the first step, in which nothing is reached. It takes no memory.
    pub(crate) fn new(alloc: Global) -> ReachedByKey
        ensures { (k : KeyOf) → reached_of result k ≡ nothing_reached k }
    {
        ReachedByKey {
            reached: IndexMap::new(alloc),
        }
    }

    /// Adds a step, which has the number `at` in the second run, from 1. Returns whether it comes
    /// there after all steps added before with which it shares a key and on which it depends.
    ///
    /// # Errors
    ///
    /// `AllocError` if memory is refused. The step may then be added under some of its keys only.
    pub(crate) fn add_step(&mut self, entry: &Entry, at: usize) -> Result<bool, AllocError>
        ensures order { IfOk result (λ ok. IsTrue ok
            ↔ IsInOrder (reached_of self.old) entry.now at) }
        ensures reached { OnOk result (reached_of self.new
            ≡ with_step (reached_of self.old) entry.now at) }
    {
        let wrote = !entry.wrote.is_nothing();
        let value_written = is_value_written(entry.wrote);
        let place = self.add_step_under(entry.place.map(Key::of_place), wrote, at)?;
        let value = self.add_step_under(entry.place.and_then(Key::of_value), value_written, at)?;
        let segment = self.add_step_under(
            entry.place.and_then(Key::of_segment),
            is_whole_segment(entry.place),
            at,
        )?;
        Ok(place & value & segment)
    }

    /// Adds a step under this key, which it touched and, if `wrote`, wrote. The step has the number
    /// `at` in the second run. Returns whether it comes there after all steps added before under
    /// the key on which it depends; without a key it does nothing and returns true. Fails only if
    /// memory is refused; what is reached is unspecified then.
    fn add_step_under(
        &mut self,
        key: Option<Key>,
        wrote: bool,
        at: usize,
    ) -> Result<bool, AllocError>
        ensures order { IfOk result (λ ok. IsTrue ok ↔ IsAfter (reached_of self.old) key wrote at) }
        ensures reached { OnOk result (reached_of self.new
            ≡ with_step_under key wrote at (reached_of self.old)) }
    {
        let Some(key) = key else {
            return Ok(true);
        };
        if let Some(reached) = self.reached.get_mut(&key) {
            return Ok(reached.raise(wrote, at));
        }
        let mut reached = Reached {
            touched: 0,
            wrote: 0,
        };
        let order = reached.raise(wrote, at);
        match self.reached.insert(key, reached) {
            Err(_) => Err(AllocError),
            Ok(_) => Ok(order),
        }
    }
}

/// Whether there is a place, and it is the whole of a segment, as for a making.
fn is_whole_segment(place: Option<Place>) -> bool
    ensures { result ≡ is_whole_segment place }
{
    matches!(place, Some(Place::Whole(_)))
}
