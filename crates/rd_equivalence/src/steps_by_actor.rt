//! The steps of a run that are left to compare, by actor.
//!
//! For each step of the first run, the comparison removes the next step of the same actor from
//! those left of the second run.

ghost use Rattle.std.specs.Prelude.{◌≡◌, ◌↔◌, [], ℕ, length, IsTrue, IfOk, OnOk, MatchOption};
ghost use Rattle.rd_equivalence.specs.ComparedSteps.{steps_by_actor, remaining_steps, with_first};
ghost use Rattle.rd_depend.specs.Tables.{list_at};

use rd_cell::limits::ACTOR_NUMBERS;
use rd_step::Entry;
use std::alloc::{AllocError, Global};

/// A step with its number in its run.
#[derive(Clone, Copy, Debug)]
pub(crate) struct NumberedStep<'a> {
    /// The step's number, from 1.
    pub(crate) at: usize,
    /// The step's entry.
    pub(crate) entry: &'a Entry,
}

/// The steps of a run that are left to compare, by actor.
#[derive(Drop)]
pub(crate) struct StepsByActor<'a> {
    /// By the actor's number. Each list has the actor's first step last, so that it can be popped.
    steps: Vec<Vec<NumberedStep<'a>>>,
}

impl<'a> StepsByActor<'a> {
    /// Returns all steps of these entries by actor, each with its number in the list, from 1.
    ///
    /// # Errors
    ///
    /// `AllocError` if memory is refused.
    pub(crate) fn of(alloc: Global, entries: &'a [Entry]) -> Result<StepsByActor<'a>, AllocError>
        ensures { IfOk result (λ steps. (n : ℕ) → remaining_steps steps n
            ≡ steps_by_actor entries.entry.now n) }
    {
        let mut steps = StepsByActor {
            steps: empty_list_per_actor(alloc)?,
        };
        let mut index = entries.len();
        while index > 0 {
            index -= 1;
            steps.push_front(index + 1, &entries[index])?;
        }
        Ok(steps)
    }

    /// Adds a step, with its number in the run, in front of those of its actor. There must be a
    /// list for each number that an actor may have. Fails only if memory is refused; the steps are
    /// unspecified then.
    fn push_front(&mut self, at: usize, entry: &'a Entry) -> Result<(), AllocError>
        requires { length self.old.steps.items ≡ ACTOR_NUMBERS }
        ensures number { length self.new.steps.items ≡ ACTOR_NUMBERS }
        ensures ok { OnOk result ((n : ℕ) → remaining_steps self.new n
            ≡ with_first (remaining_steps self.old) entry.entry.now.event.actor (at, entry.entry.now) n) }
    {
        self.steps[usize::from(entry.event.actor)].push(NumberedStep { at, entry })?;
        Ok(())
    }

    /// Removes and returns the first step that is left of the actor; `None` if none is left.
    pub(crate) fn pop_front(&mut self, actor: u8) -> Option<NumberedStep<'a>>
        ensures { MatchOption result (remaining_steps self.old actor ≡ [])
            (λ p. (n : ℕ) → remaining_steps self.old n
            ≡ with_first (remaining_steps self.new) actor (p.at, p.entry.now) n) }
    {
        match self.steps.get_mut(usize::from(actor)) {
            None => None,
            Some(steps) => steps.pop(),
        }
    }

    /// Whether no step is left.
    pub(crate) fn is_empty(&self) -> bool
        ensures { IsTrue result ↔ ((n : ℕ) → remaining_steps self.now n ≡ []) }
    {
        for steps in &self.steps {
            if !steps.is_empty() {
                return false;
            }
        }
        true
    }
}

/// Returns an empty list for each number that an actor may have. Fails only if memory is refused.
fn empty_list_per_actor<'a>(alloc: Global) -> Result<Vec<Vec<NumberedStep<'a>>>, AllocError>
    ensures { IfOk result (λ lists. (length lists.items ≡ ACTOR_NUMBERS)
        × ((n : ℕ) → list_at lists.items n ≡ [])) }
{
    let mut lists = Vec::new(alloc);
    for _actor in 0..ACTOR_NUMBERS {
        lists.push(Vec::new(alloc))?;
    }
    Ok(lists)
}
