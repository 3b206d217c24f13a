//! The kinds of step on the lock's table, as types for contracts alone. Each states what the seats
//! that make the step know afterwards.
//!
//! A step changes the views of these seats only.
ghost use Rattle.rd_lock.specs.Steps as steps;

use crate::views::{Recorded, View};
use atomic_table::{Join, Play, Split};

/// A load of the word `next`.
pub struct LoadsNext;

impl<T: Recorded> Play<Option<T>, View<T::Entry, T::Origin>> for LoadsNext {
    ghost then = { λ _. steps.LoadsNext };
}

/// The compare-and-exchange of `next` in `take`. If it wins, the pass waits with the ticket that it
/// has drawn.
pub struct Draws;

impl<T: Recorded> Play<Option<T>, View<T::Entry, T::Origin>> for Draws {
    ghost then = { λ step. steps.Draws step.first };
}

/// A load of the word `served` by a seat that doesn't wait.
pub struct LoadsServed;

impl<T: Recorded> Play<Option<T>, View<T::Entry, T::Origin>> for LoadsServed {
    ghost then = { λ _. steps.LoadsServed };
}

/// The compare-and-exchange of `next` in `try_take`. If it wins, the pass holds the value by the
/// ticket that it has drawn.
pub struct Tries;

impl<T: Recorded> Play<Option<T>, View<T::Entry, T::Origin>> for Tries {
    ghost then = { λ step. steps.Tries T.history T.origin step.first };
}

/// A load of the word `served` by a pass that waits. If it finds the pass's ticket, the pass takes
/// the value.
pub struct Polls;

impl<T: Recorded> Play<Option<T>, View<T::Entry, T::Origin>> for Polls {
    ghost then = { λ _. steps.Polls T.history T.origin };
}

/// The fetch-and-add of one on the word `served` by which a holder gives the value back.
pub struct Releases;

impl<T: Recorded> Play<Option<T>, View<T::Entry, T::Origin>> for Releases {
    ghost then = { λ _. steps.Releases T.history T.origin };
}

/// The join of two seats. The first gets the members of both, with the second's in front, and the
/// second is spent.
pub struct Joins;

impl<E, O> Join<View<E, O>> for Joins {
    ghost use Rattle.std.specs.Prelude.{[], ◌++◌};
    ghost use Rattle.rd_lock.specs.Rule.{view_of};
    ghost use Rattle.rd_lock.specs.declared.views.Stage.TheVariants.{Out};

    ghost both = { λ v w. view_of (w.members ++ v.members) Out };

    ghost spent = { view_of [] Out };
}

/// The split of a seat: its first member gets a seat of its own.
pub struct Splits;

impl<E, O> Split<View<E, O>> for Splits {
    ghost use Rattle.std.specs.Prelude.{drop, take};
    ghost use Rattle.rd_lock.specs.Rule.{view_of};
    ghost use Rattle.rd_lock.specs.declared.views.Stage.TheVariants.{Out};

    ghost left = { λ v. view_of (drop 1 v.members) Out };

    ghost right = { λ v. view_of (take 1 v.members) Out };
}
