//! Undoing the last steps of a run in the world that it leads to, and making the steps of a run
//! again in the world that it starts from.

ghost use Rattle.std.specs.Prelude.{◌≡◌, ◌++◌, ◌+◌, ◌≤◌, ℕ, List, Ok, length, take, drop};
ghost use Rattle.rd_step.specs.declared.entries.Entry.{Entry as SomeEntry};
ghost use Rattle.rd_step.specs.Prelude.{model, room, run, World as Model};
ghost use Rattle.rd_journal.specs.Journal.{events, IsRunFrom, LeadsTo};
ghost use Rattle.rd_journal.specs.Room.{HasRoomToRedo, room_returned_by};

use super::super::entry_list::EntryList;
use rd_inverse::unstep;
use rd_step::World;

/// Undoes all but the first `n` of the steps, the last one first. There must be at least `n`, and
/// they must be those of a run that led from a well-formed world to this one. The call gives the
/// room of their makings back, and takes no memory.
pub(super) fn undo_after<const R: usize>(world: &mut World<R>, steps: &EntryList, n: usize)
    requires within { n ≤ length steps.now }
    requires leads { (start : Model) × LeadsTo start (model world.old) steps.now }
    ensures leads { (start : Model) → LeadsTo start (model world.old) steps.now
        → LeadsTo start (model world.new) (take n steps.now) }
    ensures room { (m : ℕ) → room world.old m + room_returned_by (drop n steps.now) m
        ≤ room world.new m }
{
    for last in (n..steps.len()).rev() {
        unstep(world, steps.at(last));
    }
}

/// Makes the steps again, one after another. They must be those of a run from this world, and there
/// must be room for their makings; room for further ones stays.
pub(super) fn step_all_again<const R: usize>(world: &mut World<R>, steps: &EntryList)
    requires runs { IsRunFrom (model world.old) steps.now }
    requires room { HasRoomToRedo steps.now (room world.old) }
    ensures ran { run (model world.old) (events steps.now)
        ≡ Ok (record { world = model world.new; entries = steps.now }) }
    ensures room { (rest : List SomeEntry) → HasRoomToRedo (steps.now ++ rest) (room world.old)
        → HasRoomToRedo rest (room world.new) }
{
    for next in 0..steps.len() {
        world.step_again(steps.at(next));
    }
}
