//! Exchanging the steps after the first live ones. Room for entries, for makings and in the index
//! comes first; then the old steps are undone, and the given ones made.

ghost use Rattle.std.specs.Prelude.{◌≡◌, ◌++◌, ◌+◌, ◌-◌, ◌<◌, ◌≤◌, [], ℕ, length, take, drop, get_or, IsOk, OnOk, OnErr, IfErr};
ghost use Rattle.rd_step.specs.Prelude.{model, room as world_room};
ghost use Rattle.rd_journal.specs.Journal.{events, IsRunFrom};
ghost use Rattle.rd_journal.specs.Moves.{IsSwitched};
ghost use Rattle.rd_journal.specs.Room.{room_returned_by, room_after_undoing, ActorsHaveRoom, LacksRoomToSwitch, LacksRoomForMakings, LacksIndexRoom};
ghost use Rattle.rd_journal.specs.State.{switch};

use super::super::entry_list::EntryList;
use super::super::indexing::replace_in_index;
use super::Session;
use super::stepping::{step_all_again, undo_after};
use rd_cell::Refusal;
use rd_cell::limits::{ACTOR_NUMBERS, MOST_STEPS};
use rd_step::{Entry, World};

impl<const R: usize> Session<R> {
    ghost use Rattle.rd_journal.specs.Sessions.{journal, state, ahead, room, capacity, index, KeepsItsSteps};

    /// Makes room for the given entries after the first `kept` live ones, and for the makings among
    /// them once the other live steps are undone. At least `kept` steps must be live, and at most
    /// `MOST_STEPS` may be kept and given together. Memory is asked for only if room is missing. The
    /// steps and the world stay as they are.
    ///
    /// # Errors
    ///
    /// `NoMemory` if memory is refused, which never happens if no entry is given.
    pub(super) fn make_room_to_switch(&mut self, kept: u64, given: &[Entry]) -> Result<(), Refusal>
        requires within { kept ≤ length (journal self.old).live }
        requires few { kept + length given.now ≤ MOST_STEPS }
        ensures ok { OnOk result (kept + length given.now ≤ capacity self.new) }
        ensures makings { OnOk result (ActorsHaveRoom (journal self.new).world given.now
            (room_after_undoing (drop kept (journal self.new).live) (room self.new))) }
        ensures err { IfErr result (λ refusal. (refusal ≡ Refusal.NoMemory)
            × LacksRoomToSwitch kept (journal self.old) (ahead self.old) given.now
            (capacity self.old) (room self.old) (index self.old)) }
        ensures succeeds { given.now ≡ [] → IsOk result }
        ensures capacity { kept + length given.now ≤ capacity self.old
            → capacity self.new ≡ capacity self.old }
        ensures unchanged { KeepsItsSteps self.old self.new }
        ensures ahead { ahead self.new ≡ ahead self.old }
        ensures index { index self.new ≡ index self.old }
    {
        self.entries.make_room_for(kept as usize + given.len())?;
        make_room_for_makings(
            &mut self.world,
            &self.entries.live().after(kept as usize),
            given,
        )
    }

    /// Replaces all entries after the first `n` live ones by the given ones in the index, undoes
    /// the live steps after the first `n`, and makes the given steps again. These are then the last
    /// live ones, and no step is ahead. The preconditions are those of `switch`, and
    /// `make_room_to_switch` must have made room for the entries and their makings.
    ///
    /// # Errors
    ///
    /// `NoMemory` if the index is refused memory. The steps and the world are then as before.
    pub(super) fn replace_steps_after(&mut self, n: usize, given: &[Entry]) -> Result<(), Refusal>
        requires within { n ≤ length (journal self.old).live }
        requires few { n + length given.now ≤ MOST_STEPS }
        requires run { IsRunFrom (journal self.old).start
            (take n (journal self.old).live ++ given.now) }
        requires capacity { n + length given.now ≤ capacity self.old }
        requires makings { ActorsHaveRoom (journal self.old).world given.now
            (room_after_undoing (drop n (journal self.old).live) (room self.old)) }
        ensures entries { OnOk result (IsSwitched n given.now (journal self.old)
            (journal self.new)) }
        ensures state { OnOk result (state self.new
            ≡ switch (state self.old) n (events given.now)) }
        ensures err { IfErr result (λ refusal. (refusal ≡ Refusal.NoMemory)
            × LacksIndexRoom (index self.old)
            (drop n (journal self.old).live ++ ahead self.old) given.now) }
        ensures unchanged { OnErr result (KeepsItsSteps self.old self.new) }
        ensures capacity { capacity self.new ≡ capacity self.old }
    {
        replace_in_index(&mut self.index, &self.entries, n, given)?;
        undo_after(&mut self.world, &self.entries.live(), n);
        self.entries.replace_after(n, given);
        step_all_again(&mut self.world, &self.entries.live().after(n));
        self.undone = 0;
        Ok(())
    }
}

/// Makes room for each actor's makings among the given entries, beyond the room that undoing the
/// dropped entries gives back. Memory is asked for only if room is missing. The world's contents
/// and actors stay as they are.
///
/// # Errors
///
/// `NoMemory` if memory is refused, which never happens if no entry is given. Room that was made
/// for some actors stays.
fn make_room_for_makings<const R: usize>(
    world: &mut World<R>,
    dropped: &EntryList,
    given: &[Entry],
) -> Result<(), Refusal>
    ensures ok { OnOk result (ActorsHaveRoom (model world.new) given.now
        (room_after_undoing dropped.now (world_room world.new))) }
    ensures err { IfErr result (λ refusal. (refusal ≡ Refusal.NoMemory)
        × LacksRoomForMakings given.now (room_after_undoing dropped.now (world_room world.old))) }
    ensures succeeds { given.now ≡ [] → IsOk result }
    ensures unchanged { model world.new ≡ model world.old }
    ensures room { (m : ℕ) → world_room world.old m ≤ world_room world.new m }
{
    let counts = making_counts_beyond(dropped, making_counts(given));
    for number in 0..world.actors() {
        let actor = number + 1;
        world.make_room(actor, counts[usize::from(actor)])?;
    }
    Ok(())
}

/// Returns, for each actor's number, the number of makings by that actor among these entries.
fn making_counts(entries: &[Entry]) -> [usize; ACTOR_NUMBERS]
    ensures { (m : ℕ) → m < ACTOR_NUMBERS → get_or result m 0 ≡ room_returned_by entries.now m }
{
    let mut counts = [0; ACTOR_NUMBERS];
    for entry in entries {
        if let Some(segment) = entry.made_segment() {
            counts[usize::from(segment.maker)] += 1;
        }
    }
    counts
}

/// Returns, for each actor's number, the given number of makings less the number that the actor has
/// among the dropped entries; 0 if that is more than the given one.
fn making_counts_beyond(
    dropped: &EntryList,
    given: [usize; ACTOR_NUMBERS],
) -> [usize; ACTOR_NUMBERS]
    ensures { (m : ℕ) → m < ACTOR_NUMBERS
        → get_or result m 0 ≡ get_or given m 0 - room_returned_by dropped.now m }
{
    let mut counts = given;
    for position in 0..dropped.len() {
        if let Some(segment) = dropped.at(position).made_segment() {
            let maker = usize::from(segment.maker);
            counts[maker] = counts[maker].saturating_sub(1);
        }
    }
    counts
}
