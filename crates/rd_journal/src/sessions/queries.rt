//! What can be read of a session: its steps and their entries, its start and its world.

ghost use Rattle.std.specs.Prelude.{◌≡◌, ◌+◌, ◌≤◌, ◌-◌, length, Ok, IfOk, IfErr};
ghost use Rattle.rd_step.specs.Prelude.{model, first_dependant, MOST_STEPS};
ghost use Rattle.rd_depend.specs.Writers.{last_position, writes_to};
ghost use Rattle.rd_journal.specs.Journal.{entry_of, events, IsRunFrom, IsRun};
ghost use Rattle.rd_journal.specs.State.{run_of};
ghost use Rattle.rd_step.specs.Lists.{numbered};
ghost use Rattle.rd_journal.specs.Laws.{IsStepAfter};

use super::super::entry_list::EntryList;
use super::Session;
use super::stepping::undo_after;
use rd_cell::{Place, Refusal};
use rd_depend::Probes;
use rd_step::{Entry, Event, World};
use std::alloc::Global;

impl<const R: usize> Session<R> {
    ghost use Rattle.rd_journal.specs.Sessions.{journal, state};

    /// Returns the number of live steps.
    pub fn len(&self) -> u64
        ensures count { result ≡ length (state self.now).live }
        ensures entries { result ≡ length (journal self.now).live }
    {
        self.entries.live_len() as u64
    }

    /// Returns the number of undone steps.
    pub fn undone_len(&self) -> u64
        ensures count { result ≡ length (state self.now).undone }
        ensures entries { result ≡ length (journal self.now).undone }
    {
        self.undone as u64
    }

    /// Returns the entries of the live steps, in their order. They are the entries of a run from
    /// the start.
    pub fn live(&self) -> EntryList<'_>
        ensures entries { result ≡ (journal self.now).live }
        ensures run { IsRunFrom (state self.now).start result }
        ensures events { events result ≡ (state self.now).live }
        ensures few { length result ≤ MOST_STEPS }
    {
        self.entries.live()
    }

    /// Returns the entry of the live step of this number, from 1.
    ///
    /// # Errors
    ///
    /// `NoSuchStep`, with the number of live steps, if `k` is 0 or above that number.
    pub fn entry(&self, k: u64) -> Result<Entry, Refusal>
        ensures found { result ≡ entry_of (journal self.now) k }
        ensures step { IfOk result (λ entry. IsStepAfter (k - 1) (journal self.now) entry) }
        ensures runs { IsRun (journal self.now) }
    {
        let len = self.len();
        if k == 0 || k > len {
            return Err(Refusal::NoSuchStep(len));
        }
        Ok(*self.entries.live_at(k as usize - 1))
    }

    /// Returns the number, from 1, of the last live step that wrote this place, or one of the
    /// places that it names; `None` if no live step did. It asks the index of dependants, and takes
    /// no memory.
    pub fn last_writer(&self, place: Place) -> Option<u64>
        ensures { result ≡ last_position (writes_to place) (journal self.now).live }
    {
        let mut probes = Probes::new();
        self.index.last_writer(self.len(), place, &mut probes)
    }

    /// Returns the number of the first live step after the `k`-th that depends on it; `None` if no
    /// later live step does. There must be a `k`-th live step, counted from 1.
    pub(super) fn first_dependant(&self, k: u64) -> Option<u64>
        requires some { 1 ≤ k }
        requires within { k ≤ length (journal self.now).live }
        ensures { result ≡ first_dependant (journal self.now).live k }
    {
        let mut probes = Probes::new();
        let entry = self.entries.live_at(k as usize - 1);
        match self.index.first(k, entry, &mut probes) {
            None => None,
            Some(number) => {
                if number > self.len() {
                    None
                } else {
                    Some(number)
                }
            }
        }
    }

    /// Returns the event of the undone step of this number, from 1; `None` if there is no such
    /// step. Number 1 is the step that was undone last.
    pub fn undone_event(&self, i: u64) -> Option<Event>
        ensures { result ≡ numbered (state self.now).undone i }
    {
        if i == 0 || i > self.undone_len() {
            return None;
        }
        Some(self.entries.ahead_at(i as usize - 1).event)
    }

    /// Returns the world in which the session was opened: a copy of its world in which all live
    /// steps are undone.
    ///
    /// # Errors
    ///
    /// `NoMemory` if memory is refused.
    pub fn start_world(&self, alloc: Global) -> Result<World<R>, Refusal>
        ensures ok { IfOk result (λ world. model world ≡ (state self.now).start) }
        ensures err { IfErr result (λ refusal. refusal ≡ Refusal.NoMemory) }
    {
        let mut world = self.world.copy(alloc)?;
        undo_after(&mut world, &self.live(), 0);
        Ok(world)
    }

    /// Returns the session's world, to which the live events lead from the session's start.
    pub fn world(&self) -> &World<R>
        ensures value { model result.now ≡ (journal self.now).world }
        ensures run { run_of (state self.now)
            ≡ Ok (record { world = model result.now; entries = (journal self.now).live }) }
        ensures ring { (state self.now).start.ring ≡ R }
        ensures runs { IsRun (journal self.now) }
        ensures few { length (journal self.now).live + length (journal self.now).undone
            ≤ MOST_STEPS }
    {
        &self.world
    }
}
