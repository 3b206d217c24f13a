//! The session: a world, with the entries of its live and undone steps.
//!
//! An undo puts back the old record and the old content that an entry has, and the entry goes to
//! the front of the undone ones. It undoes the last step, any other on which no later one depends,
//! or a step with all that depend on it, and needs no more room than these steps have made. A redo
//! makes steps again. A switch undoes all but the first steps and makes others again.
//!
//! Beside the entries is their index of dependants. Between calls it is that of the live ones and,
//! after them, of those ahead; a dependant that it finds beyond the live ones doesn't count.
//!
//! The live steps with those ahead of them are the session's track. A caller that knows which steps
//! are on it can go along it. The steps that this leaves ahead don't count as undone, but stay
//! there, and can be made again with no entry copied and the index as it is.
//!
//! The calls that change a session are here. The files of `sessions/` move its steps for them, and
//! `queries` has the calls that only read it.

mod moving;
mod queries;
mod stepping;
mod switching;
mod undoing;

ghost use Rattle.std.specs.Prelude.{◌≡◌, ◌⊎◌, ◌++◌, ◌+◌, ◌≤◌, ℕ, [], length, take, drop, Ok, Err, IsOk, OnOk, OnErr, IfOk, IfErr};
ghost use Rattle.rd_step.specs.Prelude.{model, room as world_room};
ghost use Rattle.rd_journal.specs.Journal.{events, IsRunFrom};
ghost use Rattle.rd_journal.specs.SessionFields.{opened_with, whole_journal, IsSession};
ghost use Rattle.rd_journal.specs.Room.{ComesAfterRoom, LacksRoomToSwitch};
ghost use Rattle.rd_depend.specs.Index.{IsIndexOf};
ghost use Rattle.rd_journal.specs.Entries.{ahead_entries, kept_entries};
ghost use Rattle.rd_journal.specs.State.{apply, call_result_of, MayLackMemory, undo_at, back, forward, roll, switch};
ghost use Rattle.rd_journal.specs.Moves.{IsStepOf, IsMovedBack, IsMovedForward, IsRunWithoutLast, IsUndoneAlone, IsRunWithout, IsSwitched, IsRolledBack, IsRunWithoutClosure, undo_at_answer, roll_answer};

use super::entries::Entries;
use super::indexing::replace_in_index;
use rd_cell::Refusal;
use rd_cell::limits::MOST_STEPS;
use rd_depend::DependIndex;
use rd_inverse::unstep;
use rd_step::{Entry, Event, World};
use std::alloc::Global;
use std::slice::from_ref;
use std::snapshot::Snapshot;

/// A world of rings of `R` cells, with the steps that led to it and those that were undone.
pub struct Session<const R: usize> {
    /// The world to which the live steps have led.
    world: World<R>,
    /// The entries of the live steps and of the steps ahead of them. The steps ahead are the undone
    /// ones, and after them those that the session went back over.
    entries: Entries,
    /// The index of dependants of the live entries and, after them, of those ahead.
    index: DependIndex,
    /// The number of undone steps, which are the first ones ahead.
    undone: usize,
    /// The world that the session was opened with, for contracts alone: it takes no memory.
    opened: Snapshot<World<R>>,
    ghost kept: { IsSession (whole_journal (opened_with opened) (model world) entries)
        (world_room world) },
    ghost within: { undone ≤ length (ahead_entries entries) },
    ghost indexed: { IsIndexOf index (kept_entries entries) },
}

/// Written out rather than derived, so that the proof of a function in which a session ends has one
/// step for that, instead of one for each list inside.
impl<const R: usize> Drop for Session<R> {
    /// Frees all memory of the session.
    fn drop(self) {
        let Session {
            world: _world,
            entries: _entries,
            index: _index,
            undone: _,
            opened: _opened,
        } = self;
    }
}

impl<const R: usize> Session<R> {
    ghost use Rattle.rd_journal.specs.Sessions.{journal, state, ahead, track, room, capacity, index, MayRefuse, AnswersAs, GoesAlongTrack, KeepsItsSteps};

    /// Opens a session in a world, which is its start. No step is live or undone then, and makers
    /// keep the room that they have in the world. Opening takes no memory.
    pub fn open(alloc: Global, world: World<R>) -> Session<R>
        ensures state { state result ≡ record {
          start = model world.entry;
          live = [];
          undone = [];
        } }
        ensures journal { journal result ≡ record {
          start = model world.entry;
          world = model world.entry;
          live = [];
          undone = [];
        } }
        ensures capacity { capacity result ≡ 0 }
        ensures room { (m : ℕ) → room result m ≡ world_room world.entry m }
    {
        let opened = Snapshot::of(&world);
        Session {
            world,
            entries: Entries::new(alloc),
            index: DependIndex::new(alloc),
            undone: 0,
            opened,
        }
    }

    /// Makes an event happen as the last live step, and discards all steps ahead, undone or not.
    /// Returns the step's number, from 1, and its entry.
    ///
    /// # Errors
    ///
    /// The first of these that applies:
    /// - `TooLong` if `MOST_STEPS` steps are live;
    /// - `NoMemory` if room for one more entry is refused, which is asked for only if the live
    ///   entries fill the room;
    /// - the refusal of the step itself, which is `NoMemory` for a making whose maker has no room
    ///   and is refused memory;
    /// - `NoMemory` if the index of dependants, once the steps ahead are removed from it, has no
    ///   room for the step and is refused it.
    ///
    /// The steps and the world are then as before.
    pub fn apply(&mut self, event: Event) -> Result<(u64, Entry), Refusal>
        // A step is made in the world, and its event is put last in the state.
        ensures ok { OnOk result (apply (state self.old) event ≡ Ok (state self.new)) }
        ensures reply { IfOk result (λ done. call_result_of (state self.old) event ≡ done.1.reply) }
        ensures step { IfOk result (λ done. IsStepOf event done (journal self.old)
            (journal self.new)) }

        // The event is refused in the session's state, or for lack of memory, and then no step
        // changes.
        ensures err { IfErr result (λ refusal. (apply (state self.old) event ≡ Err refusal)
            ⊎ ((refusal ≡ Refusal.NoMemory) × MayLackMemory (state self.old) event)) }
        ensures memory { IfErr result (MayRefuse self.old event) }
        ensures order { IfErr result (λ refusal.
            ComesAfterRoom (length (journal self.new).live) (capacity self.new) refusal) }
        ensures capacity { length (journal self.old).live + 1 ≤ capacity self.old
            → capacity self.new ≡ capacity self.old }
        ensures unchanged { OnErr result (KeepsItsSteps self.old self.new) }
    {
        if self.entries.live_len() == MOST_STEPS {
            return Err(Refusal::TooLong);
        }
        let live = self.entries.live_len();
        self.entries.make_room_for(live + 1)?;
        let entry = self.world.step(event)?;
        if replace_in_index(&mut self.index, &self.entries, live, from_ref(&entry)).is_err() {
            unstep(&mut self.world, &entry);
            return Err(Refusal::NoMemory);
        }
        self.entries.replace_after(live, from_ref(&entry));
        self.undone = 0;
        Ok((live as u64 + 1, entry))
    }

    /// Undoes the last live step. It takes no memory.
    ///
    /// # Errors
    ///
    /// `NothingToUndo(0)` if no step is live. Nothing has changed then.
    pub fn undo(&mut self) -> Result<(), Refusal>
        ensures state { AnswersAs (back (state self.old) 1) result self.old self.new }
        ensures entries { OnOk result (IsMovedBack 1 (journal self.old) (journal self.new)) }
        ensures succeeds { 1 ≤ length (journal self.old).live → IsOk result }
        ensures along { GoesAlongTrack self.old self.new }
    {
        if self.entries.live_len() == 0 {
            return Err(Refusal::NothingToUndo(0));
        }
        self.undo_last(1);
        Ok(())
    }

    /// Undoes the `k`-th live step alone, counted from 1, if no later live step depends on it. The
    /// step becomes the front of the undone ones, and all other steps stay as they are. The call
    /// takes no memory and makes no step again. A few look-ups find the step's first dependant. If
    /// there is none, the call goes once over the index of dependants, in which later steps move.
    ///
    /// # Errors
    ///
    /// `NoSuchStep`, with the number of live steps, if `k` is 0 or above that number; `Depended`,
    /// with the number of the first live step that depends on the `k`-th, if there is one. Nothing
    /// has changed then.
    pub fn undo_at(&mut self, k: u64) -> Result<(), Refusal>
        ensures state { AnswersAs (undo_at (state self.old) k) result self.old self.new }
        ensures entries { OnOk result (IsUndoneAlone k (journal self.old) (journal self.new)) }
        ensures run { OnOk result (IsRunWithout k (journal self.old) (journal self.new)) }
        ensures answer { result ≡ undo_at_answer (journal self.old) k }
        ensures capacity { capacity self.new ≡ capacity self.old }
    {
        let len = self.len();
        if len < k || k == 0 {
            return Err(Refusal::NoSuchStep(len));
        }
        if let Some(dependant) = self.first_dependant(k) {
            return Err(Refusal::Depended(dependant));
        }
        self.undo_alone(k);
        Ok(())
    }

    /// Undoes the `k`-th live step, counted from 1, and just the later ones that depend on it,
    /// directly or through others. In their order they become the front of the undone steps, and
    /// all other steps stay as they are. The call takes no memory and makes no step again.
    ///
    /// If a later step depends on the `k`-th, the call goes once over the later live steps, and a
    /// few look-ups decide for each whether it depends on a step that is undone. Then it puts all
    /// later entries into the index of dependants again.
    ///
    /// # Errors
    ///
    /// `NoSuchStep`, with the number of live steps, if `k` is 0 or above that number. Nothing has
    /// changed then.
    pub fn roll(&mut self, k: u64) -> Result<(), Refusal>
        ensures state { AnswersAs (roll (state self.old) k) result self.old self.new }
        ensures entries { OnOk result (IsRolledBack k (journal self.old) (journal self.new)) }
        ensures run { OnOk result (IsRunWithoutClosure k (journal self.old) (journal self.new)) }
        ensures answer { result ≡ roll_answer (journal self.old) k }
        ensures capacity { capacity self.new ≡ capacity self.old }
    {
        let len = self.len();
        if len < k || k == 0 {
            return Err(Refusal::NoSuchStep(len));
        }
        self.roll_back(k);
        Ok(())
    }

    /// Undoes the last `n` live steps, all or none. It takes no memory, and time that grows with
    /// `n` alone.
    ///
    /// # Errors
    ///
    /// `NothingToUndo`, with the number of live steps, if fewer than `n` steps are live. Nothing
    /// has changed then.
    pub fn back(&mut self, n: u64) -> Result<(), Refusal>
        ensures state { AnswersAs (back (state self.old) n) result self.old self.new }
        ensures entries { OnOk result (IsMovedBack n (journal self.old) (journal self.new)) }
        ensures run { OnOk result (IsRunWithoutLast n (journal self.old) (journal self.new)) }
        ensures succeeds { n ≤ length (journal self.old).live → IsOk result }
        ensures along { GoesAlongTrack self.old self.new }
    {
        let len = self.len();
        if n > len {
            return Err(Refusal::NothingToUndo(len));
        }
        self.undo_last(n);
        Ok(())
    }

    /// Redoes the step that was undone last, which leaves the same entry again. It takes no memory.
    ///
    /// # Errors
    ///
    /// `NothingToRedo` if no step is undone. Nothing has changed then.
    pub fn redo(&mut self) -> Result<(), Refusal>
        ensures state { AnswersAs (forward (state self.old) 1) result self.old self.new }
        ensures entries { OnOk result (IsMovedForward 1 (journal self.old) (journal self.new)) }
        ensures along { GoesAlongTrack self.old self.new }
    {
        if self.undone_len() == 0 {
            return Err(Refusal::NothingToRedo);
        }
        self.redo_front(1);
        Ok(())
    }

    /// Redoes the `n` steps that were undone last, all or none. It takes no memory, and time that
    /// grows with `n` alone.
    ///
    /// # Errors
    ///
    /// `NothingToRedo` if fewer than `n` steps are undone. Nothing has changed then.
    pub fn forward(&mut self, n: u64) -> Result<(), Refusal>
        ensures state { AnswersAs (forward (state self.old) n) result self.old self.new }
        ensures entries { OnOk result (IsMovedForward n (journal self.old) (journal self.new)) }
        ensures along { GoesAlongTrack self.old self.new }
    {
        if n > self.undone_len() {
            return Err(Refusal::NothingToRedo);
        }
        self.redo_front(n);
        Ok(())
    }

    /// Keeps the first `n` live steps, undoes the others, and makes the steps of the given entries
    /// again, which become the last live ones. At least `n` steps must be live. The entries of the
    /// kept steps followed by the given ones must be those of a run from the start, and at most
    /// `MOST_STEPS`. All steps ahead are discarded, undone or not. Room for the entries, for the
    /// makings among them and in the index of dependants is asked for before the first undo.
    ///
    /// # Errors
    ///
    /// `NoMemory` if memory is refused, which is asked for only if room is missing once the other
    /// steps are undone and all steps ahead are removed from the index, and never if no entry is
    /// given. The steps and the world are then as before.
    pub fn switch(&mut self, n: u64, entries: &[Entry]) -> Result<(), Refusal>
        requires within { n ≤ length (journal self.old).live }
        requires few { n + length entries.now ≤ MOST_STEPS }
        requires run { IsRunFrom (journal self.old).start
            (take n (journal self.old).live ++ entries.now) }
        ensures ok { OnOk result (state self.new ≡ switch (state self.old) n (events entries.now)) }
        ensures entries { OnOk result (IsSwitched n entries.now (journal self.old)
            (journal self.new)) }
        ensures err { IfErr result (λ refusal. (refusal ≡ Refusal.NoMemory)
            × LacksRoomToSwitch n (journal self.old) (ahead self.old) entries.now
            (capacity self.old) (room self.old) (index self.old)) }
        ensures unchanged { OnErr result (KeepsItsSteps self.old self.new) }
        ensures succeeds { entries.now ≡ [] → IsOk result }
        ensures capacity { n + length entries.now ≤ capacity self.old
            → capacity self.new ≡ capacity self.old }
    {
        self.make_room_to_switch(n, entries)?;
        self.replace_steps_after(n as usize, entries)
    }

    /// Goes along the session's track, which is the live steps with those ahead of them: the
    /// track's first `n` steps become the live ones. No step counts as undone afterwards, so `redo`
    /// finds none. The track must have at least `n` steps, and stays as it is. The call copies no
    /// entry and takes no memory, and its time grows only with the number of steps that it undoes
    /// or makes again.
    pub fn go_along_track(&mut self, n: u64)
        requires within { n ≤ length (track self.old) }
        ensures state { state self.new ≡ record {
          start = (state self.old).start;
          live = take n (track self.old);
          undone = [];
        } }
        ensures along { GoesAlongTrack self.old self.new }
    {
        let len = self.len();
        if n > len {
            self.redo_ahead((n - len) as usize);
        } else {
            self.undo_last(len - n);
            self.undone = 0;
        }
    }
}
