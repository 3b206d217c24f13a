//! Undoing steps in the middle of the live ones: a step on which no later one depends, or a step
//! together with all that depend on it.

ghost use Rattle.std.specs.Prelude.{◌≡◌, ◌≤◌, length, None};
ghost use Rattle.rd_step.specs.Prelude.{first_dependant};
ghost use Rattle.rd_journal.specs.Moves.{IsUndoneAlone, IsRolledBack};

use super::super::indexing::{cut_index, fill_index};
use super::Session;
use rd_inverse::unstep;

impl<const R: usize> Session<R> {
    ghost use Rattle.rd_journal.specs.Sessions.{journal, capacity};

    /// Undoes the `k`-th live step alone, counted from 1, by the old record and the old content in
    /// its entry. The step becomes the front of the undone ones. There must be such a step, and no
    /// later live step may depend on it.
    pub(super) fn undo_alone(&mut self, k: u64)
        requires some { 1 ≤ k }
        requires position { k ≤ length (journal self.old).live }
        requires free { first_dependant (journal self.old).live k ≡ None }
        ensures entries { IsUndoneAlone k (journal self.old) (journal self.new) }
        ensures start { (journal self.new).start ≡ (journal self.old).start }
        ensures capacity { capacity self.new ≡ capacity self.old }
    {
        unstep(&mut self.world, self.entries.live_at(k as usize - 1));
        self.index.move_to(k, self.entries.live_len() as u64);
        self.entries.make_next_ahead(k as usize);
        self.undone += 1;
    }

    /// Undoes the `k`-th live step, counted from 1, and all later ones that depend on it, directly
    /// or through others. In their order they become the front of the undone steps. If no later
    /// live step depends on the `k`-th, it is undone alone. There must be a `k`-th live step.
    pub(super) fn roll_back(&mut self, k: u64)
        requires some { 1 ≤ k }
        requires position { k ≤ length (journal self.old).live }
        ensures entries { IsRolledBack k (journal self.old) (journal self.new) }
        ensures start { (journal self.new).start ≡ (journal self.old).start }
        ensures capacity { capacity self.new ≡ capacity self.old }
    {
        match self.first_dependant(k) {
            None => self.undo_alone(k),
            Some(_) => self.undo_closure(k),
        }
    }

    /// Undoes the `k`-th live step, counted from 1, and all later ones that depend on it, directly
    /// or through others. In their order they become the front of the undone steps. There must be a
    /// `k`-th live step. The entries of these steps are first moved behind the other live ones,
    /// none of which depends on them. While they are gathered, the index is that of the entries
    /// before the `k`-th and of those gathered so far, so it shows whether the next one depends on
    /// one of these. Then all entries from the `k`-th position on are put into the index again, in
    /// their new order.
    fn undo_closure(&mut self, k: u64)
        requires some { 1 ≤ k }
        requires position { k ≤ length (journal self.old).live }
        ensures entries { IsRolledBack k (journal self.old) (journal self.new) }
        ensures start { (journal self.new).start ≡ (journal self.old).start }
        ensures capacity { capacity self.new ≡ capacity self.old }
    {
        let before = k as usize - 1;
        cut_index(&mut self.index, &self.entries, before);
        let count = self.entries.gather_closure(k as usize, &mut self.index);
        self.index.truncate(before as u64);
        fill_index(&mut self.index, &self.entries);
        self.undo_last(count as u64);
    }
}
