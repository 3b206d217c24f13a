//! Undoing the last live steps, and redoing the next ones ahead, whether or not they were undone.

ghost use Rattle.std.specs.Prelude.{◌≡◌, ◌≤◌, length, take, Ok};
ghost use Rattle.rd_journal.specs.Entries.{ahead_entries};
ghost use Rattle.rd_journal.specs.Moves.{IsMovedBack, IsMovedForward, IsSwitched};
ghost use Rattle.rd_journal.specs.State.{back, forward};

use super::Session;
use super::stepping::{step_all_again, undo_after};

impl<const R: usize> Session<R> {
    ghost use Rattle.rd_journal.specs.Sessions.{journal, state, GoesAlongTrack};

    /// Undoes the last `n` live steps, the last one first, each by the old record and the old
    /// content in its entry. In their order they become the front of the undone steps. At least `n`
    /// steps must be live.
    pub(super) fn undo_last(&mut self, n: u64)
        requires enough { n ≤ length (journal self.old).live }
        ensures entries { IsMovedBack n (journal self.old) (journal self.new) }
        ensures state { back (state self.old) n ≡ Ok (state self.new) }
        ensures along { GoesAlongTrack self.old self.new }
    {
        let left = self.entries.live_len() - n as usize;
        undo_after(&mut self.world, &self.entries.live(), left);
        self.entries.move_border_back(n as usize);
        self.undone += n as usize;
    }

    /// Makes the `n` steps again that were undone last, one after another. At least `n` steps must
    /// be undone. Their entries are those of a run from the present world, so no step is refused,
    /// and each leaves the entry that it has.
    pub(super) fn redo_front(&mut self, n: u64)
        requires enough { n ≤ length (journal self.old).undone }
        ensures entries { IsMovedForward n (journal self.old) (journal self.new) }
        ensures state { forward (state self.old) n ≡ Ok (state self.new) }
        ensures along { GoesAlongTrack self.old self.new }
    {
        step_all_again(&mut self.world, &self.entries.first_ahead(n as usize));
        self.entries.move_border_forward(n as usize);
        self.undone -= n as usize;
    }

    /// Makes the next `n` steps ahead again, whether they were undone or left by going back along
    /// the track. No step counts as undone afterwards. At least `n` steps must be ahead.
    pub(super) fn redo_ahead(&mut self, n: usize)
        requires within { n ≤ length (ahead_entries self.old.entries) }
        ensures entries { IsSwitched (length (journal self.old).live)
            (take n (ahead_entries self.old.entries)) (journal self.old) (journal self.new) }
        ensures start { (journal self.new).start ≡ (journal self.old).start }
        ensures along { GoesAlongTrack self.old self.new }
    {
        self.undone = n;
        self.redo_front(n as u64);
    }
}
