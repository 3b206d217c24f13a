//! Going to a bookmark.

ghost use Rattle.std.specs.Prelude.{◌≡◌, ◌⊎◌, [], IsOk, OnOk, IfErr, OnErr};
ghost use Rattle.rd_equivalence.specs.Beginnings.{Begins};
ghost use Rattle.rd_journal.specs.Journal.{events};
ghost use Rattle.rd_journal.specs.Sessions.{state, track, journal, LacksRoomForEvents};
ghost use Rattle.rd_marks.specs.BookmarksFields.{AreEntriesOfRun};
ghost use Rattle.rd_marks.specs.Stretches.{entries_at, IsWithin, NeedsCopy};

use super::super::stretches::Node;
use super::Bookmarks;
use rd_cell::Refusal;
use rd_journal::Session;
use std::alloc::Global;

impl Bookmarks {
    ghost use Rattle.rd_marks.specs.Bookmarks.{named_entries_in, stretches_in, here_entries};

    /// Makes the steps of a node the live ones, and leaves no undone step. The stretches must have
    /// the node's entries, at most `MOST_STEPS`, which must be those of a run from the session's
    /// start. The events of `here` must begin the session's track. If the session's track is known
    /// to have these steps, the session moves along it. Otherwise it keeps the live steps with
    /// which both lists begin, and makes the rest of the node's steps again.
    ///
    /// # Errors
    ///
    /// `NoMemory` if memory was refused for the steps that are made again, or for a copy of their
    /// entries if these lie in more than one stretch. A refusal changes nothing. It never happens if
    /// the live steps begin with the node's, or if the session moves along.
    #[tactic(auto, using(rd_step::proofs::PassedUp::error_passed_up))]
    pub(crate) fn go_to<const R: usize>(
        &mut self,
        alloc: Global,
        session: &mut Session<R>,
        node: Node,
    ) -> Result<(), Refusal>
        requires within { IsWithin (stretches_in self.old) node }
        requires run { AreEntriesOfRun (state session.old).start
            (entries_at (stretches_in self.old) node) }
        requires stands { Begins (events (here_entries self.old)) (track session.old) }
        ensures ok { OnOk result (state session.new
            ≡ record {
              start = (state session.old).start;
              live = events (entries_at (stretches_in self.old) node);
              undone = [];
            }) }
        ensures lists { named_entries_in self.new ≡ named_entries_in self.old }
        ensures stands { Begins (events (here_entries self.new)) (track session.new) }
        ensures err { IfErr result (λ refusal. (refusal ≡ Refusal.NoMemory)
            × (LacksRoomForEvents session.old (events (entries_at (stretches_in self.old) node))
            ⊎ NeedsCopy (stretches_in self.old) node (state session.old).live)) }
        ensures succeeds { Begins (events (entries_at (stretches_in self.old) node))
            (state session.old).live → IsOk result }
        ensures along { Begins (events (entries_at (stretches_in self.old) node))
            (events (here_entries self.old)) → IsOk result }
        ensures unchanged { OnErr result (journal session.new ≡ journal session.old) }
    {
        if self.stretches.common_len(self.here, node) == node.number {
            session.go_along_track(node.number as u64);
            return Ok(());
        }
        self.switch_to(alloc, session, node)?;
        self.here = node;
        Ok(())
    }

    /// Makes the steps of a node the live ones, and leaves no undone step. It keeps the live steps
    /// with which both lists begin, and makes the rest of the node's steps again. The stretches
    /// must have the node's entries, at most `MOST_STEPS`, which must be those of a run from the
    /// session's start. The search for the kept steps starts at `here`, whose events must begin the
    /// session's track.
    ///
    /// # Errors
    ///
    /// `NoMemory` if memory was refused for the steps that are made again, or for a copy of their
    /// entries if these lie in more than one stretch. Nothing has changed then. This never happens
    /// if the live steps begin with the node's.
    fn switch_to<const R: usize>(
        &self,
        alloc: Global,
        session: &mut Session<R>,
        node: Node,
    ) -> Result<(), Refusal>
        requires within { IsWithin (stretches_in self.now) node }
        requires run { AreEntriesOfRun (state session.old).start
            (entries_at (stretches_in self.now) node) }
        requires stands { Begins (events (here_entries self.now)) (track session.old) }
        ensures ok { OnOk result (state session.new
            ≡ record {
              start = (state session.old).start;
              live = events (entries_at (stretches_in self.now) node);
              undone = [];
            }) }
        ensures err { IfErr result (λ refusal. (refusal ≡ Refusal.NoMemory)
            × (LacksRoomForEvents session.old (events (entries_at (stretches_in self.now) node))
            ⊎ NeedsCopy (stretches_in self.now) node (state session.old).live)) }
        ensures succeeds { Begins (events (entries_at (stretches_in self.now) node))
            (state session.old).live → IsOk result }
        ensures unchanged { OnErr result (journal session.new ≡ journal session.old) }
        ensures track { OnErr result (track session.new ≡ track session.old) }
    {
        let live = session.live();
        let beginning = self
            .stretches
            .deepest_agreeing_node(self.here.truncated(live.len()), &live);
        let common = self.stretches.common_len(beginning, node);
        match self.stretches.entries_after(alloc, node, common) {
            Err(_) => Err(Refusal::NoMemory),
            Ok(entries) => session.switch(common as u64, &entries),
        }
    }
}
