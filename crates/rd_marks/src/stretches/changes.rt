//! Adding entries to the stretches, and removing entries that no node needs.

ghost use Rattle.std.specs.Prelude.{◌≡◌, ◌↔◌, ◌<◌, ◌≤◌, ◌+◌, ◌++◌, suc, take, length, vec_capacity, IsTrue, OnOk, OnErr, IfOk, IsOk};
ghost use Rattle.rd_step.specs.Prelude.{MOST_STEPS};
ghost use Rattle.rd_step.specs.Run.{events};

use super::{Node, Stretch, Stretches};
use rd_journal::EntryList;
use rd_step::Entry;
use std::alloc::{AllocError, Global};

/// How a change renumbered the stretches.
#[derive(Clone, Copy)]
pub(crate) enum Shift {
    /// Each stretch kept its number.
    Same,
    /// A stretch was inserted with this number. The numbers of the stretches from there on grew by
    /// 1.
    Up(usize),
    /// The stretch of this number was removed. The numbers of the stretches after it fell by 1.
    Down(usize),
}

impl Shift {
    ghost use Rattle.rd_marks.specs.Changes.{shifted, CanShiftUp};

    /// Returns the node that has the same entries after the stretches were renumbered. A node with
    /// entries must have a stretch number below 2^64 - 1. If a stretch was removed, the node must
    /// have none of this stretch's own entries.
    pub(crate) fn shifted(self, node: Node) -> Node
        requires { CanShiftUp node }
        ensures { result ≡ shifted self node }
    {
        match self {
            Shift::Same => node,
            Shift::Up(i) => node.after_insertion(i),
            Shift::Down(i) => node.after_removal(i),
        }
    }
}

impl Node {
    ghost use Rattle.rd_marks.specs.Changes.{after_insertion, after_removal, CanShiftUp};

    /// Returns the node that has the same entries after a stretch was inserted with number `i`. A
    /// node without entries stays as it is, and one with entries must have a stretch number below
    /// 2^64 - 1.
    fn after_insertion(self, i: usize) -> Node
        requires { CanShiftUp self }
        ensures { result ≡ after_insertion i self }
    {
        if self.number == 0 || self.stretch < i {
            return self;
        }
        Node {
            stretch: self.stretch + 1,
            number: self.number,
        }
    }

    /// Returns the node that has the same entries after stretch `i` was removed. The node must have
    /// none of this stretch's own entries.
    fn after_removal(self, i: usize) -> Node
        ensures { result ≡ after_removal i self }
    {
        if self.stretch < i {
            return self;
        }
        Node {
            stretch: self.stretch.saturating_sub(1),
            number: self.number,
        }
    }
}

/// Where the added entries are, and how the stretches were renumbered.
#[derive(Clone, Copy)]
pub(crate) struct Grown {
    /// The node of the old entries with the added ones after them.
    pub(crate) node: Node,
    /// How the stretches were renumbered.
    pub(crate) shift: Shift,
}

impl Stretches {
    ghost use Rattle.rd_marks.specs.Stretches.{list_before, shared_at, entries_at, IsWithin, IsEnd, AgreesFor, IsDeepest};
    ghost use Rattle.rd_marks.specs.Changes.{IsGrown, IsShrunk, KeepsEntries};

    /// Inserts the live entries that come after those of node `at`: at the end of its stretch if
    /// `at` has all entries of the stretch's list, otherwise in a new stretch. At most `MOST_STEPS`
    /// entries may be live. The stretches must have the entries of `at`, whose events must begin
    /// the live ones, and no list may begin with one live event more. Returns the node of the
    /// entries of `at` with the inserted ones after them, and how the stretches were renumbered.
    ///
    /// # Errors
    ///
    /// `AllocError` if memory was refused. All nodes keep their entries then. This never happens if
    /// there is nothing to insert.
    pub(crate) fn grow(
        &mut self,
        alloc: Global,
        at: Node,
        live: &EntryList,
    ) -> Result<Grown, AllocError>
        requires within { IsWithin self.old.list.items at }
        requires few { length live.now ≤ MOST_STEPS }
        requires agrees { AgreesFor self.old.list.items at.stretch at.number (events live.now) }
        requires deepest { IsDeepest self.old.list.items at.number (events live.now) }
        ensures ok { IfOk result
            (λ grown. IsGrown self.old.list.items self.new.list.items at live.now grown) }
        ensures err { OnErr result (KeepsEntries self.old.list.items self.new.list.items) }
        ensures succeeds { at.number ≡ length live.now → IsOk result }
    {
        if at.number == live.len() {
            return Ok(Grown {
                node: at,
                shift: Shift::Same,
            });
        }
        if self.is_end(at) {
            self.extend(at, live)
        } else {
            self.branch_off(alloc, at, live)
        }
    }

    /// Returns whether a node has all entries of its stretch's list. Returns false if there is no
    /// such stretch.
    #[tactic(auto, using(crate::proofs::Reading::stretch_at, crate::proofs::StretchLists::total))]
    fn is_end(&self, at: Node) -> bool
        ensures { IsTrue result ↔ IsEnd self.now.list.items at }
    {
        match self.list.get(at.stretch) {
            None => false,
            Some(stretch) => stretch.shared + stretch.entries.len() == at.number,
        }
    }

    /// Appends the live entries that come after those of node `at` to its stretch, whose list must
    /// end there. There must be such entries. The other preconditions are those of `grow`. Returns
    /// the node of the longer list, and that no stretch was renumbered.
    ///
    /// # Errors
    ///
    /// `AllocError` if memory was refused. All nodes keep their entries then.
    fn extend(&mut self, at: Node, live: &EntryList) -> Result<Grown, AllocError>
        requires end { IsEnd self.old.list.items at }
        requires more { at.number < length live.now }
        requires few { length live.now ≤ MOST_STEPS }
        requires agrees { AgreesFor self.old.list.items at.stretch at.number (events live.now) }
        requires deepest { IsDeepest self.old.list.items at.number (events live.now) }
        ensures ok { IfOk result
            (λ grown. IsGrown self.old.list.items self.new.list.items at live.now grown) }
        ensures err { OnErr result (KeepsEntries self.old.list.items self.new.list.items) }
    {
        let rest = live.after(at.number);
        append(&mut self.list[at.stretch].entries, &rest)?;
        Ok(Grown {
            node: Node {
                stretch: at.stretch,
                number: live.len(),
            },
            shift: Shift::Same,
        })
    }

    /// Puts the live entries that come after those of node `at` into a new stretch, which shares
    /// the entries of `at`. There must be such entries. The other preconditions are those of
    /// `grow`. Returns the node of the new stretch's list, and how the stretches were renumbered.
    ///
    /// # Errors
    ///
    /// `AllocError` if memory was refused. All nodes keep their entries then.
    fn branch_off(&mut self, alloc: Global, at: Node, live: &EntryList) -> Result<Grown, AllocError>
        requires within { IsWithin self.old.list.items at }
        requires more { at.number < length live.now }
        requires few { length live.now ≤ MOST_STEPS }
        requires agrees { AgreesFor self.old.list.items at.stretch at.number (events live.now) }
        requires deepest { IsDeepest self.old.list.items at.number (events live.now) }
        ensures ok { IfOk result
            (λ grown. IsGrown self.old.list.items self.new.list.items at live.now grown) }
        ensures err { OnErr result (KeepsEntries self.old.list.items self.new.list.items) }
    {
        let i = self.insertion_index(at);
        self.list.reserve(1)?;
        let mut entries = Vec::new(alloc);
        append(&mut entries, &live.after(at.number))?;
        let stretch = Stretch {
            shared: at.number,
            entries,
        };
        match self.list.insert(i, stretch) {
            Err(_) => unreachable!(),
            Ok(()) => Ok(Grown {
                node: Node {
                    stretch: i,
                    number: live.len(),
                },
                shift: Shift::Up(i),
            }),
        }
    }

    /// Returns the number with which a stretch that shares the entries of node `at` can be
    /// inserted. It is the number of the first later stretch that shares at most as many entries as
    /// `at` has. If there is none, it is the count of all stretches. The stretches must have the
    /// entries of `at`.
    fn insertion_index(&self, at: Node) -> usize
        requires { IsWithin self.now.list.items at }
        ensures there { result ≤ length self.now.list.items }
        ensures first { 0 < length self.now.list.items → 0 < result }
        ensures shares { shared_at self.now.list.items result ≤ at.number }
        ensures within { at.number ≤ length (list_before self.now.list.items result) }
        ensures same { take at.number (list_before self.now.list.items result)
            ≡ entries_at self.now.list.items at }
    {
        for i in at.stretch..self.list.len() {
            if self.shared_count(i) <= at.number && i > at.stretch {
                return i;
            }
        }
        self.list.len()
    }

    /// Removes the entries after the first `n` from the list of stretch `i`, and gives their room
    /// back. There must be a stretch `i`, and the next one must share none of them. The whole
    /// stretch goes if none of its own entries is left. Returns how the stretches were renumbered.
    #[tactic(auto, using(crate::proofs::Reading::stretch_at, crate::proofs::StretchUses::cut_shrinks))]
    pub(crate) fn shrink(&mut self, i: usize, n: usize) -> Shift
        requires there { i < length self.old.list.items }
        requires next { shared_at self.old.list.items (suc i) ≤ n }
        ensures { IsShrunk self.old.list.items self.new.list.items i n result }
    {
        let shared = self.shared_count(i);
        if n <= shared {
            let _gone = self.list.remove(i);
            return Shift::Down(i);
        }
        truncate_and_shrink(&mut self.list[i].entries, n - shared);
        Shift::Same
    }
}

/// Appends the entries `more` to `entries`.
///
/// # Errors
///
/// `AllocError` if memory was refused. The entries are then as before. This never happens if there
/// is room already.
fn append(entries: &mut Vec<Entry>, more: &EntryList) -> Result<(), AllocError>
    ensures ok { OnOk result (entries.new.items ≡ entries.old.items ++ more.now) }
    ensures err { OnErr result (entries.new.items ≡ entries.old.items) }
    ensures succeeds { length entries.old.items + length more.now ≤ vec_capacity entries.old
        → IsOk result }
{
    entries.reserve(more.len())?;
    for index in 0..more.len() {
        entries.push_reserved(*more.at(index));
    }
    Ok(())
}

/// Keeps the first `n` entries, and gives back the room of the others. If there are at most `n`,
/// nothing changes.
fn truncate_and_shrink(entries: &mut Vec<Entry>, n: usize)
    ensures { entries.new.items ≡ take n entries.old.items }
{
    if n < entries.len() {
        entries.truncate(n);
        entries.shrink_to_fit();
    }
}
