//! Reading a node: one event, all events, or the entries after the first `n`.

ghost use Rattle.std.specs.Prelude.{◌≡◌, ◌<◌, ◌≤◌, ◌-◌, Some, drop, length, slice_get, vec_capacity, IsOk, IsSome, IfOk, IfSome, OnErr};
ghost use Rattle.std.specs.Cow.{cow_slice_items};
ghost use Rattle.rd_step.specs.Run.{events};
ghost use Rattle.rd_step.specs.Lists.{numbered};

use super::{Node, Stretches};
use rd_step::{Entry, Event};
use std::alloc::{AllocError, Global};
use std::borrow::CowSlice;

impl Stretches {
    ghost use Rattle.rd_marks.specs.Stretches.{entries_at, shared_at, IsWithin, IsCanonical, AreInPieces};

    /// Returns the event of this number, counted from 1, among the entries of a node. `None` if the
    /// node has no such entry. The stretches must have the node's entries.
    pub(crate) fn event_at(&self, of: Node, n: u64) -> Option<Event>
        requires { IsWithin self.now.list.items of }
        ensures { result ≡ numbered (events (entries_at self.now.list.items of)) n }
    {
        if n == 0 || n > of.number as u64 {
            return None;
        }
        Some(
            self.last_entry(self.canonical_node(of.truncated(n as usize)))
                .event,
        )
    }

    /// Returns the last entry of a node. There must be one, which the node's stretch keeps itself.
    /// The stretches must have the node's entries.
    #[tactic(auto, using(crate::proofs::Reading::last_steps))]
    fn last_entry(&self, of: Node) -> &Entry
        requires within { IsWithin self.now.list.items of }
        requires own { IsCanonical self.now.list.items of }
        requires some { 0 < of.number }
        ensures { slice_get (entries_at self.now.list.items of) (of.number - 1) ≡ Some result.now }
    {
        let stretch = &self.list[of.stretch];
        &stretch.entries[of.number - stretch.shared - 1]
    }

    /// Returns the entries of a node after the first `n`: lent if they all lie in one stretch,
    /// otherwise copied. The node must have at least `n`. The stretches must have the node's
    /// entries.
    ///
    /// # Errors
    ///
    /// `AllocError` if memory for a copy was refused. This never happens if there are no such
    /// entries, or if they all lie in one stretch.
    pub(crate) fn entries_after(
        &self,
        alloc: Global,
        of: Node,
        n: usize,
    ) -> Result<CowSlice<'_, Entry>, AllocError>
        requires present { IsWithin self.now.list.items of }
        requires within { n ≤ of.number }
        ensures ok { IfOk result (λ entries. cow_slice_items entries
            ≡ drop n (entries_at self.now.list.items of)) }
        ensures err { OnErr result (AreInPieces self.now.list.items of n) }
        ensures succeeds { of.number ≡ n → IsOk result }
    {
        let own = self.canonical_node(of);
        if let Some(entries) = self.slice_after(own, n) {
            return Ok(CowSlice::Borrowed(entries));
        }
        Ok(CowSlice::Owned(self.copy_entries_after(alloc, own, n)?))
    }

    /// Returns the entries of a node after the first `n`, or `None` if the node's stretch shares
    /// one of them or there is no such stretch. The stretches must have the node's entries, which
    /// must be at least `n`. The node's stretch must keep the last of them itself, unless it is the
    /// first stretch.
    #[tactic(auto, using(crate::proofs::Reading::stretch_at, crate::proofs::Reading::own_entries_after, crate::proofs::StretchLists::total, crate::proofs::Starting::stretch_within))]
    fn slice_after(&self, of: Node, n: usize) -> Option<&[Entry]>
        requires present { IsWithin self.now.list.items of }
        requires own { IsCanonical self.now.list.items of }
        requires within { n ≤ of.number }
        ensures lent { IfSome result (λ entries. entries.now
            ≡ drop n (entries_at self.now.list.items of)) }
        ensures found { n < of.number → shared_at self.now.list.items of.stretch ≤ n
            → IsSome result }
    {
        let stretch = self.list.get(of.stretch)?;
        if n < stretch.shared {
            return None;
        }
        Some(&stretch.entries[n - stretch.shared..of.number - stretch.shared])
    }

    /// Returns a copy of the entries of a node after the first `n`. The stretches must have the
    /// node's entries, which must be at least `n`.
    ///
    /// # Errors
    ///
    /// `AllocError` if memory for the copy was refused, which never happens if there is nothing to
    /// copy.
    #[tactic(auto, using(crate::proofs::Reading::without_last, crate::proofs::Reading::read_on))]
    fn copy_entries_after(
        &self,
        alloc: Global,
        of: Node,
        n: usize,
    ) -> Result<Vec<Entry>, AllocError>
        requires present { IsWithin self.now.list.items of }
        requires within { n ≤ of.number }
        ensures ok { IfOk result (λ entries. entries.items
            ≡ drop n (entries_at self.now.list.items of)) }
        ensures exact { IfOk result (λ entries. vec_capacity entries ≡ length entries.items) }
        ensures succeeds { of.number ≡ n → IsOk result }
    {
        let mut entries = Vec::with_capacity(alloc, of.number - n)?;
        let mut at = of;
        while at.number > n {
            at = self.canonical_node(at);
            entries.push_reserved(*self.last_entry(at));
            at.number -= 1;
        }
        entries.reverse();
        Ok(entries)
    }

    /// Returns the events of the entries of a node, in a list of their own. The stretches must have
    /// the node's entries.
    ///
    /// # Errors
    ///
    /// `AllocError` if memory was refused, which never happens if the node has no entries.
    pub(crate) fn events(&self, alloc: Global, of: Node) -> Result<Vec<Event>, AllocError>
        requires { IsWithin self.now.list.items of }
        ensures ok { IfOk result (λ list. list.items ≡ events (entries_at self.now.list.items of)) }
        ensures exact { IfOk result (λ list. vec_capacity list ≡ length list.items) }
        ensures succeeds { of.number ≡ 0 → IsOk result }
    {
        let entries = self.entries_after(alloc, of, 0)?;
        let mut list = Vec::with_capacity(alloc, entries.len())?;
        for i in 0..entries.len() {
            list.push_reserved(entries[i].event);
        }
        Ok(list)
    }
}
