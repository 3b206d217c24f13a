//! The bookmarks in the order in which they were set, each a name with the node of its entries. One
//! more node, `here`, shows how far their entries are known to agree with the session's track.

ghost use Rattle.std.specs.Prelude.{◌≡◌, ◌<◌, ◌≤◌, ◌++◌, [], ◌∷◌, None, map, length, slice_get, vec_capacity, is_some, option_map, IsOk, IfOk, IfSome, OnOk, OnErr};
ghost use Rattle.std.specs.List.{IsDistinct};
ghost use Rattle.std.specs.Map.{lookup, remove_entry};
ghost use Rattle.indexmap.specs.IndexMap.{spare};
ghost use Rattle.rd_equivalence.specs.Beginnings.{Begins, NeitherBegins};
ghost use Rattle.rd_equivalence.specs.Equivalence.{DecidesEquivalence};
ghost use Rattle.rd_journal.specs.Journal.{events};
ghost use Rattle.rd_journal.specs.Sessions.{state, track, journal};
ghost use Rattle.rd_step.specs.Lists.{numbered};
ghost use Rattle.rd_marks.specs.BookmarksFields.{IsKept};

mod going;
mod keeping;

use super::names::MarkName;
use super::stretches::{Node, Stretches};
use indexmap::IndexMap;
use keeping::{add_bookmark, here_after_growth, prune};
use rd_cell::Refusal;
use rd_cell::limits::MOST_MARKS;
use rd_equivalence::are_equivalent;
use rd_journal::Session;
use rd_step::Event;
use std::alloc::{AllocError, Global};

/// All bookmarks of a book.
#[derive(Drop)]
pub(crate) struct Bookmarks {
    /// The names in the order in which they were set, each with the node of its entries.
    names: IndexMap<MarkName, Node>,
    /// The entries of all bookmarks.
    stretches: Stretches,
    /// A node whose events begin the session's track: the live steps and those ahead of them.
    /// Setting a bookmark and going to one search from there, and not from the start.
    here: Node,
    ghost kept: { IsKept stretches.list.items names.entries here },
}

impl Bookmarks {
    ghost use Rattle.rd_marks.specs.Prefixes.{CountsPrefixes, NeedsNoEntry};
    ghost use Rattle.rd_marks.specs.Bookmarks.{named_entries_in, marks_of, stretches_in, here_entries};
    ghost use Rattle.rd_marks.specs.Stretches.{entries_at, entry_count, IsWithin};
    ghost use Rattle.rd_marks.specs.BookmarksFields.{AreRuns};
    ghost use Rattle.rd_marks.specs.Names.{mark_name_eq};

    /// Returns an empty list of bookmarks. It takes no memory.
    pub(crate) fn new(alloc: Global) -> Bookmarks
        ensures lists { named_entries_in result ≡ [] }
        ensures here { here_entries result ≡ [] }
    {
        Bookmarks {
            names: IndexMap::new(alloc),
            stretches: Stretches::new(alloc),
            here: Node::START,
        }
    }

    /// Returns the number of bookmarks, at most `MOST_MARKS`. Their names are all different.
    #[tactic(auto, using(crate::proofs::Putting::names_same))]
    pub(crate) fn len(&self) -> usize
        ensures count { result ≡ length (named_entries_in self.now) }
        ensures few { result ≤ MOST_MARKS }
        ensures unique { IsDistinct mark_name_eq (map (λ l. l.0) (named_entries_in self.now)) }
    {
        self.names.len()
    }

    /// Returns the number of entries that are kept for all bookmarks together. There is one for
    /// each different list of events, except the empty one, that begins some bookmark's events.
    #[tactic(auto, using(crate::proofs::Counting::counts, crate::proofs::Putting::count_fits))]
    pub(crate) fn kept_entry_count(&self) -> usize
        ensures counts { CountsPrefixes (marks_of (named_entries_in self.now)) result }
        ensures entries { result ≡ entry_count (stretches_in self.now) }
    {
        self.stretches.entry_count()
    }

    /// Returns the node of the entries of the bookmark of this name, or `None` if no bookmark has
    /// this name.
    pub(crate) fn find(&self, name: &MarkName) -> Option<Node>
        ensures found { option_map (entries_at (stretches_in self.now)) result
            ≡ lookup (mark_name_eq name.now) (named_entries_in self.now) }
        ensures within { IfSome result (IsWithin (stretches_in self.now)) }
    {
        match self.names.get(name) {
            None => None,
            Some(node) => Some(*node),
        }
    }

    /// Returns the name and the node of the bookmark at this index, counted from 0, or `None` if
    /// there is none.
    #[tactic(auto, using(crate::proofs::MarkLemmas::at_steps))]
    pub(crate) fn at(&self, index: usize) -> Option<(MarkName, Node)>
        ensures found { option_map (λ m. (m.0, entries_at (stretches_in self.now) m.1)) result
            ≡ slice_get (named_entries_in self.now) index }
        ensures within { IfSome result (λ m. IsWithin (stretches_in self.now) m.1) }
    {
        match self.names.get_index(index) {
            None => None,
            Some((name, node)) => Some((*name, *node)),
        }
    }

    /// Returns the event of this number, counted from 1, among the entries of a node. `None` if the
    /// node has no such entry. The stretches must have the node's entries.
    pub(crate) fn event_at(&self, of: Node, n: u64) -> Option<Event>
        requires { IsWithin (stretches_in self.now) of }
        ensures { result ≡ numbered (events (entries_at (stretches_in self.now) of)) n }
    {
        self.stretches.event_at(of, n)
    }

    /// Returns the events of the entries of a node, in a list of their own. The stretches must have
    /// the node's entries.
    ///
    /// # Errors
    ///
    /// `AllocError` if memory was refused, which never happens if the node has no entries.
    pub(crate) fn events(&self, alloc: Global, of: Node) -> Result<Vec<Event>, AllocError>
        requires { IsWithin (stretches_in self.now) of }
        ensures ok { IfOk result (λ list. list.items
            ≡ events (entries_at (stretches_in self.now) of)) }
        ensures exact { IfOk result (λ list. vec_capacity list ≡ length list.items) }
        ensures succeeds { of.number ≡ 0 → IsOk result }
    {
        self.stretches.events(alloc, of)
    }

    /// Sets a bookmark of this name, which none may have, at the live steps, as the last in the
    /// list. There must be fewer than `MOST_MARKS` bookmarks. The bookmarks must be at runs from
    /// the session's start, of at most `MOST_STEPS` steps each, and the events of `here` must begin
    /// the session's track. It adds only the entries that aren't kept yet, and asks for all memory
    /// before it adds the first.
    ///
    /// # Errors
    ///
    /// `AllocError` if memory for the added entries or for the name was refused. The bookmarks are
    /// then as before. This never happens if there is room for another name and all entries of the
    /// live steps are kept already.
    pub(crate) fn set<const R: usize>(
        &mut self,
        alloc: Global,
        session: &Session<R>,
        name: MarkName,
    ) -> Result<(), AllocError>
        requires new { lookup (mark_name_eq name) (named_entries_in self.old) ≡ None }
        requires few { length (named_entries_in self.old) < MOST_MARKS }
        requires runs { AreRuns (state session.now).start (named_entries_in self.old) }
        requires stands { Begins (events (here_entries self.old)) (track session.now) }
        ensures ok { OnOk result (named_entries_in self.new
            ≡ named_entries_in self.old ++ (name, (journal session.now).live) ∷ []) }
        ensures runs { AreRuns (state session.now).start (named_entries_in self.new) }
        ensures stands { Begins (events (here_entries self.new)) (track session.now) }
        ensures succeeds { 0 < spare self.old.names
            → NeedsNoEntry (marks_of (named_entries_in self.old)) (state session.now).live
            → IsOk result }
        ensures unchanged { OnErr result (named_entries_in self.new ≡ named_entries_in self.old) }
    {
        let live = session.live();
        let at = self
            .stretches
            .deepest_agreeing_node(self.here.truncated(live.len()), &live);
        self.names.reserve(1)?;
        let grown = self.stretches.grow(alloc, at, &live)?;
        add_bookmark(&mut self.names, name, grown);
        self.here = here_after_growth(self.here, live.len(), grown);
        Ok(())
    }

    /// Drops the bookmark of this name, if there is one, and removes the entries that no other
    /// bookmark needs. The others keep their order. Returns whether there was one. It takes no
    /// memory.
    pub(crate) fn remove(&mut self, name: &MarkName) -> bool
        ensures found { result
            ≡ is_some (lookup (mark_name_eq name.now) (named_entries_in self.old)) }
        ensures lists { named_entries_in self.new ≡ remove_entry (mark_name_eq name.now)
            (named_entries_in self.old) }
        ensures here { Begins (here_entries self.new) (here_entries self.old) }
        ensures room { spare self.old.names ≤ spare self.new.names }
    {
        match self.names.shift_remove(name) {
            None => false,
            Some(_) => {
                prune(&mut self.stretches, &mut self.names, &mut self.here);
                true
            }
        }
    }

    /// Returns whether the events of two nodes are causally equivalent. The stretches must have the
    /// entries of both. The answer is right if they are those of runs from one start. The call
    /// skips the entries with which both begin.
    ///
    /// # Errors
    ///
    /// `AllocError` if memory for the comparison was refused, which never happens if one list
    /// begins the other.
    pub(crate) fn are_nodes_equivalent(
        &self,
        alloc: Global,
        one: Node,
        other: Node,
    ) -> Result<bool, AllocError>
        requires one { IsWithin (stretches_in self.now) one }
        requires other { IsWithin (stretches_in self.now) other }
        ensures answer { IfOk result (DecidesEquivalence (entries_at (stretches_in self.now) one)
            (entries_at (stretches_in self.now) other)) }
        ensures memory { OnErr result (NeitherBegins
            (events (entries_at (stretches_in self.now) one))
            (events (entries_at (stretches_in self.now) other))) }
    {
        let shared = self.stretches.common_len(one, other);
        if shared == one.number || shared == other.number {
            return Ok(one.number == other.number);
        }
        let ones = self.stretches.entries_after(alloc, one, shared)?;
        let others = self.stretches.entries_after(alloc, other, shared)?;
        are_equivalent(alloc, &ones, &others)
    }

    /// Records that steps of the session's track after the first `n` may have changed, so that
    /// later searches start at the `n`-th step at the latest.
    pub(crate) fn record_change_after(&mut self, n: usize)
        ensures lists { named_entries_in self.new ≡ named_entries_in self.old }
        ensures begins { Begins (here_entries self.new) (here_entries self.old) }
        ensures short { length (here_entries self.new) ≤ n }
    {
        self.here = self.here.truncated(n);
    }
}
