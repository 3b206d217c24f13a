//! The entries of a session. They are in a slab: an entry stays where it was put, and is known by
//! its number there, from 0. A list of these numbers gives the order. First are the live steps,
//! then the steps ahead of them, the next one in front, and last the discarded entries. The steps
//! ahead run on from the live ones and can be made again as they are. They are the undone steps,
//! and after these the steps that the session went back over.
//!
//! Undoing the last step, or redoing one, only moves the border between the live steps and those
//! ahead. Undoing a step in the middle first moves its number behind the other live ones. So an
//! undo needs no more room than the step that it undoes has made.

#![tactic(auto, using(crate::proofs::EntryLemmas::lengths), unfolding(crate::specs::Entries::all_entries))]

ghost use Rattle.std.specs.Prelude.{◌≡◌, ◌++◌, ◌+◌, ◌-◌, ◌<◌, ◌≤◌, ◌∷◌, [], length, get_or, take, drop, vec_capacity, OnOk, OnErr};
ghost use Rattle.rd_step.specs.Prelude.{without, closure_entries, without_closure, MOST_STEPS};
ghost use Rattle.rd_depend.specs.Index.{IsIndexOf, HasRoomFor};
ghost use Rattle.rd_depend.specs.Moved.{moved_to};
ghost use Rattle.rd_journal.specs.Numbers.{only_numbered, IsOrder};

mod gathering;
mod slab;

use super::entry_list::{EntryList, entry_at};
use gathering::move_closure_last;
use rd_depend::DependIndex;
use rd_step::Entry;
use slab::{make_room, move_to, put_at};
use std::alloc::{AllocError, Global};

/// The entries of the live steps, in their order, and of the steps ahead of them, the next one in
/// front.
#[derive(Drop)]
pub(crate) struct Entries {
    /// The slab: each entry where it was put, and discarded entries that are not yet written over.
    slab: Vec<Entry>,
    /// The numbers of the entries: first of the live ones, then of those ahead, then of the
    /// discarded ones.
    order: Vec<u32>,
    /// The numbers that a rollback gathers; empty at any other time. It has room for the numbers of
    /// all entries.
    gathered: Vec<u32>,
    /// The number of live entries.
    live: usize,
    /// The number of entries ahead of the live ones.
    ahead: usize,
    ghost order_of_all: { IsOrder (length slab.items) order.items },
    ghost within: { live + ahead ≤ length order.items },
    ghost none_gathered: { gathered.items ≡ [] },
    ghost room_to_gather: { length order.items ≤ vec_capacity gathered },
    ghost few: { live + ahead ≤ MOST_STEPS },
}

impl Entries {
    ghost use Rattle.rd_journal.specs.Entries.{all_entries, live_entries, ahead_entries, kept_entries, entries_capacity};

    /// Returns the entries of a session without steps. It takes no memory.
    pub(crate) fn new(alloc: Global) -> Entries
        ensures live { live_entries result ≡ [] }
        ensures ahead { ahead_entries result ≡ [] }
        ensures capacity { entries_capacity result ≡ 0 }
    {
        Entries {
            slab: Vec::new(alloc),
            order: Vec::new(alloc),
            gathered: Vec::new(alloc),
            live: 0,
            ahead: 0,
        }
    }

    /// Returns the entries of the live steps.
    pub(crate) fn live(&self) -> EntryList<'_>
        ensures { result ≡ live_entries self.now }
    {
        self.first_kept(self.live)
    }

    /// Returns the entries of the first `n` steps ahead. At least `n` steps must be ahead.
    pub(crate) fn first_ahead(&self, n: usize) -> EntryList<'_>
        requires within { n ≤ length (ahead_entries self.now) }
        ensures { result ≡ take n (ahead_entries self.now) }
    {
        self.first_kept(self.live + n).after(self.live)
    }

    /// Returns the first `n` of the live entries followed by those ahead. There must be at least
    /// `n` of both together.
    fn first_kept(&self, n: usize) -> EntryList<'_>
        requires within { n ≤ self.now.live + self.now.ahead }
        ensures { result ≡ take n (all_entries self.now) }
    {
        EntryList::new(&self.slab, &self.order[..n])
    }

    /// Returns the number of live steps.
    pub(crate) fn live_len(&self) -> usize
        ensures { result ≡ length (live_entries self.now) }
    {
        self.live
    }

    /// Returns the number of steps that are live or ahead.
    pub(crate) fn kept_len(&self) -> usize
        ensures { result ≡ length (kept_entries self.now) }
    {
        self.live + self.ahead
    }

    /// Returns the entry of the live step at this position, from 0, which must be below `live_len`.
    pub(crate) fn live_at(&self, position: usize) -> &Entry
        requires within { position < length (live_entries self.now) }
        ensures { result.now ≡ get_or (live_entries self.now) position result.now }
    {
        self.at(position)
    }

    /// Returns the entry at this position, from 0, in the list of the live entries followed by
    /// those ahead. The position must be below `kept_len`.
    pub(crate) fn kept_at(&self, position: usize) -> &Entry
        requires within { position < length (kept_entries self.now) }
        ensures { result.now ≡ get_or (kept_entries self.now) position result.now }
    {
        self.at(position)
    }

    /// Returns the entry of the step ahead at this position, from 0. There must be such a step.
    pub(crate) fn ahead_at(&self, position: usize) -> &Entry
        requires within { position < length (ahead_entries self.now) }
        ensures { result.now ≡ get_or (ahead_entries self.now) position result.now }
    {
        self.at(self.live + position)
    }

    /// Returns the entry whose number is at index `position` of the order. The index must be below
    /// the order's length.
    fn at(&self, position: usize) -> &Entry
        requires { position < length (all_entries self.now) }
        ensures { result.now ≡ get_or (all_entries self.now) position result.now }
    {
        entry_at(&self.slab, &self.order, position)
    }

    /// Moves the border back: the last `n` live entries become the next ones ahead. At least `n`
    /// must be live.
    pub(crate) fn move_border_back(&mut self, n: usize)
        requires enough { n ≤ length (live_entries self.old) }
        ensures live { live_entries self.new ≡ take (length (live_entries self.old) - n)
            (live_entries self.old) }
        ensures ahead { ahead_entries self.new
            ≡ drop (length (live_entries self.old) - n) (live_entries self.old)
            ++ ahead_entries self.old }
        ensures kept { kept_entries self.new ≡ kept_entries self.old }
        ensures capacity { entries_capacity self.new ≡ entries_capacity self.old }
    {
        self.live -= n;
        self.ahead += n;
    }

    /// Moves the border forward: the next `n` entries ahead become the last live ones. At least `n`
    /// must be ahead.
    pub(crate) fn move_border_forward(&mut self, n: usize)
        requires enough { n ≤ length (ahead_entries self.old) }
        ensures live { live_entries self.new ≡ live_entries self.old
            ++ take n (ahead_entries self.old) }
        ensures ahead { ahead_entries self.new ≡ drop n (ahead_entries self.old) }
        ensures kept { kept_entries self.new ≡ kept_entries self.old }
        ensures capacity { entries_capacity self.new ≡ entries_capacity self.old }
    {
        self.live += n;
        self.ahead -= n;
    }

    /// Makes the `k`-th live entry, counted from 1, the next one ahead. There must be such an
    /// entry. All others stay in their order.
    pub(crate) fn make_next_ahead(&mut self, k: usize)
        requires some { 1 ≤ k }
        requires position { k ≤ length (live_entries self.old) }
        ensures live { live_entries self.new ≡ without (live_entries self.old) k }
        ensures ahead { ahead_entries self.new ≡ only_numbered (live_entries self.old) k
            ++ ahead_entries self.old }
        ensures kept { kept_entries self.new ≡ moved_to (kept_entries self.old) k
            (length (live_entries self.old)) }
        ensures capacity { entries_capacity self.new ≡ entries_capacity self.old }
    {
        move_to(&mut self.order, k, self.live);
        self.live -= 1;
        self.ahead += 1;
    }

    /// Puts the `k`-th live entry, counted from 1, and those that depend on it, directly or through
    /// others, behind the other live ones, and returns their number. Both parts keep their order.
    ///
    /// There must be a `k`-th live entry. The index must be that of the entries before it, with
    /// room for all others. Afterwards it is that of the entries before the `k`-th, followed by
    /// those put behind, with room for the others.
    pub(crate) fn gather_closure(&mut self, k: usize, index: &mut DependIndex) -> usize
        requires some { 1 ≤ k }
        requires position { k ≤ length (live_entries self.old) }
        requires before { IsIndexOf index.old (take (k - 1) (live_entries self.old)) }
        requires room { HasRoomFor index.old (drop (k - 1) (live_entries self.old)
            ++ ahead_entries self.old) }
        ensures count { result ≡ length (closure_entries (live_entries self.old) k) }
        ensures live { live_entries self.new ≡ without_closure (live_entries self.old) k
            ++ closure_entries (live_entries self.old) k }
        ensures ahead { ahead_entries self.new ≡ ahead_entries self.old }
        ensures len { length (live_entries self.new) ≡ length (live_entries self.old) }
        ensures capacity { entries_capacity self.new ≡ entries_capacity self.old }
        ensures index { IsIndexOf index.new (take (k - 1) (live_entries self.old)
            ++ closure_entries (live_entries self.old) k) }
        ensures room { HasRoomFor index.new (drop (k - 1)
            (without_closure (live_entries self.old) k) ++ ahead_entries self.old) }
    {
        move_closure_last(
            &self.slab,
            &mut self.order,
            &mut self.gathered,
            index,
            k,
            self.live,
        )
    }

    /// Makes room for this many entries in all, live and ahead. The entries stay as they are, also
    /// on failure. Fails only if memory is refused, which is asked for only if room is missing.
    #[inline(always)]
    pub(crate) fn make_room_for(&mut self, needed: usize) -> Result<(), AllocError>
        ensures live { live_entries self.new ≡ live_entries self.old }
        ensures ahead { ahead_entries self.new ≡ ahead_entries self.old }
        ensures ok { OnOk result (needed ≤ entries_capacity self.new) }
        ensures err { OnErr result (entries_capacity self.old < needed) }
        ensures same { needed ≤ entries_capacity self.old
            → entries_capacity self.new ≡ entries_capacity self.old }
    {
        make_room(&mut self.slab, needed)?;
        make_room(&mut self.order, needed)?;
        make_room(&mut self.gathered, needed)
    }

    /// Keeps the first `n` live entries, puts the given ones after them, for which there must be
    /// room, and discards all others. At least `n` entries must be live, and at most `MOST_STEPS`
    /// may be kept or given. The kept and the given ones are then live, and none is ahead.
    pub(crate) fn replace_after(&mut self, n: usize, given: &[Entry])
        requires within { n ≤ length (live_entries self.old) }
        requires room { n + length given.now ≤ entries_capacity self.old }
        requires few { n + length given.now ≤ MOST_STEPS }
        ensures live { live_entries self.new ≡ take n (live_entries self.old) ++ given.now }
        ensures ahead { ahead_entries self.new ≡ [] }
        ensures capacity { entries_capacity self.new ≡ entries_capacity self.old }
    {
        self.live = n;
        self.ahead = 0;
        for entry in given {
            self.push_live(entry);
        }
    }

    /// Makes an entry the last live one. No entry may be ahead, fewer than `MOST_STEPS` may be
    /// live, and there must be room for one more. The entry is written over the first discarded
    /// one, or put at the slab's end if there is none.
    fn push_live(&mut self, entry: &Entry)
        requires none_ahead { ahead_entries self.old ≡ [] }
        requires room { length (live_entries self.old) < entries_capacity self.old }
        requires few { length (live_entries self.old) < MOST_STEPS }
        ensures live { live_entries self.new ≡ live_entries self.old ++ entry.now ∷ [] }
        ensures ahead { ahead_entries self.new ≡ [] }
        ensures capacity { entries_capacity self.new ≡ entries_capacity self.old }
    {
        put_at(&mut self.slab, &mut self.order, self.live, entry);
        self.live += 1;
    }
}
