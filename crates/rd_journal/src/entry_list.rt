//! A borrowed list of entries, of the live steps or of the steps ahead of them.

#![tactic(auto, using(crate::proofs::Numbers::parts))]

ghost use Rattle.std.specs.Prelude.{◌≡◌, ◌<◌, ◌≤◌, List, None, Some, length, drop, slice_get, slice_index_or, MatchOption};
ghost use Rattle.std.specs.List.{All};
ghost use Rattle.rd_step.specs.Lists.{numbered};
ghost use Rattle.rd_journal.specs.Numbers.{at_numbers};

use rd_step::{Entry, Event, EventList};
use std::marker::Model;

/// A borrowed list of entries, of the live steps or of the steps ahead of them, in their order. It
/// copies no entry: it reads each one in the slab, by its number.
#[derive(Drop)]
pub struct EntryList<'a> {
    /// The slab that has the session's entries.
    slab: &'a [Entry],
    /// The numbers of the listed entries in the slab, in the order of the list.
    numbers: &'a [u32],
}

impl<'a> Model for EntryList<'a> {
    ghost use Rattle.std.specs.Prelude.{List, ◌<◌, length};
    ghost use Rattle.std.specs.List.{All};
    ghost use Rattle.rd_step.specs.declared.entries.Entry.{Entry as SomeEntry};
    ghost use Rattle.rd_journal.specs.Numbers.{at_numbers};

    ghost Value = { List SomeEntry };

    ghost view = { λ r. at_numbers r.slab.now r.numbers.now };

    ghost invariant = { λ r. All (λ n. n < length r.slab.now) r.numbers.now };
}

impl<'a> EntryList<'a> {
    /// Returns the list of the slab's entries of these numbers. Each number must be below the
    /// slab's length.
    pub(crate) fn new(slab: &'a [Entry], numbers: &'a [u32]) -> EntryList<'a>
        requires { All (λ n. n < length slab.now) numbers.now }
        ensures { result ≡ at_numbers slab.now numbers.now }
    {
        EntryList { slab, numbers }
    }

    /// Returns the number of entries.
    pub fn len(&self) -> usize
        ensures { result ≡ length self.now }
    {
        self.numbers.len()
    }

    /// Returns the entry at this position, from 0, which must be below `len`.
    pub fn at(&self, position: usize) -> &'a Entry
        requires { position < length self.now }
        ensures { result.now ≡ slice_index_or self.now position result.now }
    {
        entry_at(self.slab, self.numbers, position)
    }

    /// Returns the entry at this position, from 0; `None` if there is none.
    pub fn get(&self, position: usize) -> Option<&'a Entry>
        ensures { MatchOption result (slice_get self.now position ≡ None)
            (λ entry. slice_get self.now position ≡ Some entry.now) }
    {
        if position < self.len() {
            Some(self.at(position))
        } else {
            None
        }
    }

    /// Returns the entry of this number, counted from 1; `None` if there is none.
    pub fn numbered(&self, number: u64) -> Option<&'a Entry>
        ensures { MatchOption result (numbered self.now number ≡ None)
            (λ entry. numbered self.now number ≡ Some entry.now) }
    {
        if number == 0 {
            return None;
        }
        self.get(number as usize - 1)
    }

    /// Returns the entries after the first `n`, which must be at most `len`.
    pub fn after(&self, n: usize) -> EntryList<'a>
        requires { n ≤ length self.now }
        ensures { result ≡ drop n self.now }
    {
        EntryList::new(self.slab, numbers_after(self.numbers, n))
    }
}

impl EventList for EntryList<'_> {
    ghost use Rattle.rd_step.specs.Run.{events};

    ghost listed = { events };

    /// Returns the number of entries, each of which has one event.
    fn count(&self) -> usize {
        self.len()
    }

    /// Returns the event of the entry at this position, from 0; `None` if there is none.
    fn event(&self, position: usize) -> Option<Event> {
        Some(self.get(position)?.event)
    }
}

/// Returns the entry whose number is at this position, from 0, among the numbers. The position must
/// be below their count, and each number below the slab's length.
pub(crate) fn entry_at<'a>(slab: &'a [Entry], numbers: &[u32], position: usize) -> &'a Entry
    requires within { position < length numbers.now }
    requires below { All (λ n. n < length slab.now) numbers.now }
    ensures { result.now ≡ slice_index_or (at_numbers slab.now numbers.now) position result.now }
{
    &slab[numbers[position] as usize]
}

/// Returns the numbers after the first `n`. There must be at least `n`.
fn numbers_after(numbers: &[u32], n: usize) -> &[u32]
    requires { n ≤ length numbers.now }
    ensures { result.now ≡ drop n numbers.now }
{
    &numbers[n..]
}
