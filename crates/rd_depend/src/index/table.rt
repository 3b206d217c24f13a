//! The table of keys: for each place and each segment, the positions of the steps that touched it
//! and, in a second list, of the steps that wrote there.
//!
//! Putting a step in looks for up to three keys, and the kind of each is known there. So the code
//! that finds a key and its room is inlined. The code that adds a key or grows a list is seldom
//! needed, and isn't inlined.

ghost use Rattle.std.specs.Prelude.{◌≡◌, ◌<◌, length};

use super::keys::Key;
use super::lists::{
    move_in_all, push_at, push_if, remove_above_in_all, remove_last_at, remove_last_if, reserve_at,
    reserve_if,
};
use indexmap::IndexSet;
use std::alloc::{AllocError, Global};

/// The number of hints. A hint may know the row of a key.
const HINTS: usize = 512;

/// Which of the positions kept under a key are meant.
#[derive(Clone, Copy)]
pub(crate) enum Among {
    /// All of them.
    Touches,
    /// Only those of steps that wrote there.
    Writes,
}

impl Among {
    ghost use Rattle.rd_depend.specs.Tables.{is_writes};

    /// Returns `Writes` if `only_writes` is true, and `Touches` if not.
    pub(crate) fn writes_if(only_writes: bool) -> Among
        ensures { is_writes result ≡ only_writes }
    {
        if only_writes {
            Among::Writes
        } else {
            Among::Touches
        }
    }
}

/// Keys with their lists, in one row for each key. A key stays when its lists become empty.
#[derive(Drop)]
pub(crate) struct Table {
    /// The keys, in the order of their rows.
    keys: IndexSet<Key>,
    /// The rows in which keys were found lately. A hint is tried before the set is searched, and
    /// believed only if the key is in that row.
    hints: [usize; HINTS],
    /// For each key, the positions of all its steps.
    all: Vec<Vec<u32>>,
    /// For each key, the positions of the steps that wrote there.
    writes: Vec<Vec<u32>>,
    ghost all_there: { length all.items ≡ length keys.keys },
    ghost writes_there: { length writes.items ≡ length keys.keys },
}

impl Table {
    ghost use Rattle.std.specs.Prelude.{◌≤◌, Option, Some, Bool, true, IsOk, IfOk, IfSome, false, []};
    ghost use Rattle.rd_depend.specs.Keys.{row_in};
    ghost use Rattle.rd_depend.specs.Tables.{is_writes, kept_in, spare_in, is_kept_in, IsReady, IsReadyIfSome, KeepsLists, Puts, HasLast, RemovesLast, Moves, Cuts};
    ghost use Rattle.rd_depend.specs.declared.index.keys.Key.{Key as Kept};

    /// Returns a table without keys. It takes no memory.
    pub(crate) fn new(alloc: Global) -> Table
        ensures { (only_writes : Bool) (k : Kept) → kept_in result only_writes k ≡ [] }
    {
        Table {
            keys: IndexSet::new(alloc),
            hints: [0; HINTS],
            all: Vec::new(alloc),
            writes: Vec::new(alloc),
        }
    }

    /// Returns the row of the key; `None` if it isn't in the table.
    pub(crate) fn row_of(&self, key: Key) -> Option<usize>
        ensures row { result ≡ row_in self.now.keys.keys key }
        ensures within { IfSome result (λ i. i < length self.now.keys.keys) }
    {
        let hinted = self.hints[hint_of(key)];
        if self.has_key_at(hinted, key) {
            return Some(hinted);
        }
        self.keys.get_index_of(&key)
    }

    /// Whether this key is in this row; false for a row that no key has.
    #[inline(always)]
    fn has_key_at(&self, row: usize, key: Key) -> bool
        ensures { result ≡ true → row_in self.now.keys.keys key ≡ Some row }
    {
        let keys = self.keys.as_slice();
        if row >= keys.len() {
            return false;
        }
        keys[row] == key
    }

    /// Returns the positions kept under the key: all of them, or only those of steps that wrote.
    /// There are none if the key isn't in the table.
    pub(crate) fn kept_under(&self, key: Key, among: Among) -> &[u32]
        ensures { result.now ≡ kept_in self.now (is_writes among) key }
    {
        let Some(row) = self.row_of(key) else {
            return &[];
        };
        match among {
            Among::Touches => &self.all[row],
            Among::Writes => &self.writes[row],
        }
    }

    /// Makes room for one more position under the key, also among those that wrote if the step
    /// wrote, and returns the key's row. Adds the key if it isn't in the table. Without a key it
    /// does nothing and returns `None`.
    ///
    /// # Errors
    ///
    /// `AllocError` if memory is refused, which is asked for only if room is missing. No position
    /// has changed then, and no room is lost, but the key may have been added.
    #[inline(always)]
    pub(crate) fn reserve(
        &mut self,
        alloc: Global,
        key: Option<Key>,
        wrote: bool,
    ) -> Result<Option<usize>, AllocError>
        ensures same { KeepsLists self.old self.new }
        ensures ready { IfOk result (IsReadyIfSome self.new key wrote) }
        ensures succeeds { ((only_writes : Bool) (k : Kept) → key ≡ Some k
            → is_kept_in only_writes wrote ≡ true → 0 < spare_in self.old only_writes k)
            → IsOk result }
    {
        match key {
            None => Ok(None),
            Some(key) => Ok(Some(self.reserve_under(alloc, key, wrote)?)),
        }
    }

    /// Makes room for one more position in the key's list, and in its list of writes if the step
    /// wrote, and returns the key's row. Adds the key if it isn't in the table.
    ///
    /// # Errors
    ///
    /// `AllocError` if memory is refused, which is asked for only if room is missing. No position
    /// has changed then, and no room is lost, but the key may have been added.
    #[inline(always)]
    fn reserve_under(&mut self, alloc: Global, key: Key, wrote: bool) -> Result<usize, AllocError>
        ensures same { KeepsLists self.old self.new }
        ensures ready { IfOk result (IsReady self.new key wrote) }
        ensures succeeds { ((only_writes : Bool) → is_kept_in only_writes wrote ≡ true
            → 0 < spare_in self.old only_writes key) → IsOk result }
    {
        let row = self.find_or_add(alloc, key)?;
        reserve_at(&mut self.all, row)?;
        reserve_if(&mut self.writes, wrote, row)?;
        Ok(row)
    }

    /// Returns the row of the key, which is added with empty lists if it isn't in the table. The
    /// key's hint has this row then. Fails only if memory for a new key is refused; no position has
    /// changed then, and no room is lost.
    #[inline(always)]
    fn find_or_add(&mut self, alloc: Global, key: Key) -> Result<usize, AllocError>
        ensures same { KeepsLists self.old self.new }
        ensures row { IfOk result (λ i. row_in self.new.keys.keys key ≡ Some i) }
        ensures within { IfOk result (λ i. i < length self.new.keys.keys) }
        ensures succeeds { 0 < spare_in self.old false key → IsOk result }
    {
        let hint = hint_of(key);
        let hinted = self.hints[hint];
        if self.has_key_at(hinted, key) {
            return Ok(hinted);
        }
        let row = self.search_or_add(alloc, key)?;
        self.hints[hint] = row;
        Ok(row)
    }

    /// Returns the row of the key, which is added with empty lists if it isn't in the table. No
    /// hint is changed. Fails only if memory for a new key is refused; no position has changed
    /// then, and no room is lost.
    #[inline(never)]
    fn search_or_add(&mut self, alloc: Global, key: Key) -> Result<usize, AllocError>
        ensures same { KeepsLists self.old self.new }
        ensures row { IfOk result (λ i. row_in self.new.keys.keys key ≡ Some i) }
        ensures within { IfOk result (λ i. i < length self.new.keys.keys) }
        ensures succeeds { 0 < spare_in self.old false key → IsOk result }
    {
        if let Some(row) = self.row_of(key) {
            return Ok(row);
        }
        self.all.reserve(1)?;
        self.writes.reserve(1)?;
        let row = self.keys.len();
        self.keys.insert(key)?;
        self.all.push_reserved(Vec::new(alloc));
        self.writes.push_reserved(Vec::new(alloc));
        Ok(row)
    }

    /// Puts a position at the end of the list in this row, and of the list of writes there if the
    /// step wrote. A key must have this row, and these lists must have room for the position.
    /// Without a row it does nothing.
    pub(crate) fn put(&mut self, row: Option<usize>, position: u32, wrote: bool)
        requires { (k : Option Kept) × IsReadyIfSome self.old k wrote row }
        ensures { (k : Option Kept) → IsReadyIfSome self.old k wrote row
            → Puts k wrote position self.old self.new }
    {
        if let Some(row) = row {
            self.put_at(row, position, wrote);
        }
    }

    /// Puts a position at the end of the list in this row, and of the list of writes there if the
    /// step wrote. A key must have this row, and these lists must have room for the position.
    fn put_at(&mut self, row: usize, position: u32, wrote: bool)
        requires { (k : Kept) × IsReady self.old k wrote row }
        ensures { (k : Kept) → IsReady self.old k wrote row
            → Puts (Some k) wrote position self.old self.new }
    {
        push_at(&mut self.all, row, position);
        push_if(&mut self.writes, wrote, row, position);
    }

    /// Removes the last position from the key's list, and from its list of writes if the step
    /// wrote. These lists must not be empty. Without a key it does nothing.
    pub(crate) fn remove_last(&mut self, key: Option<Key>, wrote: bool)
        requires { HasLast self.old key wrote }
        ensures { RemovesLast key wrote self.old self.new }
    {
        if let Some(key) = key {
            self.remove_last_under(key, wrote);
        }
    }

    /// Removes the last position from the key's list, and from its list of writes if the step
    /// wrote. These lists must not be empty.
    fn remove_last_under(&mut self, key: Key, wrote: bool)
        requires { HasLast self.old (Some key) wrote }
        ensures { RemovesLast (Some key) wrote self.old self.new }
    {
        if let Some(row) = self.row_of(key) {
            remove_last_at(&mut self.all, row);
            remove_last_if(&mut self.writes, wrote, row);
        }
    }

    /// Moves position `k` to `n` in each list: `k` becomes `n`, if it is there, and the positions
    /// above `k` up to `n` become one less. `k` must be at least 1 and at most `n`. A list
    /// that doesn't ascend has unspecified positions afterwards.
    pub(crate) fn move_to(&mut self, k: u32, n: u32)
        requires some { 1 ≤ k }
        requires order { k ≤ n }
        ensures { Moves k n self.old self.new }
    {
        move_in_all(&mut self.all, k, n);
        move_in_all(&mut self.writes, k, n);
    }

    /// Removes the positions above `n` from each list. A list that doesn't ascend has unspecified
    /// positions afterwards.
    pub(crate) fn truncate(&mut self, n: u32)
        ensures { Cuts n self.old self.new }
    {
        remove_above_in_all(&mut self.all, n);
        remove_above_in_all(&mut self.writes, n);
    }
}

/// Returns the number of the hint that may know the row of this key, from 0 and below `HINTS`.
/// Keys can share a hint.
#[inline(always)]
fn hint_of(key: Key) -> usize
    ensures { result < HINTS }
{
    let spread = key.hash_number().wrapping_mul(0x9e37_79b9_7f4a_7c15);
    (spread >> 55) as usize % HINTS
}
