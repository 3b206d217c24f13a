//! The calls that change the index.

ghost use Rattle.std.specs.Prelude.{◌≡◌, ◌+◌, ◌<◌, ◌≤◌, ◌++◌, ◌∷◌, [], length, take, drop, true, List, Some, IsOk, IfOk, OnOk, OnErr};
ghost use Rattle.rd_step.specs.declared.entries.Entry.{Entry as SomeEntry};
ghost use Rattle.rd_step.specs.Lists.{numbered, without};
ghost use Rattle.rd_depend.specs.Index.{ListKey, IsIndexOf, IsIndex, HasEntryAt, EndsWith, HasRoomFor, GivesRoom, UsesRoom, HasSameRoom, KeepsRoom, position_count, is_listed_for, spare, capacity};
ghost use Rattle.rd_depend.specs.Changes.{Adds, KeepsPositions, entry_keys, IsReadyFor};
ghost use Rattle.rd_depend.specs.Moved.{moved_to};

use super::DependIndex;
use super::keys::{Key, is_value_written};
use super::lists::{
    grow_to, move_in_all, push_at, remove_above_in_all, remove_last_at, reserve_at,
};
use rd_cell::limits::MOST_STEPS;
use rd_step::Entry;
use std::alloc::AllocError;

/// A key under which an entry is kept, if there is one.
#[derive(Clone, Copy)]
struct EntryKey {
    /// The key, or none if the entry has no such key.
    key: Option<Key>,
    /// Whether the entry is kept there also among those that wrote.
    wrote: bool,
}

/// The keys under which an entry is kept.
#[derive(Clone, Copy)]
struct EntryKeys {
    /// The key of its place; for a cell, of the index half.
    place: EntryKey,
    /// The key of the value half, if its place is a cell.
    value: EntryKey,
    /// The key of its segment, if its place is of a segment or the whole of one.
    segment: EntryKey,
}

impl EntryKeys {
    /// Returns the keys under which an entry is kept, each with whether it is kept there among
    /// those that wrote.
    fn of(entry: &Entry) -> EntryKeys
        ensures { result ≡ entry_keys entry.now }
    {
        let wrote = !entry.wrote.is_nothing();
        EntryKeys {
            place: EntryKey {
                key: entry.place.map(Key::of_place),
                wrote,
            },
            value: EntryKey {
                key: entry.place.and_then(Key::of_value),
                wrote: is_value_written(entry.wrote),
            },
            segment: EntryKey {
                key: entry.place.and_then(Key::of_segment),
                wrote,
            },
        }
    }
}

/// The rows of an entry's keys in the table, each none where there is no key.
#[derive(Clone, Copy)]
struct KeyRows {
    place: Option<usize>,
    value: Option<usize>,
    segment: Option<usize>,
}

impl DependIndex {
    /// Puts the entry at the next position. There must be fewer than `MOST_STEPS` positions. This
    /// costs one access by the actor's number, and at most three look-ups: of the entry's place, of
    /// a cell's value half, and of the place's segment.
    ///
    /// # Errors
    ///
    /// `AllocError` if memory is refused, which is asked for only if room is missing. No position
    /// has changed then, and no room is lost.
    pub fn push(&mut self, entry: &Entry) -> Result<(), AllocError>
        requires { position_count self.old < MOST_STEPS }
        ensures ok { OnOk result ((es : List SomeEntry) → IsIndexOf self.old es
            → IsIndexOf self.new (es ++ entry.now ∷ [])) }
        ensures err { OnErr result ((es : List SomeEntry) → IsIndexOf self.old es
            → IsIndexOf self.new es) }
        ensures succeeds { (rest : List SomeEntry) → HasRoomFor self.old (entry.now ∷ rest)
            → IsOk result }
        ensures room { OnOk result (UsesRoom self.old self.new (entry.now ∷ [])) }
        ensures room_stays { OnErr result (KeepsRoom self.old self.new) }
    {
        let homes = EntryKeys::of(entry);
        let rows = self.reserve(entry, &homes)?;
        self.put(entry, &homes, rows);
        Ok(())
    }

    /// Puts the entry at the next position, for which there must be room, so that it takes no
    /// memory and can't fail. There must be fewer than `MOST_STEPS` positions.
    #[tactic(auto, using(crate::proofs::IndexRoom::room_left))]
    pub fn push_reserved(&mut self, entry: &Entry)
        requires few { position_count self.old < MOST_STEPS }
        requires room { HasRoomFor self.old (entry.now ∷ []) }
        ensures put { (es : List SomeEntry) → IsIndexOf self.old es
            → IsIndexOf self.new (es ++ entry.now ∷ []) }
        ensures room { (rest : List SomeEntry) → HasRoomFor self.old (entry.now ∷ rest)
            → HasRoomFor self.new rest }
    {
        match self.push(entry) {
            Ok(()) => {}
            Err(_) => unreachable!(),
        }
    }

    /// Puts these entries at the next positions, in their order, all or none. The index must be
    /// that of some list of entries, which has at most `MOST_STEPS` entries together with these.
    ///
    /// # Errors
    ///
    /// `AllocError` if memory is refused, which is asked for only if room is missing. No position
    /// has changed then, and no room is lost.
    pub fn push_all(&mut self, entries: &[Entry]) -> Result<(), AllocError>
        requires index { IsIndex self.old }
        requires few { position_count self.old + length entries.now ≤ MOST_STEPS }
        ensures ok { OnOk result ((es : List SomeEntry) → IsIndexOf self.old es
            → IsIndexOf self.new (es ++ entries.now)) }
        ensures err { OnErr result ((es : List SomeEntry) → IsIndexOf self.old es
            → IsIndexOf self.new es) }
        ensures succeeds { HasRoomFor self.old entries.now → IsOk result }
        ensures room { OnOk result (UsesRoom self.old self.new entries.now) }
        ensures room_stays { OnErr result (KeepsRoom self.old self.new) }
    {
        let pushed = self.push_until_refused(entries);
        if pushed < entries.len() {
            self.pop_all(&entries[..pushed]);
            return Err(AllocError);
        }
        Ok(())
    }

    /// Makes room for these entries: pushing them in their order then succeeds, also after
    /// positions were removed. No room is lost. The index must be that of some list of entries,
    /// which has at most `MOST_STEPS` entries together with these.
    ///
    /// # Errors
    ///
    /// `AllocError` if memory is refused, which is asked for only if room is missing. No position
    /// has changed then.
    pub fn make_room(&mut self, entries: &[Entry]) -> Result<(), AllocError>
        requires index { IsIndex self.old }
        requires few { position_count self.old + length entries.now ≤ MOST_STEPS }
        ensures same { (es : List SomeEntry) → IsIndexOf self.old es → IsIndexOf self.new es }
        ensures room { OnOk result (HasRoomFor self.new entries.now) }
        ensures succeeds { HasRoomFor self.old entries.now → IsOk result }
        ensures room_stays { KeepsRoom self.old self.new }
    {
        self.push_all(entries)?;
        self.pop_all(entries);
        Ok(())
    }

    /// Removes the last position, whose entry must be this one. The room that it had is free for
    /// the entry again. It takes no memory.
    pub fn pop(&mut self, entry: &Entry)
        requires { EndsWith self.old (entry.now ∷ []) }
        ensures left { (es : List SomeEntry) → IsIndexOf self.old (es ++ entry.now ∷ [])
            → IsIndexOf self.new es }
        ensures room { GivesRoom self.old self.new (entry.now ∷ []) }
    {
        self.len -= 1;
        remove_last_at(&mut self.by_actor, usize::from(entry.event.actor));
        let homes = EntryKeys::of(entry);
        self.by_key.remove_last(homes.place.key, homes.place.wrote);
        self.by_key.remove_last(homes.value.key, homes.value.wrote);
        self.by_key
            .remove_last(homes.segment.key, homes.segment.wrote);
    }

    /// Removes position `k`, whose entry must be this one; each later position becomes one less.
    /// The room that it had is free for the entry again. It goes over all lists, and takes no
    /// memory.
    pub fn remove(&mut self, k: u64, entry: &Entry)
        requires { HasEntryAt self.old k entry.now }
        ensures left { (es : List SomeEntry) → IsIndexOf self.old es
            → numbered es k ≡ Some entry.now → IsIndexOf self.new (without es k) }
        ensures room { GivesRoom self.old self.new (entry.now ∷ []) }
    {
        self.move_to(k, self.len());
        self.pop(entry);
    }

    /// Moves position `k` to `n`; the positions above `k` up to `n` become one less. Each list
    /// keeps its room. The index must be that of some list of entries, `k` at least 1 and at most
    /// `n`, and `n` at most the number of positions. It goes over all lists, and takes no memory.
    pub fn move_to(&mut self, k: u64, n: u64)
        requires index { IsIndex self.old }
        requires some { 1 ≤ k }
        requires order { k ≤ n }
        requires within { n ≤ position_count self.old }
        ensures moved { (es : List SomeEntry) → IsIndexOf self.old es
            → IsIndexOf self.new (moved_to es k n) }
        ensures room { HasSameRoom self.old self.new }
        ensures capacity { (t : ListKey) → capacity self.new t ≡ capacity self.old t }
    {
        let k = k as u32;
        let n = n as u32;
        move_in_all(&mut self.by_actor, k, n);
        self.by_key.move_to(k, n);
    }

    /// Removes all positions above `n`. The room that they had is free for their entries again. It
    /// goes over all lists if there are any such positions, and takes no memory.
    pub fn truncate(&mut self, n: u64)
        ensures left { (es : List SomeEntry) → IsIndexOf self.old es
            → IsIndexOf self.new (take n es) }
        ensures room { (es : List SomeEntry) → IsIndexOf self.old es
            → GivesRoom self.old self.new (drop n es) }
    {
        if n < self.len() {
            self.len = n as usize;
            remove_above_in_all(&mut self.by_actor, n as u32);
            self.by_key.truncate(n as u32);
        }
    }

    /// Makes room for one more position in each list that is to keep the entry, and returns the
    /// rows of its keys, which are added if they are missing. `homes` must be the entry's keys.
    /// Fails only if memory is refused, which is asked for only if room is missing; no position has
    /// changed then, and no room is lost.
    fn reserve(&mut self, entry: &Entry, homes: &EntryKeys) -> Result<KeyRows, AllocError>
        requires { homes.now ≡ entry_keys entry.now }
        ensures same { KeepsPositions self.old self.new }
        ensures ready { IfOk result (IsReadyFor self.new entry.now homes.now) }
        ensures succeeds { ((t : ListKey) → is_listed_for t entry.now ≡ true → 0 < spare self.old t)
            → IsOk result }
    {
        let actor = usize::from(entry.event.actor);
        grow_to(&mut self.by_actor, self.alloc, actor + 1)?;
        reserve_at(&mut self.by_actor, actor)?;
        let place = self
            .by_key
            .reserve(self.alloc, homes.place.key, homes.place.wrote)?;
        let value = self
            .by_key
            .reserve(self.alloc, homes.value.key, homes.value.wrote)?;
        let segment = self
            .by_key
            .reserve(self.alloc, homes.segment.key, homes.segment.wrote)?;
        Ok(KeyRows {
            place,
            value,
            segment,
        })
    }

    /// Puts the entry at the next position, for which there must be room. There must be fewer than
    /// `MOST_STEPS` positions. `homes` must be the entry's keys, and `rows` the rows of these.
    fn put(&mut self, entry: &Entry, homes: &EntryKeys, rows: KeyRows)
        requires few { position_count self.old < MOST_STEPS }
        requires homes { homes.now ≡ entry_keys entry.now }
        requires ready { IsReadyFor self.old entry.now homes.now rows }
        ensures { Adds entry.now self.old self.new }
    {
        self.len += 1;
        let position = self.len as u32;
        let actor = usize::from(entry.event.actor);
        push_at(&mut self.by_actor, actor, position);
        self.by_key.put(rows.place, position, homes.place.wrote);
        self.by_key.put(rows.value, position, homes.value.wrote);
        self.by_key.put(rows.segment, position, homes.segment.wrote);
    }

    /// Pushes these entries in their order until one is refused memory, and returns the number that
    /// were pushed. Memory is asked for only if room is missing. The index must be that of some
    /// list of entries, which has at most `MOST_STEPS` entries together with these.
    fn push_until_refused(&mut self, entries: &[Entry]) -> usize
        requires index { IsIndex self.old }
        requires few { position_count self.old + length entries.now ≤ MOST_STEPS }
        ensures within { result ≤ length entries.now }
        ensures succeeds { HasRoomFor self.old entries.now → result ≡ length entries.now }
        ensures index { (es : List SomeEntry) → IsIndexOf self.old es
            → IsIndexOf self.new (es ++ take result entries.now) }
        ensures room { UsesRoom self.old self.new (take result entries.now) }
    {
        for count in 0..entries.len() {
            if self.push(&entries[count]).is_err() {
                return count;
            }
        }
        entries.len()
    }

    /// Removes the last positions, whose entries must be these, in this order. The room that they
    /// had is free for the entries again.
    fn pop_all(&mut self, entries: &[Entry])
        requires { EndsWith self.old entries.now }
        ensures index { (es : List SomeEntry) → IsIndexOf self.old (es ++ entries.now)
            → IsIndexOf self.new es }
        ensures room { GivesRoom self.old self.new entries.now }
    {
        let mut left = entries.len();
        while left > 0 {
            left -= 1;
            self.pop(&entries[left]);
        }
    }
}
