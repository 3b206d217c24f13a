//! The index of dependants beside a session's entries: that of the live ones and, after them, of
//! those ahead.
//!
//! Undoing the last step, or redoing one, leaves this list as it is. A call that changes the list
//! removes all positions after the first ones that stay, and then puts the new ones in. The room of
//! removed positions is kept, so these can always be put back.

ghost use Rattle.std.specs.Prelude.{◌++◌, ◌+◌, ◌≤◌, OnOk, OnErr, length, take, drop};
ghost use Rattle.rd_step.specs.Prelude.{MOST_STEPS};
ghost use Rattle.rd_depend.specs.Index.{IsIndexOf, HasRoomFor, HasRoomInstead, GivesRoom, position_count};
ghost use Rattle.rd_journal.specs.Entries.{kept_entries};

use super::entries::Entries;
use rd_depend::DependIndex;
use rd_step::Entry;
use std::alloc::AllocError;

/// The greatest number of positions that are removed from the index one by one.
const MOST_SINGLE_REMOVALS: usize = 1_000;

/// Replaces the entries after the first `n` in the index by the given ones. The index must be that
/// of the live entries followed by those ahead. There must be at least `n` of these, and at most
/// `MOST_STEPS` entries afterwards.
///
/// # Errors
///
/// `AllocError` if memory is refused, which is asked for only if room is missing once the entries
/// after the first `n` are removed. The index is then that of the entries from before.
#[inline(always)]
pub(crate) fn replace_in_index(
    index: &mut DependIndex,
    entries: &Entries,
    n: usize,
    given: &[Entry],
) -> Result<(), AllocError>
    requires indexed { IsIndexOf index.old (kept_entries entries.now) }
    requires within { n ≤ length (kept_entries entries.now) }
    requires few { n + length given.now ≤ MOST_STEPS }
    ensures ok { OnOk result (IsIndexOf index.new
        (take n (kept_entries entries.now) ++ given.now)) }
    ensures err { OnErr result (IsIndexOf index.new (kept_entries entries.now)) }
    ensures lacks { OnErr result (HasRoomInstead index.old
        (drop n (kept_entries entries.now)) given.now → ⊥) }
{
    cut_index(index, entries, n);
    let put = index.push_all(given);
    if put.is_err() {
        fill_index(index, entries);
    }
    put
}

/// Removes the positions after the first `n` from the index: a few one by one, and many by one pass
/// over all its lists. The room that they had is kept. The index must be that of the live entries
/// followed by those ahead, of which there must be at least `n`.
pub(crate) fn cut_index(index: &mut DependIndex, entries: &Entries, n: usize)
    requires indexed { IsIndexOf index.old (kept_entries entries.now) }
    requires within { n ≤ length (kept_entries entries.now) }
    ensures left { IsIndexOf index.new (take n (kept_entries entries.now)) }
    ensures room { GivesRoom index.old index.new (drop n (kept_entries entries.now)) }
{
    if entries.kept_len() - n > MOST_SINGLE_REMOVALS {
        index.truncate(n as u64);
    } else {
        pop_after(index, entries, n);
    }
}

/// Removes the positions after the first `n` from the index, one by one. The room that they had is
/// kept. The preconditions are those of `cut_index`.
fn pop_after(index: &mut DependIndex, entries: &Entries, n: usize)
    requires indexed { IsIndexOf index.old (kept_entries entries.now) }
    requires within { n ≤ length (kept_entries entries.now) }
    ensures left { IsIndexOf index.new (take n (kept_entries entries.now)) }
    ensures room { GivesRoom index.old index.new (drop n (kept_entries entries.now)) }
{
    for last in (n..entries.kept_len()).rev() {
        index.pop(entries.kept_at(last));
    }
}

/// Puts those of the live entries and of the entries ahead into the index that it doesn't have yet.
/// The index must be that of a beginning of the live entries followed by those ahead, and have room
/// for the others.
pub(crate) fn fill_index(index: &mut DependIndex, entries: &Entries)
    requires indexed { IsIndexOf index.old (take (position_count index.old)
        (kept_entries entries.now)) }
    requires room { HasRoomFor index.old (drop (position_count index.old)
        (kept_entries entries.now)) }
    ensures { IsIndexOf index.new (kept_entries entries.now) }
{
    for next in index.len() as usize..entries.kept_len() {
        index.push_reserved(entries.kept_at(next));
    }
}
