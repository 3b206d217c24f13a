//! Dependence of two entries, and the first dependant of an entry in a list.

ghost use Rattle.std.specs.Prelude.{◌≡◌, ◌≤◌, length};
ghost use Rattle.rd_step.specs.Prelude.{interfere, depends, first_dependant};
ghost use Rattle.rd_depend.specs.Sharing.{either_wrote};

use rd_cell::some_overlap;
use rd_step::Entry;

/// Whether two steps depend on each other: they have the same actor, or both touched a place that
/// one of them wrote. This is symmetric: a write depends on an earlier read, as a read does on an
/// earlier write.
#[inline(always)]
pub fn depends(a: &Entry, b: &Entry) -> bool
    ensures { result ≡ depends a.now b.now }
{
    a.event.actor == b.event.actor || interfere(a, b)
}

/// Whether both steps touched a place that one of them wrote. The cheap tests come first.
#[inline(always)]
fn interfere(a: &Entry, b: &Entry) -> bool
    ensures { result ≡ interfere a.now.place a.now.wrote b.now.place b.now.wrote }
{
    if !either_wrote(a, b) {
        return false;
    }
    if !some_overlap(a.place, b.place) {
        return false;
    }
    some_overlap(a.written(), b.place) || some_overlap(a.place, b.written())
}

/// Whether at least one of the steps wrote anything.
#[inline(always)]
fn either_wrote(a: &Entry, b: &Entry) -> bool
    ensures { result ≡ either_wrote a.now b.now }
{
    !a.wrote.is_nothing() || !b.wrote.is_nothing()
}

/// Returns the number, from 1, of the first step after the `k`-th that depends on it; `None` if no
/// later step does. There must be a `k`-th step, counted from 1. The call looks at one later step
/// after another, and takes no memory.
pub fn first_dependant(entries: &[Entry], k: u64) -> Option<u64>
    requires some { 1 ≤ k }
    requires within { k ≤ length entries.now }
    ensures { result ≡ first_dependant entries.now k }
{
    let start = k as usize;
    let entry = entries[start - 1];
    for later in start..entries.len() {
        if depends(&entry, &entries[later]) {
            return Some(later as u64 + 1);
        }
    }
    None
}
