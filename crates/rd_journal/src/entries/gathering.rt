//! The causal closure of a step, gathered behind the other live entries in one pass.
//!
//! An entry that is gathered is put into the index of dependants, after the entries before the
//! step. So the next entry depends on a gathered one exactly if the index finds it to depend on one
//! after these.

ghost use Rattle.std.specs.Prelude.{◌≡◌, ◌++◌, ◌-◌, ◌<◌, ◌≤◌, [], List, length, take, drop, slice_index_or, vec_capacity};
ghost use Rattle.rd_step.specs.declared.entries.Entry.{Entry as SomeEntry};
ghost use Rattle.rd_step.specs.Prelude.{closure_entries, without_closure, MOST_STEPS};
ghost use Rattle.rd_depend.specs.Index.{IsIndexOf, HasRoomFor};
ghost use Rattle.rd_journal.specs.Numbers.{at_numbers, IsOrder};

use rd_depend::DependIndex;
use rd_step::Entry;

/// Among the first `live` numbers, moves the `k`-th, counted from 1, and those whose entries depend
/// on its entry, directly or through others, behind the rest. Both parts keep their order. Returns
/// how long the second part is.
///
/// The order must have each entry's number once, and no other; afterwards this holds again. `k`
/// must be at least 1 and at most `live`, and `live` at most `MOST_STEPS` and the length of the
/// order. `gathered` must be empty, with room for as many numbers as the order has, and is empty
/// again afterwards. The index must be that of the entries before the `k`-th, with room for the
/// other live ones; afterwards it is that of the entries before the `k`-th, followed by the second
/// part, and keeps its room for all others.
pub(crate) fn move_closure_last(
    slab: &[Entry],
    order: &mut Vec<u32>,
    gathered: &mut Vec<u32>,
    index: &mut DependIndex,
    k: usize,
    live: usize,
) -> usize
    requires ordered { IsOrder (length slab.now) order.old.items }
    requires some { 1 ≤ k }
    requires position { k ≤ live }
    requires within { live ≤ length order.old.items }
    requires few { live ≤ MOST_STEPS }
    requires none { gathered.old.items ≡ [] }
    requires place { length order.old.items ≤ vec_capacity gathered.old }
    requires before { IsIndexOf index.old (take (k - 1)
        (take live (at_numbers slab.now order.old.items))) }
    requires room { HasRoomFor index.old (drop (k - 1)
        (take live (at_numbers slab.now order.old.items))) }
    ensures ordered { IsOrder (length slab.now) order.new.items }
    ensures count { result ≡ length (closure_entries
        (take live (at_numbers slab.now order.old.items)) k) }
    ensures moved { take live (at_numbers slab.now order.new.items)
        ≡ without_closure (take live (at_numbers slab.now order.old.items)) k
        ++ closure_entries (take live (at_numbers slab.now order.old.items)) k }
    ensures behind { drop live (at_numbers slab.now order.new.items)
        ≡ drop live (at_numbers slab.now order.old.items) }
    ensures order { vec_capacity order.new ≡ vec_capacity order.old }
    ensures none { gathered.new.items ≡ [] }
    ensures place { vec_capacity gathered.new ≡ vec_capacity gathered.old }
    ensures index { IsIndexOf index.new (take (k - 1)
        (take live (at_numbers slab.now order.old.items))
        ++ closure_entries (take live (at_numbers slab.now order.old.items)) k) }
    ensures room { (rest : List SomeEntry)
        → HasRoomFor index.old (drop (k - 1) (take live (at_numbers slab.now order.old.items))
        ++ rest)
        → HasRoomFor index.new (drop (k - 1)
        (without_closure (take live (at_numbers slab.now order.old.items)) k) ++ rest) }
{
    let mut front = k - 1;
    let first = order[front];
    let step = entry_in(slab, first);
    index.push_reserved(step);
    gathered.push_reserved(first);
    for next in k..live {
        let number = order[next];
        let entry = entry_in(slab, number);
        if index.depends_on_any_after(k as u64 - 1, entry) {
            index.push_reserved(entry);
            gathered.push_reserved(number);
        } else {
            order[front] = number;
            front += 1;
        }
    }
    order[front..live].copy_from_slice(gathered);
    gathered.clear();
    live - front
}

/// Returns the slab's entry of this number, from 0, which must be below the slab's length.
fn entry_in(slab: &[Entry], number: u32) -> &Entry
    requires { number < length slab.now }
    ensures { result.now ≡ slice_index_or slab.now number result.now }
{
    &slab[number as usize]
}
