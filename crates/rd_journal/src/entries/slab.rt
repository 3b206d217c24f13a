//! Changes of the slab, and of the order of its entries' numbers.

ghost use Rattle.std.specs.Prelude.{◌≡◌, ◌++◌, ◌∷◌, ◌+◌, ◌<◌, ◌≤◌, ℕ, length, take, drop, vec_capacity, OnOk, OnErr};
ghost use Rattle.rd_step.specs.Prelude.{MOST_STEPS};
ghost use Rattle.rd_depend.specs.Moved.{moved_to};
ghost use Rattle.rd_journal.specs.Numbers.{at_numbers, IsOrder};

use rd_step::Entry;
use std::alloc::AllocError;

/// Puts an entry at index `position` of the order: over the entry whose number is there, or, at the
/// end of the order, at the slab's end. All other entries stay. The order must have each entry's
/// number once, and no other; afterwards this holds again. The index must be below `MOST_STEPS`, at
/// most the order's length, and below the capacity of both lists.
pub(crate) fn put_at(slab: &mut Vec<Entry>, order: &mut Vec<u32>, position: usize, entry: &Entry)
    requires ordered { IsOrder (length slab.old.items) order.old.items }
    requires within { position ≤ length order.old.items }
    requires few { position < MOST_STEPS }
    requires slab { position < vec_capacity slab.old }
    requires number { position < vec_capacity order.old }
    ensures ordered { IsOrder (length slab.new.items) order.new.items }
    ensures put { at_numbers slab.new.items order.new.items
        ≡ take position (at_numbers slab.old.items order.old.items)
        ++ entry.now ∷ drop (position + 1) (at_numbers slab.old.items order.old.items) }
    ensures within { position < length order.new.items }
    ensures longer { (n : ℕ) → position < n → length order.old.items ≤ n
        → length order.new.items ≤ n }
    ensures slab { vec_capacity slab.new ≡ vec_capacity slab.old }
    ensures numbers { vec_capacity order.new ≡ vec_capacity order.old }
{
    if position < order.len() {
        slab[order[position] as usize] = *entry;
    } else {
        order.push_reserved(slab.len() as u32);
        slab.push_reserved(*entry);
    }
}

/// Makes room for this many elements in all. The elements stay as they are, also on failure. Fails
/// only if memory is refused, which is asked for only if room is missing.
pub(crate) fn make_room<T>(items: &mut Vec<T>, needed: usize) -> Result<(), AllocError>
    ensures items { items.new.items ≡ items.old.items }
    ensures ok { OnOk result (needed ≤ vec_capacity items.new) }
    ensures err { OnErr result (vec_capacity items.old < needed) }
    ensures same { needed ≤ vec_capacity items.old
        → vec_capacity items.new ≡ vec_capacity items.old }
    ensures stays { vec_capacity items.old ≤ vec_capacity items.new }
{
    if needed <= items.capacity() {
        return Ok(());
    }
    items.reserve(needed - items.len())
}

/// Moves the `k`-th of the first `live` numbers, counted from 1, behind the others of these, which
/// keep their order. `k` must be at least 1 and at most `live`, and there must be at least `live`
/// numbers.
pub(crate) fn move_to(order: &mut Vec<u32>, k: usize, live: usize)
    requires some { 1 ≤ k }
    requires position { k ≤ live }
    requires within { live ≤ length order.old.items }
    ensures moved { order.new.items ≡ moved_to order.old.items k live }
    ensures capacity { vec_capacity order.new ≡ vec_capacity order.old }
{
    let later = &mut order[k - 1..live];
    later.rotate_left(1);
}
