//! Allocating a lock's table, with the value in its slot, and closing it.
ghost use Rattle.std.specs.Prelude.{◌≡◌, ◌<◌, ◌≤◌, ◌^◌, [], IfOk, IfErr, map};
ghost use Rattle.std.specs.List.{AllByRecursion};
ghost use Rattle.std.specs.Mem.Slots.{slots_items, slots_len, IsFull};
ghost use Rattle.rd_lock.specs.Locks.{pass_view as known_by, IsOut};
ghost use Rattle.rd_lock.specs.Opening.{IsEndedWith};
ghost use Rattle.rd_lock.specs.Rule.{lock_of, opening_view};

use super::locks::LockTable;
use super::passes::{LockSeat, Pass};
use super::plays::Joins;
use super::views::{Opened, Recorded};
use atomic_table::{Closed, Table};
use std::alloc::{AllocFailed, Global};

/// Allocates a table with the value in its slot and both words at `about.first`, and returns it
/// with its first seat, which has all passes as members. The value's history must be empty, `about`
/// must be of this value, and `about.first` at most 2^63. Fails only if memory is refused, and then
/// returns the value.
pub(crate) fn make_table<T: Recorded>(
    alloc: Global,
    value: T,
    about: &Opened<T>,
) -> Result<(LockTable<T>, LockSeat<T>), T>
    requires empty { T.history value ≡ [] }
    requires about { (about.now.value.value ≡ value) × (about.now.first ≤ 2 ^ 63) }
    ensures ok { IfOk result (λ laid. (laid.0.shared.key ≡ about.now)
        × (laid.0.shared.table_id.words ≡ 2) × (laid.0.shared.table_id.slots ≡ 1)) }
    ensures seat { IfOk result (λ laid. (laid.1.table_id ≡ laid.0.shared.table_id)
        × (laid.1.me ≡ (opening_view about.now.seats (T.origin value) about.now.first, []))) }
    ensures err { IfErr result (λ back. back ≡ value) }
{
    let mut slots = Vec::new(alloc);
    if let Err(failed) = slots.push(Some(value)) {
        slots.destroy_empty();
        let AllocFailed { value: back } = failed;
        let Some(value) = back else { unreachable!() };
        return Err(value);
    }
    match Table::new(alloc, &[about.first, about.first], slots, about) {
        Ok(laid) => Ok(laid),
        Err(refused) => {
            let mut slots = refused.slots;
            let Some(Some(value)) = slots.pop() else {
                unreachable!()
            };
            Err(value)
        }
    }
}

/// Joins the seats of the given passes into one, if there are any, and closes the table. Returns
/// its last words and slots. The table must have at least one word, and its lock at least one seat.
/// The passes must be the table's, and neither wait nor hold.
pub(crate) fn close_table<T: Recorded>(
    table: LockTable<T>,
    mut passes: Vec<Pass<T>>,
) -> Closed<Option<T>, Global>
    requires table { (0 < table.shared.table_id.words) × (0 < table.shared.key.seats) }
    requires own { AllByRecursion (λ pass. pass.seat.table_id
        ≡ table.shared.table_id) passes.items }
    requires out { AllByRecursion IsOut passes.items }
    ensures counts { (slots_len result.words ≡ table.shared.table_id.words)
        × (slots_len result.slots ≡ table.shared.table_id.slots) }
    ensures full { IsFull result.words × IsFull result.slots }
    ensures ended { IsEndedWith (lock_of T.history T.origin table.shared.key.seats
        (T.origin table.shared.key.value.value)) (map known_by passes.items)
        (slots_items result.words) (slots_items result.slots) }
{
    let Some(last) = passes.pop() else {
        return table.close();
    };
    let Pass { mut seat, .. } = last;
    while let Some(pass) = passes.pop() {
        let Pass { seat: other, .. } = pass;
        table.shared.join_seat::<Joins>(&mut seat, other);
    }
    table.close_with(seat)
}
