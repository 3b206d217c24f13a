//! Lists of positions, each known by its number, from 0, and changes of one list or of all.

ghost use Rattle.std.specs.Prelude.{◌≡◌, ◌+◌, ◌-◌, ◌==◌, ◌&&◌, true, ◌<◌, ◌≤◌, ◌++◌, ◌∷◌, [], ℕ, IsOk, OnOk, length, map, nat_lt, take, vec_capacity, cond, if◌then◌else◌};
ghost use Rattle.std.specs.List.{before_first, position_or_len};
ghost use Rattle.rd_depend.specs.Lists.{IsAscending, IsMoved, lowered_and_rotated};
ghost use Rattle.rd_depend.specs.Tables.{list_at, capacity_at, spare_at, vec_spare};

use std::alloc::{AllocError, Global};

/// The least number of positions for which a full list makes room. Most lists stay short, and
/// asking for memory takes longer than all else that is done to them.
const POSITIONS: usize = 8;

/// Returns the positions in the list of this number; none if there is no such list.
pub(crate) fn positions_in(lists: &[Vec<u32>], index: usize) -> &[u32]
    ensures { result.now ≡ list_at lists.now index }
{
    if index < lists.len() {
        &lists[index]
    } else {
        &[]
    }
}

/// Adds empty lists until there are at least this many.
///
/// # Errors
///
/// `AllocError` if memory is refused. No list that was there has changed then, but some empty lists
/// may have been added.
pub(crate) fn grow_to(
    lists: &mut Vec<Vec<u32>>,
    alloc: Global,
    number: usize,
) -> Result<(), AllocError>
    ensures lists { (i : ℕ) → list_at lists.new.items i ≡ list_at lists.old.items i }
    ensures room { (i : ℕ) → spare_at lists.old.items i ≤ spare_at lists.new.items i }
    ensures number { OnOk result (number ≤ length lists.new.items) }
    ensures succeeds { number ≤ length lists.old.items → IsOk result }
{
    for count in lists.len()..number {
        lists.push(Vec::new(alloc))?;
    }
    Ok(())
}

/// Makes room for one more position in the list of this number, unless it has room. There must be
/// such a list.
///
/// # Errors
///
/// `AllocError` if memory is refused. No list has changed then, and no room is lost.
pub(crate) fn reserve_at(lists: &mut Vec<Vec<u32>>, index: usize) -> Result<(), AllocError>
    requires { index < length lists.old.items }
    ensures lists { (i : ℕ) → list_at lists.new.items i ≡ list_at lists.old.items i }
    ensures room { (i : ℕ) → spare_at lists.old.items i ≤ spare_at lists.new.items i }
    ensures ok { OnOk result (0 < spare_at lists.new.items index) }
    ensures number { length lists.new.items ≡ length lists.old.items }
    ensures succeeds { 0 < spare_at lists.old.items index → IsOk result }
    ensures capacity { 0 < spare_at lists.old.items index
        → (i : ℕ) → capacity_at lists.new.items i ≡ capacity_at lists.old.items i }
{
    reserve(&mut lists[index])
}

/// If `wanted`, makes room for one more position in the list of this number, unless it has room.
/// There must be such a list, even if not `wanted`. Fails only if memory is refused; no list has
/// changed then, and no room is lost.
pub(crate) fn reserve_if(
    lists: &mut Vec<Vec<u32>>,
    wanted: bool,
    index: usize,
) -> Result<(), AllocError>
    requires { index < length lists.old.items }
    ensures lists { (i : ℕ) → list_at lists.new.items i ≡ list_at lists.old.items i }
    ensures room { (i : ℕ) → spare_at lists.old.items i ≤ spare_at lists.new.items i }
    ensures ok { OnOk result (wanted ≡ true → 0 < spare_at lists.new.items index) }
    ensures number { length lists.new.items ≡ length lists.old.items }
    ensures succeeds { (wanted ≡ true → 0 < spare_at lists.old.items index) → IsOk result }
    ensures capacity { (wanted ≡ true → 0 < spare_at lists.old.items index)
        → (i : ℕ) → capacity_at lists.new.items i ≡ capacity_at lists.old.items i }
{
    if wanted {
        reserve_at(lists, index)
    } else {
        Ok(())
    }
}

/// Makes room for one more position in a list, unless it has room. Fails only if memory is refused;
/// no position has changed then, and no room is lost.
fn reserve(list: &mut Vec<u32>) -> Result<(), AllocError>
    ensures items { list.new.items ≡ list.old.items }
    ensures room { vec_spare list.old ≤ vec_spare list.new }
    ensures ok { OnOk result (0 < vec_spare list.new) }
    ensures succeeds { 0 < vec_spare list.old → IsOk result }
    ensures capacity { 0 < vec_spare list.old → vec_capacity list.new ≡ vec_capacity list.old }
{
    if list.len() < list.capacity() {
        return Ok(());
    }
    reserve_several(list)
}

/// Makes room for at least `POSITIONS` more positions. Fails only if memory is refused. No position
/// changes, whether it fails or not.
#[inline(never)]
fn reserve_several(list: &mut Vec<u32>) -> Result<(), AllocError>
    ensures items { list.new.items ≡ list.old.items }
    ensures ok { OnOk result (0 < vec_spare list.new) }
{
    list.reserve(POSITIONS)
}

/// Pushes a position onto the list of this number, which must have room for it.
pub(crate) fn push_at(lists: &mut Vec<Vec<u32>>, index: usize, position: u32)
    requires { 0 < spare_at lists.old.items index }
    ensures lists { (i : ℕ) → list_at lists.new.items i
        ≡ (if i == index then list_at lists.old.items i ++ position ∷ []
        else list_at lists.old.items i) }
    ensures room { (i : ℕ) → spare_at lists.old.items i
        ≤ spare_at lists.new.items i + cond (i == index) 1 0 }
    ensures capacity { (i : ℕ) → capacity_at lists.new.items i ≡ capacity_at lists.old.items i }
    ensures number { length lists.new.items ≡ length lists.old.items }
{
    lists[index].push_reserved(position);
}

/// Pushes a position onto the list of this number, if `wanted`. The list must then have room for it.
pub(crate) fn push_if(lists: &mut Vec<Vec<u32>>, wanted: bool, index: usize, position: u32)
    requires { wanted ≡ true → 0 < spare_at lists.old.items index }
    ensures lists { (i : ℕ) → list_at lists.new.items i
        ≡ (if wanted && (i == index) then list_at lists.old.items i ++ position ∷ []
        else list_at lists.old.items i) }
    ensures room { (i : ℕ) → spare_at lists.old.items i
        ≤ spare_at lists.new.items i + cond (wanted && (i == index)) 1 0 }
    ensures capacity { (i : ℕ) → capacity_at lists.new.items i ≡ capacity_at lists.old.items i }
    ensures number { length lists.new.items ≡ length lists.old.items }
{
    if wanted {
        push_at(lists, index, position);
    }
}

/// Removes the last position from the list of this number, which must not be empty.
pub(crate) fn remove_last_at(lists: &mut Vec<Vec<u32>>, index: usize)
    requires { 1 ≤ length (list_at lists.old.items index) }
    ensures lists { (i : ℕ) → list_at lists.new.items i
        ≡ (if i == index then take (length (list_at lists.old.items i) - 1)
        (list_at lists.old.items i) else list_at lists.old.items i) }
    ensures room { (i : ℕ) → spare_at lists.new.items i
        ≡ spare_at lists.old.items i + cond (i == index) 1 0 }
    ensures number { length lists.new.items ≡ length lists.old.items }
{
    let _last = lists[index].pop();
}

/// Removes the last position from the list of this number, if `wanted`. The list must then not be
/// empty.
pub(crate) fn remove_last_if(lists: &mut Vec<Vec<u32>>, wanted: bool, index: usize)
    requires { wanted ≡ true → 1 ≤ length (list_at lists.old.items index) }
    ensures lists { (i : ℕ) → list_at lists.new.items i
        ≡ (if wanted && (i == index)
        then take (length (list_at lists.old.items i) - 1) (list_at lists.old.items i)
        else list_at lists.old.items i) }
    ensures room { (i : ℕ) → spare_at lists.new.items i
        ≡ spare_at lists.old.items i + cond (wanted && (i == index)) 1 0 }
    ensures number { length lists.new.items ≡ length lists.old.items }
{
    if wanted {
        remove_last_at(lists, index);
    }
}

/// Moves position `k` to `n` in each list: `k` becomes `n`, if it is there, and the positions above
/// `k` up to `n` become one less. `k` must be at least 1 and at most `n`. A list that doesn't
/// ascend has unspecified positions afterwards.
pub(crate) fn move_in_all(lists: &mut Vec<Vec<u32>>, k: u32, n: u32)
    requires some { 1 ≤ k }
    requires order { k ≤ n }
    ensures lists { (i : ℕ) → IsAscending (list_at lists.old.items i)
        → IsMoved k n (list_at lists.old.items i) (list_at lists.new.items i) }
    ensures capacity { (i : ℕ) → capacity_at lists.new.items i ≡ capacity_at lists.old.items i }
    ensures number { length lists.new.items ≡ length lists.old.items }
{
    for index in 0..lists.len() {
        move_among(&mut lists[index], k, n);
    }
}

/// Moves position `k` to `n` in a list: `k` becomes `n`, if it is there, and the positions above
/// `k` up to `n` become one less. `k` must be at least 1 and at most `n`. A list that doesn't
/// ascend has unspecified positions afterwards.
fn move_among(positions: &mut [u32], k: u32, n: u32)
    requires some { 1 ≤ k }
    requires order { k ≤ n }
    ensures { IsAscending positions.old → IsMoved k n positions.old positions.new }
{
    let start = count_up_to(positions, k - 1);
    if start == positions.len() {
        return;
    }
    let end = start + count_up_to(&positions[start..], n);
    lower_and_rotate(&mut positions[start..end], k, n);
}

/// Subtracts 1 from each position that is above 0. But if the first one is `k`, that one moves to
/// the end and becomes `n`.
fn lower_and_rotate(positions: &mut [u32], k: u32, n: u32)
    ensures { positions.new ≡ lowered_and_rotated k n positions.old }
{
    let held = !positions.is_empty() && positions[0] == k;
    lower(positions);
    if held {
        positions.rotate_left(1);
        let last = positions.len() - 1;
        positions[last] = n;
    }
}

/// Subtracts 1 from each position that is above 0.
fn lower(positions: &mut [u32])
    ensures { positions.new ≡ map (λ p. p - 1) positions.old }
{
    for index in 0..positions.len() {
        positions[index] = positions[index].saturating_sub(1);
    }
}

/// Returns the number of positions that are at most `k`. The number is unspecified if the positions
/// don't ascend. In most lists all are at most `k`, so it looks at the last one first.
fn count_up_to(positions: &[u32], k: u32) -> usize
    ensures within { result ≤ length positions.now }
    ensures count { IsAscending positions.now → result ≡ position_or_len (nat_lt k) positions.now }
{
    let len = positions.len();
    if len == 0 || positions[len - 1] <= k {
        return len;
    }
    positions.partition_point(|p| *p <= k)
}

/// Removes the positions above `n` from each list. A list that doesn't ascend has unspecified
/// positions afterwards.
pub(crate) fn remove_above_in_all(lists: &mut Vec<Vec<u32>>, n: u32)
    ensures lists { (i : ℕ) → IsAscending (list_at lists.old.items i)
        → list_at lists.new.items i ≡ before_first (nat_lt n) (list_at lists.old.items i) }
    ensures capacity { (i : ℕ) → capacity_at lists.new.items i ≡ capacity_at lists.old.items i }
    ensures number { length lists.new.items ≡ length lists.old.items }
{
    for index in 0..lists.len() {
        remove_above(&mut lists[index], n);
    }
}

/// Removes the positions above `n` from a list. A list that doesn't ascend has unspecified positions
/// afterwards.
fn remove_above(list: &mut Vec<u32>, n: u32)
    ensures items { IsAscending list.old.items
        → list.new.items ≡ before_first (nat_lt n) list.old.items }
    ensures capacity { vec_capacity list.new ≡ vec_capacity list.old }
{
    let kept = count_up_to(list, n);
    list.truncate(kept);
}
