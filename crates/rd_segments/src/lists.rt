//! The makers' lists of segments, and the operations on one segment of one list. The segments have
//! `R` cells, which must be at most 64, and for a making at least 1.

ghost use Rattle.std.specs.Prelude.{◌≡◌, ◌≢◌, ◌+◌, ◌-◌, ◌<◌, ◌≤◌, ℕ, Some, None, Err, is_some, IsTrue, IfOk, IfErr, OnOk, OnErr, MatchOption, take, true, length, is_ok, vec_len, vec_capacity, if◌then◌else◌};
ghost use Rattle.rd_ring.specs.Prelude.{MOST_CELLS, SegName, Place, segment_of, can_hold, operand, operate, segment_holding, everywhere, Operates, Makes, Restores, RefusesMaking};
ghost use Rattle.rd_cell.specs.Operations.{keeps_segment_limits};
ghost use Rattle.rd_segments.specs.Lists.{by_name, some_contents, contents_of_lists, segment_count, MakesNext};
ghost use Rattle.rd_segments.specs.Room.{room_of_maker, room_used, makers_room, KeepsMakersRoom, UsesMakersRoom, ReturnsMakersRoom, AddsMakersRoom};

use rd_cell::limits::MOST_SEGMENTS;
use rd_cell::{Content, Done, Operation, Place, Refusal, SegName};
use rd_ring::Segment;
use std::alloc::AllocError;

/// Returns the segment of this name, or none if it is not there.
pub fn find_in<const R: usize>(makers: &Vec<Vec<Segment<R>>>, name: SegName) -> Option<&Segment<R>>
    requires { R ≤ MOST_CELLS }
    ensures { MatchOption result (by_name makers.now.items name ≡ None)
        (λ s. by_name makers.now.items name ≡ Some s.now) }
{
    match makers.get(usize::from(name.maker)) {
        None => None,
        Some(list) => list.get(name.n as usize),
    }
}

/// Does an operation at a place of the segment of this name, and returns what it found, answered
/// and wrote. The place must belong to this segment and not be its whole, and the operation must be
/// one that `Segment::operate` allows. Fails with `NoSuchPlace` if there is no such segment, and
/// otherwise as `Segment::operate` does; nothing changes then.
pub fn operate_on_segment<const R: usize>(
    makers: &mut Vec<Vec<Segment<R>>>,
    name: SegName,
    place: Place,
    operation: Operation,
) -> Result<Done, Refusal>
    requires small { R ≤ MOST_CELLS }
    requires its { segment_of place ≡ Some name }
    requires suits { IsTrue (keeps_segment_limits operation) }
    ensures ok { IfOk result (λ done. Operates everywhere place operation done
        (contents_of_lists makers.old.items) (contents_of_lists makers.new.items)) }
    ensures err { IfErr result (λ e. operate place operation
        (operand (contents_of_lists makers.old.items) place) ≡ Err e) }
    ensures unchanged { OnErr result (contents_of_lists makers.new.items
        ≡ contents_of_lists makers.old.items) }
    ensures room { KeepsMakersRoom (makers_room makers.old.items) (makers_room makers.new.items) }
    ensures capacity { vec_capacity makers.new ≡ vec_capacity makers.old }
{
    let (maker, n) = (usize::from(name.maker), name.n as usize);
    if maker >= makers.len() || n >= makers[maker].len() {
        return Err(Refusal::NoSuchPlace);
    }
    makers[maker][n].operate(place, operation)
}

/// Puts an old content back at a place of the segment of this name. That place must be there and
/// name this segment too. The content must be of its kind, and a counter at most 2^62.
pub fn restore_to_segment<const R: usize>(
    makers: &mut Vec<Vec<Segment<R>>>,
    name: SegName,
    place: Place,
    content: Content,
)
    requires small { R ≤ MOST_CELLS }
    requires there { IsTrue (is_some (operand (some_contents
        (by_name makers.old.items name)) place)) }
    requires its { segment_of place ≡ Some name }
    requires kind { IsTrue (can_hold place content) }
    ensures done { Restores everywhere place (Some content) (contents_of_lists makers.old.items)
        (contents_of_lists makers.new.items) }
    ensures room { KeepsMakersRoom (makers_room makers.old.items) (makers_room makers.new.items) }
    ensures capacity { vec_capacity makers.new ≡ vec_capacity makers.old }
{
    makers[usize::from(name.maker)][name.n as usize].restore(place, content);
}

/// Makes the maker's next segment, which holds this value, and returns its name. The maker must
/// have a list.
///
/// # Errors
///
/// `SegmentsEnd` exactly if the maker has made 65,535 or more; else `NoMemory` if memory was
/// refused, which happens only if the maker's list has no room left. No segment changes then.
pub fn add_segment<const R: usize>(
    makers: &mut Vec<Vec<Segment<R>>>,
    maker: u8,
    value: u64,
) -> Result<SegName, Refusal>
    requires positive { 1 ≤ R }
    requires small { R ≤ MOST_CELLS }
    requires maker_there { maker < length makers.old.items }
    ensures name { IfOk result (λ name. name
        ≡ record { maker = maker; n = segment_count makers.old.items maker }) }
    ensures ok { IfOk result (λ name. Makes name (segment_holding R value)
        (contents_of_lists makers.old.items)
        (contents_of_lists makers.new.items)) }
    ensures err { IfErr result (λ e. RefusesMaking (segment_count makers.old.items maker)
        (room_of_maker makers.old.items maker) e) }
    ensures unchanged { OnErr result (contents_of_lists makers.new.items
        ≡ contents_of_lists makers.old.items) }
    ensures room { UsesMakersRoom result true maker (makers_room makers.old.items)
        (makers_room makers.new.items) }
    ensures capacity { vec_capacity makers.new ≡ vec_capacity makers.old }
{
    make_next(&mut makers[usize::from(maker)], maker, value)
}

/// Makes the next segment, which holds this value, at the end of one maker's list, and returns its
/// name. `maker` must be the list's maker, and only enters the name. Fails with `SegmentsEnd` if
/// the list has 65,535 segments or more, else with `NoMemory` if it has no room and memory is
/// refused; the list's segments then stay.
fn make_next<const R: usize>(
    list: &mut Vec<Segment<R>>,
    maker: u8,
    value: u64,
) -> Result<SegName, Refusal>
    requires positive { 1 ≤ R }
    requires small { R ≤ MOST_CELLS }
    ensures ok { IfOk result (λ name. MakesNext maker value name list.old list.new) }
    ensures err { IfErr result (λ e. RefusesMaking (length list.old.items)
        (vec_capacity list.old - vec_len list.old) e) }
    ensures unchanged { OnErr result (list.new.items ≡ list.old.items) }
    ensures room { vec_capacity list.old - vec_len list.old
        ≤ (vec_capacity list.new - vec_len list.new) + (if is_ok result then 1 else 0) }
    ensures ended { result ≡ Err Refusal.SegmentsEnd
        → vec_capacity list.new - vec_len list.new ≡ vec_capacity list.old - vec_len list.old }
{
    let n = list.len();
    if n >= MOST_SEGMENTS {
        return Err(Refusal::SegmentsEnd);
    }
    match list.push(Segment::holding(value)) {
        Err(_) => Err(Refusal::NoMemory),
        Ok(()) => Ok(SegName { maker, n: n as u32 }),
    }
}

/// Removes the maker's last segment, which must be there, and so gives its room back.
pub fn remove_segment<const R: usize>(makers: &mut Vec<Vec<Segment<R>>>, maker: u8)
    requires small { R ≤ MOST_CELLS }
    requires has_one { 0 < segment_count makers.old.items maker }
    ensures gone { Restores everywhere (Place.Whole
        (record { maker = maker; n = segment_count makers.old.items maker - 1 })) None
        (contents_of_lists makers.old.items) (contents_of_lists makers.new.items) }
    ensures room { ReturnsMakersRoom (room_used true maker) (makers_room makers.old.items)
        (makers_room makers.new.items) }
    ensures capacity { vec_capacity makers.new ≡ vec_capacity makers.old }
{
    remove_last(&mut makers[usize::from(maker)]);
}

/// Removes the last segment of one maker's list, which must not be empty, and so gives its room
/// back.
fn remove_last<const R: usize>(list: &mut Vec<Segment<R>>)
    requires small { R ≤ MOST_CELLS }
    requires has_one { 0 < length list.old.items }
    ensures items { list.new.items ≡ take (length list.old.items - 1) list.old.items }
    ensures room { vec_capacity list.new - vec_len list.new
        ≡ (vec_capacity list.old - vec_len list.old) + 1 }
{
    let _last = list.pop();
}

/// Makes room for this many more segments of the maker, which must have a list.
///
/// # Errors
///
/// Only if memory was refused for the growth. No segment changes in either case.
pub fn reserve_segments<const R: usize>(
    makers: &mut Vec<Vec<Segment<R>>>,
    maker: u8,
    more: usize,
) -> Result<(), AllocError>
    requires small { R ≤ MOST_CELLS }
    requires maker_there { maker < length makers.old.items }
    ensures unchanged { contents_of_lists makers.new.items ≡ contents_of_lists makers.old.items }
    ensures room { AddsMakersRoom result maker more (makers_room makers.old.items)
        (makers_room makers.new.items) }
    ensures capacity { vec_capacity makers.new ≡ vec_capacity makers.old }
{
    reserve(&mut makers[usize::from(maker)], more)
}

/// Gives one maker's list room for this many more segments. Fails only if memory is refused for the
/// growth. The list's segments stay in either case.
fn reserve<const R: usize>(list: &mut Vec<Segment<R>>, more: usize) -> Result<(), AllocError>
    requires { R ≤ MOST_CELLS }
    ensures ok { OnOk result (more ≤ vec_capacity list.new - vec_len list.new) }
    ensures err { OnErr result (vec_capacity list.old - vec_len list.old < more) }
    ensures unchanged { list.new.items ≡ list.old.items }
    ensures room { vec_capacity list.old - vec_len list.old
        ≤ vec_capacity list.new - vec_len list.new }
{
    list.reserve(more)
}
