//! The space, and the operations on it.

ghost use Rattle.std.specs.Prelude.{◌≡◌, ◌≢◌, ◌+◌, ◌-◌, ◌<◌, ◌≤◌, ◌↔◌, ℕ, suc, true, Some, None, is_some, Err, IsTrue, IfOk, IfErr, OnErr, length};
ghost use Rattle.rd_ring.specs.Prelude.{MOST_CELLS, root, content_at, can_hold, operand, operate, restore, segment_holding, everywhere, Operates, Makes, RefusesMaking};
ghost use Rattle.rd_cell.specs.Operations.{keeps_limits};
ghost use Rattle.rd_segments.specs.Room.{room_used, KeepsMakersRoom, UsesMakersRoom, ReturnsMakersRoom, AddsMakersRoom};
ghost use Rattle.rd_segments.specs.SpaceFields.{fresh_space};
ghost use Rattle.rd_segments.specs.Lists.{AreFreshLists};
ghost use Rattle.rd_segments.specs.Array.{array_contents, fresh_array};
ghost use Rattle.rd_segments.specs.Parts.{each_segment, contents_of_parts};
ghost use Rattle.rd_ring.specs.Segments.{counters_fit};

use super::array::ArrayParts;
use super::ends::operate_on_name;
use super::lists::{
    add_segment, find_in, operate_on_segment, remove_segment, reserve_segments, restore_to_segment,
};
use super::makers::{are_fresh_lists, fresh_space_lists};
use super::parts::{lists_from_parts, parts_of_lists};
use rd_cell::{Content, Done, Operation, Place, Refusal, SegName};
use rd_ring::{Segment, SegmentParts};
use std::alloc::{AllocError, Global};

/// The content of all places: the makers' segments, which have `R` cells, 1 to 64, the names at the
/// queue's two ends, and the array.
#[derive(Drop)]
pub struct Space<const R: usize> {
    makers: Vec<Vec<Segment<R>>>,
    qhead: SegName,
    qtail: SegName,
    array: ArrayParts,
    ghost positive: { 1 ≤ R },
    ghost small: { R ≤ MOST_CELLS },
}

impl<const R: usize> Space<R> {
    ghost use Rattle.rd_segments.specs.Space.{contents, list_capacity, list_count, making_count, room, makers_room, head_name, tail_name, array_words};

    /// Returns a fresh space for this many actors: the root is there and fresh, the queue's two
    /// ends name it, and the array is fresh. Each maker from 0 to this number has a list.
    ///
    /// # Errors
    ///
    /// Only if memory was refused for the makers' lists.
    pub fn fresh(alloc: Global, actors: u8) -> Result<Space<R>, AllocError>
        requires positive { 1 ≤ R }
        requires small { R ≤ MOST_CELLS }
        ensures ok { IfOk result (λ space. contents space ≡ fresh_space R) }
        ensures number { IfOk result (λ space. list_count space ≡ suc actors) }
    {
        let makers = fresh_space_lists(alloc, actors)?;
        Ok(Space {
            makers,
            qhead: SegName::ROOT,
            qtail: SegName::ROOT,
            array: ArrayParts::fresh(),
        })
    }

    /// Whether the space is fresh: each place has the content that it has in a fresh space.
    pub fn is_fresh(&self) -> bool
        ensures { IsTrue result ↔ (contents self.now ≡ fresh_space R) }
    {
        self.has_fresh_ends() && self.has_fresh_array_and_root()
    }

    /// Whether both of the queue's ends name the root.
    fn has_fresh_ends(&self) -> bool
        ensures { IsTrue result ↔ ((head_name self.now ≡ root) × (tail_name self.now ≡ root)) }
    {
        self.qhead == SegName::ROOT && self.qtail == SegName::ROOT
    }

    /// Whether the array is fresh, and the root is the only segment and is fresh too.
    fn has_fresh_array_and_root(&self) -> bool
        ensures { IsTrue result ↔ ((array_contents self.now.array ≡ fresh_array)
            × AreFreshLists self.now.makers.items) }
    {
        self.array.is_fresh() && are_fresh_lists(&self.makers)
    }

    /// Returns the space with these parts: element m of `segments` has maker m's segments, in the
    /// order of their making. The segments' counters must be at most 2^62.
    ///
    /// # Errors
    ///
    /// Only if memory was refused for the lists.
    pub fn from_parts(
        alloc: Global,
        segments: &Vec<Vec<SegmentParts<R>>>,
        qhead: SegName,
        qtail: SegName,
        array: ArrayParts,
    ) -> Result<Space<R>, AllocError>
        requires positive { 1 ≤ R }
        requires small { R ≤ MOST_CELLS }
        requires within { IsTrue (each_segment counters_fit segments.now.items) }
        ensures ok { IfOk result (λ space. contents space
            ≡ contents_of_parts segments.now.items qhead qtail array) }
        ensures number { IfOk result (λ space. list_count space ≡ length segments.now.items) }
    {
        let makers = lists_from_parts(alloc, segments)?;
        Ok(Space {
            makers,
            qhead,
            qtail,
            array,
        })
    }

    /// Returns the parts of each maker's segments: element m has those of maker m, in the order of
    /// their making. `from_parts` makes an equal space from these, together with the names at the
    /// queue's ends and the array.
    ///
    /// # Errors
    ///
    /// Only if memory was refused.
    pub fn segment_parts(&self, alloc: Global) -> Result<Vec<Vec<SegmentParts<R>>>, AllocError>
        ensures ok { IfOk result (λ segments.
            contents_of_parts segments.items (head_name self.now) (tail_name self.now)
            (array_words self.now) ≡ contents self.now) }
        ensures number { IfOk result (λ segments. length segments.items ≡ list_count self.now) }
    {
        parts_of_lists(alloc, &self.makers)
    }

    /// Returns the name of the segment at the queue's head.
    pub fn qhead(&self) -> SegName
        ensures { result ≡ head_name self.now }
    {
        self.qhead
    }

    /// Returns the name of the segment at the queue's tail.
    pub fn qtail(&self) -> SegName
        ensures { result ≡ tail_name self.now }
    {
        self.qtail
    }

    /// Returns a copy of the array: its two counters and its slots.
    pub fn array(&self) -> ArrayParts
        ensures { result ≡ array_words self.now }
    {
        self.array
    }

    /// Returns the content at a place, or none if the place is not there. For a cell, this is its
    /// two halves together; for the whole of a segment that is there, it is `Whole`.
    pub fn content(&self, place: Place) -> Option<Content>
        ensures { result ≡ content_at (contents self.now) place }
    {
        match place {
            Place::QHead => Some(Content::Name(self.qhead)),
            Place::QTail => Some(Content::Name(self.qtail)),
            Place::Whole(name) => match find_in(&self.makers, name) {
                None => None,
                Some(_) => Some(Content::Whole),
            },
            Place::Head(name)
            | Place::Tail(name)
            | Place::Next(name)
            | Place::Cell(name, _)
            | Place::Val(name, _)
            | Place::Idx(name, _) => match find_in(&self.makers, name) {
                None => None,
                Some(segment) => segment.content(place),
            },
            Place::ArrHead | Place::ArrTail | Place::ArrCell(_) => self.array.content(place),
        }
    }

    /// Does an operation at a place, and returns what it found, answered and wrote. `Add` must not
    /// be asked of the array, nor at any other place `AddArray` or a `CasTail` to a count above
    /// 2^62. Each maker keeps its room.
    ///
    /// # Errors
    ///
    /// `CounterEnd` for a fetch-and-add on a segment's counter that is 2^62, `ArrayEnd` for one on
    /// a counter of the array that is at least 64; `NoSuchPlace` if there is no such place, or if
    /// the operation is for another kind of content. No actor asks for either. The space is then
    /// as before.
    pub fn operate(&mut self, place: Place, operation: Operation) -> Result<Done, Refusal>
        requires { IsTrue (keeps_limits place operation) }
        ensures ok { IfOk result (λ done. Operates everywhere place operation done
            (contents self.old) (contents self.new)) }
        ensures err { IfErr result (λ e. operate place operation (operand (contents self.old) place)
            ≡ Err e) }
        ensures unchanged { OnErr result (contents self.new ≡ contents self.old) }
        ensures room { KeepsMakersRoom (makers_room self.old) (makers_room self.new) }
        ensures capacity { list_capacity self.new ≡ list_capacity self.old }
    {
        match place.segment() {
            Some(name) => operate_on_segment(&mut self.makers, name, place, operation),
            None if place.is_of_array() => self.array.operate(place, operation),
            None => match place {
                Place::QHead => operate_on_name(&mut self.qhead, place, operation),
                Place::QTail => operate_on_name(&mut self.qtail, place, operation),
                _ => Err(Refusal::NoSuchPlace),
            },
        }
    }

    /// Makes the maker's next segment, which holds this value, and returns its name. The maker must
    /// have a list. This uses room of the maker for at most one segment; the others keep theirs.
    ///
    /// # Errors
    ///
    /// `SegmentsEnd` exactly if the maker has made 65,535 or more; else `NoMemory` if memory was
    /// refused, which happens only if the maker has no room left. The space is then as before.
    pub fn make(&mut self, maker: u8, value: u64) -> Result<SegName, Refusal>
        requires { maker < list_count self.old }
        ensures name { IfOk result (λ name. name
            ≡ record { maker = maker; n = making_count self.old maker }) }
        ensures ok { IfOk result (λ name. Makes name (segment_holding R value) (contents self.old)
            (contents self.new)) }
        ensures err { IfErr result (λ e. RefusesMaking (making_count self.old maker)
            (room self.old maker) e) }
        ensures unchanged { OnErr result (contents self.new ≡ contents self.old) }
        ensures room { UsesMakersRoom result true maker (makers_room self.old)
            (makers_room self.new) }
        ensures capacity { list_capacity self.new ≡ list_capacity self.old }
    {
        add_segment(&mut self.makers, maker, value)
    }

    /// Removes the maker's last segment, which must be there, and so gives its room back.
    pub fn unmake(&mut self, maker: u8)
        requires { 0 < making_count self.old maker }
        ensures gone { contents self.new ≡ restore
            (Some (Place.Whole (record {
              maker = maker;
              n = making_count self.old maker - 1;
            }))) None (contents self.old) }
        ensures room { ReturnsMakersRoom (room_used true maker) (makers_room self.old)
            (makers_room self.new) }
        ensures capacity { list_capacity self.new ≡ list_capacity self.old }
    {
        remove_segment(&mut self.makers, maker);
    }

    /// Puts an old content back at a place. The place must be there, the content must be of its
    /// kind, and a counter at most its end: 2^62 in a segment, 64 in the array. Each maker keeps
    /// its room.
    pub fn restore(&mut self, place: Place, content: Content)
        requires there { IsTrue (is_some (operand (contents self.old) place)) }
        requires kind { IsTrue (can_hold place content) }
        ensures done { contents self.new ≡ restore (Some place) (Some content) (contents self.old) }
        ensures room { KeepsMakersRoom (makers_room self.old) (makers_room self.new) }
        ensures capacity { list_capacity self.new ≡ list_capacity self.old }
    {
        match (place.segment(), place, content) {
            (Some(name), _, _) => restore_to_segment(&mut self.makers, name, place, content),
            (None, Place::QHead, Content::Name(name)) => self.qhead = name,
            (None, Place::QTail, Content::Name(name)) => self.qtail = name,
            (None, _, _) if place.is_of_array() => self.array.restore(place, content),
            _ => unreachable!(),
        }
    }

    /// Gives a maker room for this many more segments; making them then needs no memory. The maker
    /// must have a list.
    ///
    /// # Errors
    ///
    /// Only if memory was refused for the growth. No place changes in either case.
    pub fn make_room(&mut self, maker: u8, more: usize) -> Result<(), AllocError>
        requires { maker < list_count self.old }
        ensures unchanged { contents self.new ≡ contents self.old }
        ensures room { AddsMakersRoom result maker more (makers_room self.old)
            (makers_room self.new) }
        ensures capacity { list_capacity self.new ≡ list_capacity self.old }
    {
        reserve_segments(&mut self.makers, maker, more)
    }
}
