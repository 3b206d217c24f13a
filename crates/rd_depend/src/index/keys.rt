//! Keys: the places and segments for which lists of positions are kept. A step at a cell is kept
//! under both of its halves.
//!
//! Each key is hashed as one number, since a step looks all of its keys up.

ghost use Rattle.std.specs.Prelude.{◌≡◌, ◌+◌, ◌*◌, ◌<◌};
ghost use Rattle.std.specs.Hash as fed;
ghost use Rattle.std.specs.Cmp.{partial_equiv_from_equiv};
ghost use Rattle.rd_cell.specs.Places.{index_half};
ghost use Rattle.rd_depend.specs.Keys.{key_eq, key_number, search_key, place_number, packed, segment_key_of_place, value_key_of_place, whole_key, is_value_written};
ghost use Rattle.rd_depend.specs.KeyLaws.{key_equiv, key_number-same};

use rd_cell::{Place, SegName, Wrote};
use std::hash::{Hash, Hasher};

/// What a list of positions is kept for, apart from the actors: a place or a segment.
#[derive(Clone, Copy, Debug)]
pub enum Key {
    /// For the steps at this place; if it is a half of a cell, also for those at the cell.
    At(Place),
    /// For the steps at the places of this segment, and at the whole of it.
    In(SegName),
}

impl Key {
    /// Returns the key of the place itself; for a cell, the key of its index half.
    pub fn of_place(place: Place) -> Key
        ensures { result ≡ Key.At (index_half place) }
    {
        Key::At(place.index_half())
    }

    /// Returns the key of the place's value half; `None` if the place isn't a cell.
    pub fn of_value(place: Place) -> Option<Key>
        ensures { result ≡ value_key_of_place place }
    {
        match place {
            Place::Cell(name, index) => Some(Key::At(Place::Val(name, index))),
            _ => None,
        }
    }

    /// Returns the key of the place's segment, also for the whole of a segment; `None` for the
    /// queue's ends and the array.
    pub fn of_segment(place: Place) -> Option<Key>
        ensures { result ≡ segment_key_of_place place }
    {
        match place {
            Place::Head(name)
            | Place::Tail(name)
            | Place::Next(name)
            | Place::Cell(name, _)
            | Place::Val(name, _)
            | Place::Idx(name, _)
            | Place::Whole(name) => Some(Key::In(name)),
            Place::QHead | Place::QTail | Place::ArrHead | Place::ArrTail | Place::ArrCell(_) =>
                None,
        }
    }

    /// Returns the key under which a search finds the steps at what a place names, except at the
    /// value half of a cell. The whole of a segment has the segment's key, a cell the key of its
    /// index half, and any other place its own.
    pub(crate) fn for_search(place: Place) -> Key
        ensures { result ≡ search_key place }
    {
        match place {
            Place::Whole(name) => Key::In(name),
            _ => Key::At(place.index_half()),
        }
    }

    /// Returns the key of the whole of the segment to which the place belongs; `None` for the
    /// queue's ends, the array's places and the whole of a segment. A search for the steps at a
    /// place looks there for the making of its segment.
    pub(crate) fn of_whole(place: Place) -> Option<Key>
        ensures { result ≡ whole_key place }
    {
        match place.segment() {
            None => None,
            Some(name) => Some(Key::At(Place::Whole(name))),
        }
    }

    /// Returns the number as which the key is hashed. Different keys have different numbers.
    #[inline(always)]
    pub(crate) fn hash_number(&self) -> u64
        ensures { result ≡ key_number self.now }
    {
        match *self {
            Key::At(place) => place_number(place),
            Key::In(name) => packed(10, name, 0),
        }
    }
}

/// Whether an access to a cell that wrote this part of it wrote the value half.
pub fn is_value_written(wrote: Wrote) -> bool
    ensures { result ≡ is_value_written wrote }
{
    matches!(wrote, Wrote::Place)
}

/// Returns the number as which the key of a place itself, `At`, is hashed.
#[inline(always)]
fn place_number(place: Place) -> u64
    ensures { result ≡ place_number place }
{
    match place {
        Place::QHead => 0,
        Place::QTail => 1,
        Place::Head(name) => packed(2, name, 0),
        Place::Tail(name) => packed(3, name, 0),
        Place::Next(name) => packed(4, name, 0),
        Place::Cell(name, index) => packed(5, name, index),
        Place::Whole(name) => packed(6, name, 0),
        Place::ArrHead => 7,
        Place::ArrTail => 8,
        Place::ArrCell(index) => packed(9, SegName::ROOT, index),
        Place::Val(name, index) => packed(11, name, index),
        Place::Idx(name, index) => packed(12, name, index),
    }
}

/// Packs a kind of key, an index and a segment's name into one number below 2^56, each into bits of
/// its own. So different arguments give different numbers. A kind without an index or a segment
/// passes 0 or the root.
fn packed(kind: u8, name: SegName, index: u8) -> u64
    ensures { result ≡ packed kind name index }
{
    let within = u64::from(kind) * 256 + u64::from(index);
    (within * 256 + u64::from(name.maker)) * 4_294_967_296 + u64::from(name.n)
}

impl PartialEq for Key {
    ghost eq = { key_eq };

    ghost laws = { partial_equiv_from_equiv key_equiv };

    /// Whether both are keys of the same place, or both of the same segment.
    #[inline(always)]
    fn eq(&self, other: &Key) -> bool {
        match (*self, *other) {
            (Key::At(p), Key::At(q)) => p == q,
            (Key::In(s), Key::In(t)) => s == t,
            _ => false,
        }
    }
}

impl Eq for Key {
    ghost laws = { key_equiv };
}

impl Hash for Key {
    ghost hash_input = { λ k. fed.u64 (key_number k) };

    ghost respects_eq = { key_number-same };

    /// Hashes the key as one number. So a look-up costs one call of the hasher.
    fn hash<H: Hasher>(&self, state: &mut H) {
        state.write_u64(self.hash_number());
    }
}
