//! Segment names, the twelve kinds of place, which places overlap, and which of them an access
//! wrote.

ghost use Rattle.std.specs.Prelude.{◌≡◌};
ghost use Rattle.rd_cell.specs.Places.{covers, is_of_array, is_of_segment, is_of_cell, overlaps, some_overlap, segment_of, index_half, is_nothing, written};

/// The name of a segment: (maker, n) is the segment that actor `maker` made as its n-th, counted
/// from 0. The root is (0, 0).
#[derive(Clone, Copy, Debug, PartialEq, Eq)]
pub struct SegName {
    /// The number of the actor that made the segment, 1 to 16, or 0 for the root.
    pub maker: u8,
    /// The number of segments that the maker had made before, 0 to 65,534.
    pub n: u32,
}

impl SegName {
    /// The segment that is there from the start.
    pub const ROOT: SegName = SegName { maker: 0, n: 0 };
}

/// What one atomic step reads or writes.
#[derive(Clone, Copy, Debug, PartialEq, Eq)]
pub enum Place {
    /// The name of the segment at the head of the queue.
    QHead,
    /// The name of the segment at the tail of the queue.
    QTail,
    /// A segment's head counter.
    Head(SegName),
    /// A segment's tail counter with the closed bit.
    Tail(SegName),
    /// The name of the segment that follows a segment, or none.
    Next(SegName),
    /// One cell of a segment, by its number from 0: its two halves together, on which a double-word
    /// compare-and-swap works.
    Cell(SegName, u8),
    /// The value half of a cell.
    Val(SegName, u8),
    /// The index half of a cell: its safe bit and its index.
    Idx(SegName, u8),
    /// All places of one segment together: what its making writes.
    Whole(SegName),
    /// The head counter of the array queue.
    ArrHead,
    /// The tail counter of the array queue.
    ArrTail,
    /// One slot of the array queue, 0 to 63.
    ArrCell(u8),
}

/// Which part of its place an access wrote.
#[derive(Clone, Copy, Debug, PartialEq, Eq)]
pub enum Wrote {
    /// Nothing: it only read, its compare-and-swap lost, or there was no access.
    Nothing,
    /// All that the place names.
    Place,
    /// Only the index half of a cell: the value stayed the same.
    Index,
}

impl Wrote {
    /// Whether the access wrote nothing.
    pub fn is_nothing(self) -> bool
        ensures { result ≡ is_nothing self }
    {
        matches!(self, Wrote::Nothing)
    }
}

impl Place {
    /// Returns the segment to which this place belongs; none for the queue's ends, the array's
    /// places and the whole of a segment.
    pub fn segment(self) -> Option<SegName>
        ensures { result ≡ segment_of self }
    {
        match self {
            Place::Head(name)
            | Place::Tail(name)
            | Place::Next(name)
            | Place::Cell(name, _)
            | Place::Val(name, _)
            | Place::Idx(name, _) => Some(name),
            _ => None,
        }
    }

    /// Whether this is a counter or a slot of the array, whatever the slot's number.
    pub fn is_of_array(self) -> bool
        ensures { result ≡ is_of_array self }
    {
        matches!(self, Place::ArrHead | Place::ArrTail | Place::ArrCell(_))
    }

    /// Returns the index half of a cell, and any other place unchanged.
    pub fn index_half(self) -> Place
        ensures { result ≡ index_half self }
    {
        match self {
            Place::Cell(name, i) => Place::Idx(name, i),
            _ => self,
        }
    }

    /// Whether `other` is this place or a part of it: they are equal, `other` is a half of this
    /// cell, or this is the whole of the segment of `other`.
    #[inline(always)]
    fn covers(self, other: Place) -> bool
        ensures { result ≡ covers self other }
    {
        match self {
            Place::Whole(name) => other.is_of_segment(name),
            Place::Cell(name, i) => other.is_of_cell(name, i),
            _ => self == other,
        }
    }

    /// Whether this is cell `i` of the segment of this name, or one of that cell's two halves.
    fn is_of_cell(self, name: SegName, i: u8) -> bool
        ensures { result ≡ is_of_cell name i self }
    {
        match self {
            Place::Cell(of, j) | Place::Val(of, j) | Place::Idx(of, j) => name == of && i == j,
            _ => false,
        }
    }

    /// Whether this belongs to the segment of this name, or is the whole of it.
    fn is_of_segment(self, name: SegName) -> bool
        ensures { result ≡ is_of_segment name self }
    {
        match self {
            Place::Head(of)
            | Place::Tail(of)
            | Place::Next(of)
            | Place::Cell(of, _)
            | Place::Val(of, _)
            | Place::Idx(of, _)
            | Place::Whole(of) => name == of,
            Place::QHead | Place::QTail | Place::ArrHead | Place::ArrTail | Place::ArrCell(_) =>
                false,
        }
    }
}

/// Returns the place that names what an access at this place wrote: the place itself, or only the
/// index half of this cell; none if the access wrote nothing or had no place.
#[inline(always)]
pub fn written(place: Option<Place>, wrote: Wrote) -> Option<Place>
    ensures { result ≡ written place wrote }
{
    let place = place?;
    match wrote {
        Wrote::Nothing => None,
        Wrote::Place => Some(place),
        Wrote::Index => Some(place.index_half()),
    }
}

/// Whether two places overlap: they are equal, one is a cell and the other one of its halves, or
/// one is the whole of the other's segment.
#[inline(always)]
pub fn overlaps(a: Place, b: Place) -> bool
    ensures { result ≡ overlaps a b }
{
    // Two places are compared only once.
    match a {
        Place::Whole(name) => b.is_of_segment(name),
        Place::Cell(name, i) => b.is_of_cell(name, i) || b.covers(a),
        _ => b.covers(a),
    }
}

/// Whether there are two places, and they overlap.
#[inline(always)]
pub fn some_overlap(a: Option<Place>, b: Option<Place>) -> bool
    ensures { result ≡ some_overlap a b }
{
    match (a, b) {
        (Some(p), Some(q)) => overlaps(p, q),
        _ => false,
    }
}
