//! The segment and its operations. `R` must be at most 64 wherever a segment or its cells are made.

ghost use Rattle.std.specs.Prelude.{◌≡◌, ℕ, ◌<◌, ◌≤◌, ◌↔◌, true, false, Some, None, Err, IsSome, IsTrue, IfOk, IfErr, OnErr, option_map, slice_get, length};
ghost use Rattle.rd_ring.specs.Prelude.{COUNTER_END, MOST_CELLS, SegName, Content, Add, Close, CasTail, CasNext, Cas2, root, fresh_segment, segment_holding, fresh_cell, operand, cas_answer, cas_wrote, wrote_cell};
ghost use Rattle.rd_cell.specs.declared.operations.Answer.TheVariants as Answer;
ghost use Rattle.rd_cell.specs.declared.places.Wrote.TheVariants as Wrote;

use super::parts::SegmentParts;
use rd_cell::limits::COUNTER_END;
use rd_cell::{Cell, Content, Place, Refusal, SegName};

/// A segment: a ring of `R` cells, at most 64.
#[derive(Debug, Drop)]
pub struct Segment<const R: usize> {
    head: u64,
    tail: u64,
    closed: bool,
    next: Option<SegName>,
    cells: [Cell; R],
    ghost small: { R ≤ MOST_CELLS },
    ghost sized: { length cells ≡ R },
    ghost head_within: { head ≤ COUNTER_END },
    ghost tail_within: { tail ≤ COUNTER_END },
}

impl<const R: usize> Segment<R> {
    ghost use Rattle.rd_ring.specs.Segments.{segment_contents, parts_contents, counters_fit, head_counter, tail_counter, OperatesAt, RefusesAt, RestoresAt};

    /// Returns a fresh segment: both counters are 0, it is open, no segment follows, and each cell
    /// is safe and empty, with its own number as its index.
    pub fn fresh() -> Self
        requires { R ≤ MOST_CELLS }
        ensures { (q : Place) → segment_contents result q ≡ fresh_segment R q }
    {
        Segment {
            head: 0,
            tail: 0,
            closed: false,
            next: None,
            cells: fresh_cells(),
        }
    }

    /// Whether the segment equals a fresh one: both counters are 0, it is open, no segment follows,
    /// and each cell is safe and empty, with its own number as its index.
    pub fn is_fresh(&self) -> bool
        ensures { IsTrue result ↔ ((q : Place) → segment_contents self.now q ≡ fresh_segment R q) }
    {
        self.has_fresh_words() && are_fresh_cells(&self.cells)
    }

    /// Whether both counters are 0, the ring is open, and no segment follows.
    fn has_fresh_words(&self) -> bool
        ensures { IsTrue result ↔ (((self.now.head ≡ 0) × (self.now.tail ≡ 0))
            × ((self.now.closed ≡ false) × (self.now.next ≡ None))) }
    {
        self.head == 0 && self.tail == 0 && !self.closed && self.next.is_none()
    }

    /// Returns a new segment that already holds a value: it is fresh, except that its tail counter
    /// is 1 and the value is in cell 0. `R` must be at least 1.
    pub fn holding(value: u64) -> Self
        requires positive { 1 ≤ R }
        requires small { R ≤ MOST_CELLS }
        ensures { (q : Place) → segment_contents result q ≡ segment_holding R value q }
    {
        let mut cells = fresh_cells();
        cells[0].val = Some(value);
        Segment {
            head: 0,
            tail: 1,
            closed: false,
            next: None,
            cells,
        }
    }

    /// Returns the segment with these words, whose counters must be at most 2^62.
    pub fn from_parts(parts: &SegmentParts<R>) -> Self
        requires { IsTrue (counters_fit parts.now) }
        ensures { (q : Place) → segment_contents result q ≡ parts_contents parts.now q }
    {
        Segment {
            head: parts.head,
            tail: parts.tail,
            closed: parts.closed,
            next: parts.next,
            cells: copied_cells(&parts.cells[..]),
        }
    }

    /// Returns the words of the segment; `from_parts` makes an equal segment from them.
    pub fn parts(&self) -> SegmentParts<R>
        ensures same { (q : Place) → parts_contents result q ≡ segment_contents self.now q }
        ensures within { IsTrue (counters_fit result) }
    {
        SegmentParts {
            head: self.head,
            tail: self.tail,
            closed: self.closed,
            next: self.next,
            cells: copied_cells(&self.cells[..]),
        }
    }

    /// Returns the content at a place of the segment, whichever segment the place names. For a
    /// cell, this is its two halves together. None if no segment of `R` cells has such a place, and
    /// for the whole of a segment.
    pub fn content(&self, place: Place) -> Option<Content>
        ensures { result ≡ operand (segment_contents self.now) place }
    {
        match place {
            Place::Head(_) => Some(Content::Number(self.head)),
            Place::Tail(_) => Some(Content::Tail {
                closed: self.closed,
                count: self.tail,
            }),
            Place::Next(_) => Some(Content::Next(self.next)),
            Place::Cell(_, i) => match self.cell(i) {
                None => None,
                Some(cell) => Some(Content::Cell(cell)),
            },
            Place::Val(_, i) => match self.cell(i) {
                None => None,
                Some(cell) => Some(Content::Val(cell.val)),
            },
            Place::Idx(_, i) => match self.cell(i) {
                None => None,
                Some(cell) => Some(Content::Idx {
                    safe: cell.safe,
                    idx: cell.idx,
                }),
            },
            _ => None,
        }
    }

    /// Returns the name of the segment that follows, or none.
    pub fn next(&self) -> Option<SegName>
        ensures { (s : SegName) → segment_contents self.now (Place.Next s)
            ≡ Some (Content.Next result) }
    {
        self.next
    }

    /// Returns the cell of this number, counted from 0, or none if the number is `R` or more.
    pub fn cell(&self, i: u8) -> Option<Cell>
        ensures value { (s : SegName) → operand (segment_contents self.now) (Place.Cell s i)
            ≡ option_map Content.Cell result }
        ensures value_half { (s : SegName) → segment_contents self.now (Place.Val s i)
            ≡ option_map (λ c. Content.Val c.val) result }
        ensures index_half { (s : SegName) → segment_contents self.now (Place.Idx s i)
            ≡ option_map (λ c. Content.Idx c.safe c.idx) result }
        ensures there { IsSome result ↔ (i < R) }
    {
        self.cells.get(i as usize).copied()
    }

    /// Adds 1 to the head counter (fetch-and-add), and returns its old value.
    ///
    /// # Errors
    ///
    /// `CounterEnd` exactly if the counter is 2^62; the segment is then as before.
    pub fn add_head(&mut self) -> Result<u64, Refusal>
        ensures ok { IfOk result (λ n. OperatesAt Place.Head Add (Content.Number n)
            (Answer.Found (Content.Number n)) Wrote.Place self.old self.new) }
        ensures err { IfErr result (λ e. RefusesAt Place.Head Add self.old e) }
        ensures end { (result ≡ Err Refusal.CounterEnd) ↔ (head_counter self.old ≡ COUNTER_END) }
        ensures unchanged { OnErr result (self.new ≡ self.old) }
    {
        if self.head == COUNTER_END {
            return Err(Refusal::CounterEnd);
        }
        let old = self.head;
        self.head += 1;
        Ok(old)
    }

    /// Adds 1 to the tail counter (fetch-and-add), and returns the closed bit and the old counter.
    ///
    /// # Errors
    ///
    /// `CounterEnd` exactly if the counter is 2^62; the segment is then as before.
    pub fn add_tail(&mut self) -> Result<(bool, u64), Refusal>
        ensures ok { IfOk result (λ old. OperatesAt Place.Tail Add (Content.Tail old.0 old.1)
            (Answer.Found (Content.Tail old.0 old.1)) Wrote.Place self.old self.new) }
        ensures err { IfErr result (λ e. RefusesAt Place.Tail Add self.old e) }
        ensures end { (result ≡ Err Refusal.CounterEnd) ↔ (tail_counter self.old ≡ COUNTER_END) }
        ensures unchanged { OnErr result (self.new ≡ self.old) }
    {
        if self.tail == COUNTER_END {
            return Err(Refusal::CounterEnd);
        }
        let old = (self.closed, self.tail);
        self.tail += 1;
        Ok(old)
    }

    /// Sets the closed bit (test-and-set), and returns whether it was set before.
    pub fn close(&mut self) -> bool
        ensures { OperatesAt Place.Tail Close (Content.Tail result (tail_counter self.old))
            (Answer.WasClosed result) Wrote.Place self.old self.new }
    {
        let old = self.closed;
        self.closed = true;
        old
    }

    /// Changes the tail from open at the count `old` to open at the count `new` (compare-and-swap),
    /// and returns whether it won. If it lost, the tail stays. `new` must be at most 2^62.
    pub fn cas_tail(&mut self, old: u64, new: u64) -> bool
        requires { new ≤ COUNTER_END }
        ensures { (c : Content) → segment_contents self.old (Place.Tail root) ≡ Some c
            → OperatesAt Place.Tail (CasTail old new) c (cas_answer result)
            (cas_wrote result Wrote.Place) self.old self.new }
    {
        let won = !self.closed && self.tail == old;
        if won {
            self.tail = new;
        }
        won
    }

    /// Changes the next from none to this name (compare-and-swap), and returns whether it won. If
    /// it lost, the next stays.
    pub fn cas_next(&mut self, new: SegName) -> bool
        ensures { (c : Content) → segment_contents self.old (Place.Next root) ≡ Some c
            → OperatesAt Place.Next (CasNext new) c (cas_answer result)
            (cas_wrote result Wrote.Place) self.old self.new }
    {
        let won = self.next.is_none();
        if won {
            self.next = Some(new);
        }
        won
    }

    /// Changes the cell of this number from `old` to `new` (CAS2), and returns whether it won. If
    /// it lost, the cell stays. The number must be below `R`.
    pub fn cas2_cell(&mut self, i: u8, old: Cell, new: Cell) -> bool
        requires { i < R }
        ensures { (c : Content) → operand (segment_contents self.old) (Place.Cell root i) ≡ Some c
            → OperatesAt (λ s. Place.Cell s i) (Cas2 old new) c (cas_answer result)
            (cas_wrote result (wrote_cell old new)) self.old self.new }
    {
        let mut cell = self.cells[usize::from(i)];
        let won = cell.cas2(old, new);
        self.cells[usize::from(i)] = cell;
        won
    }

    /// Sets the head counter to this old value, which must be at most 2^62. This undoes a write of
    /// the head.
    pub fn restore_head(&mut self, count: u64)
        requires { count ≤ COUNTER_END }
        ensures { RestoresAt Place.Head (Content.Number count) self.old self.new }
    {
        self.head = count;
    }

    /// Sets the tail's closed bit and counter to these old values. The counter must be at most
    /// 2^62. This undoes a write of the tail.
    pub fn restore_tail(&mut self, closed: bool, count: u64)
        requires { count ≤ COUNTER_END }
        ensures { RestoresAt Place.Tail (Content.Tail closed count) self.old self.new }
    {
        self.closed = closed;
        self.tail = count;
    }

    /// Sets the next to this old name, or to none. This undoes a write of the next.
    pub fn restore_next(&mut self, next: Option<SegName>)
        ensures { RestoresAt Place.Next (Content.Next next) self.old self.new }
    {
        self.next = next;
    }

    /// Sets the cell of this number, which must be below `R`, to this old one. This undoes a write
    /// of the whole cell.
    pub fn restore_cell(&mut self, i: u8, cell: Cell)
        requires { i < R }
        ensures { RestoresAt (λ s. Place.Cell s i) (Content.Cell cell) self.old self.new }
    {
        self.cells[usize::from(i)] = cell;
    }

    /// Sets the value of the cell of this number, which must be below `R`, to this old one.
    /// Operations at a value half only read, so this undoes no write: it is for `restore`, which
    /// takes every place of the segment.
    pub fn restore_value(&mut self, i: u8, val: Option<u64>)
        requires { i < R }
        ensures { RestoresAt (λ s. Place.Val s i) (Content.Val val) self.old self.new }
    {
        self.cells[usize::from(i)].val = val;
    }

    /// Sets the safe bit and the index of the cell of this number, which must be below `R`, to
    /// these old ones. Operations at an index half only read, so this undoes no write: it is for
    /// `restore`, which takes every place of the segment.
    pub fn restore_index(&mut self, i: u8, safe: bool, idx: u64)
        requires { i < R }
        ensures { RestoresAt (λ s. Place.Idx s i) (Content.Idx safe idx) self.old self.new }
    {
        let cell = &mut self.cells[usize::from(i)];
        cell.safe = safe;
        cell.idx = idx;
    }
}

/// Returns the cells of a fresh segment.
fn fresh_cells<const R: usize>() -> [Cell; R]
    requires { R ≤ MOST_CELLS }
    ensures { (u : ℕ) → u < R → slice_get result u ≡ Some (fresh_cell u) }
{
    let mut cells = [Cell::fresh(0); R];
    for i in 0..R {
        cells[i] = Cell::fresh(i as u64);
    }
    cells
}

/// Whether these are the cells of a fresh segment.
fn are_fresh_cells(cells: &[Cell]) -> bool
    ensures { IsTrue result ↔ ((u : ℕ) → u < length cells.now
        → slice_get cells.now u ≡ Some (fresh_cell u)) }
{
    for i in 0..cells.len() {
        if cells[i] != Cell::fresh(i as u64) {
            return false;
        }
    }
    true
}

/// Returns a copy of these cells, of which there must be just `R`.
fn copied_cells<const R: usize>(given: &[Cell]) -> [Cell; R]
    requires small { R ≤ MOST_CELLS }
    requires sized { length given.now ≡ R }
    ensures { (u : ℕ) → u < R → slice_get result u ≡ slice_get given.now u }
{
    let mut cells = [Cell::fresh(0); R];
    for i in 0..R {
        cells[i] = given[i];
    }
    cells
}
