//! Control points, calls, the acts that an actor may be asked to do, the replies of calls, and an
//! actor's record.

ghost use Rattle.std.specs.Prelude.{◌≡◌, ◌↔◌, IsTrue};
ghost use Rattle.rd_actor.specs.Actors.{idle, poised, calling};

use rd_cell::SegName;

/// A control point: the label of the row of the table that an actor executes next.
#[derive(Clone, Copy, Debug, PartialEq, Eq)]
pub enum Pc {
    /// In no call.
    Idle,
    /// Enqueue: reads the queue's tail.
    E1,
    /// Enqueue: reads the segment's next.
    E2,
    /// Enqueue: tries to move the queue's tail to the next segment.
    E3,
    /// Enqueue: fetch-and-add on the segment's tail.
    E4,
    /// Enqueue: reads the cell's value.
    E5,
    /// Enqueue: reads the cell's safe bit and index.
    E6,
    /// Enqueue: reads the segment's head, since the cell is unsafe.
    E7,
    /// Enqueue: tries to put the value into the cell.
    E8,
    /// Enqueue: reads the segment's head, to see whether the ring is full.
    E9,
    /// Enqueue: the choice whether it starves.
    E10,
    /// Enqueue: closes the ring.
    E11,
    /// Enqueue: makes a segment that holds the value.
    E12,
    /// Enqueue: tries to link the new segment.
    E13,
    /// Enqueue: tries to move the queue's tail to the new segment.
    E14,
    /// Dequeue: reads the queue's head.
    Q1,
    /// Dequeue: fetch-and-add on the segment's head.
    Q2,
    /// Dequeue: reads the cell's value.
    Q3,
    /// Dequeue: reads the cell's safe bit and index.
    Q4,
    /// Dequeue: tries to take the value out.
    Q5,
    /// Dequeue: tries to mark the cell unsafe.
    Q6,
    /// Dequeue: tries to move the empty cell on to its next round.
    Q7,
    /// Dequeue: reads the tail, to see whether anything is left after its position.
    Q8,
    /// Dequeue: the repair reads the tail.
    Q9,
    /// Dequeue: the repair reads the head.
    Q10,
    /// Dequeue: the repair reads the tail again.
    Q11,
    /// Dequeue: the repair tries to move the tail up to the head.
    Q12,
    /// Dequeue: reads the segment's next.
    Q13,
    /// Dequeue: tries to move the queue's head to the next segment.
    Q14,
    /// Enqueue on the array: fetch-and-add on its tail.
    A1,
    /// Enqueue on the array: swaps the value in.
    A2,
    /// Dequeue on the array: fetch-and-add on its head.
    B1,
    /// Dequeue on the array: swaps `Top` into the slot, and takes the value, if one was there.
    B2,
    /// Dequeue on the array: reads its tail.
    B3,
}

/// The call that an actor is in.
#[derive(Clone, Copy, Debug, PartialEq, Eq)]
pub enum Op {
    /// Enqueue of this value.
    Enq(u64),
    /// Dequeue.
    Deq,
    /// Enqueue of this value on the array.
    AEnq(u64),
    /// Dequeue on the array.
    ADeq,
}

/// What an actor does in one step.
#[derive(Clone, Copy, Debug, PartialEq, Eq)]
pub enum Act {
    /// Begins an enqueue of this value.
    Enq(u64),
    /// Begins a dequeue.
    Deq,
    /// Begins an enqueue of this value on the array.
    AEnq(u64),
    /// Begins a dequeue on the array.
    ADeq,
    /// Makes the step of the control point where the actor is.
    Go,
    /// Chooses whether an enqueue starves, and so closes the ring.
    Starve(bool),
}

/// What a call replies when it is over.
#[derive(Clone, Copy, Debug, PartialEq, Eq)]
pub enum OpReply {
    /// The value was enqueued.
    Enqueued,
    /// This value was dequeued.
    Value(u64),
    /// There was nothing to dequeue.
    Empty,
}

/// The record of one actor: its control point, its call and its words. The small fields are
/// together to keep the record short, since every step copies it and every entry of a journal keeps
/// one.
#[derive(Clone, Copy, Debug, PartialEq, Eq)]
pub struct Actor {
    /// The control point where the actor is.
    pub pc: Pc,
    /// The pass of a dequeue over its segment: Q1 sets 1, Q13 sets 2. It is 0 before a dequeue's
    /// first Q1, and in all other calls.
    pub pass: u8,
    /// The closed bit that the actor's repair read last at Q9.
    pub closed: bool,
    /// The safe bit that the actor read last from a cell.
    pub safe: bool,
    /// The segment on which the actor works.
    pub crq: SegName,
    /// The segment that the actor made last in this call.
    pub new: SegName,
    /// The segment that the actor read last as the next one.
    pub next: SegName,
    /// The call that the actor is in, if any.
    pub op: Option<Op>,
    /// The tail counter that the actor read or drew from last at E4, Q8, Q9 or A1, at most 2^62.
    pub t: u64,
    /// The head counter that the actor read or drew from last at E9, Q2, Q10 or B1, at most 2^62.
    pub h: u64,
    /// The value that the actor read last from a cell, or none.
    pub val: Option<u64>,
    /// The index that the actor read last from a cell, at most 2^62 plus the ring's size.
    pub idx: u64,
}

impl Actor {
    /// Returns the record of an actor in no call: its names are the root, its numbers 0 and its
    /// bits false, and it has no value.
    pub fn idle() -> Actor
        ensures { result ≡ idle }
    {
        Actor {
            pc: Pc::Idle,
            pass: 0,
            closed: false,
            safe: false,
            crq: SegName::ROOT,
            new: SegName::ROOT,
            next: SegName::ROOT,
            op: None,
            t: 0,
            h: 0,
            val: None,
            idx: 0,
        }
    }

    /// Whether this is the idle record: equal to `Actor::idle()` in every word.
    pub fn is_idle(&self) -> bool
        ensures { IsTrue result ↔ (self.now ≡ idle) }
    {
        *self == Actor::idle()
    }

    /// Returns the record of an actor in an enqueue of this value, about to draw a position from
    /// the root's tail. Its other words are those of the idle record.
    pub fn poised(value: u64) -> Actor
        ensures { result ≡ poised value }
    {
        Actor {
            pc: Pc::E4,
            op: Some(Op::Enq(value)),
            ..Actor::idle()
        }
    }

    /// Returns the record of an actor that begins this call at this control point. Its other words
    /// are those of the idle record.
    pub fn calling(pc: Pc, op: Op) -> Actor
        ensures { result ≡ calling pc op }
    {
        Actor {
            pc,
            op: Some(op),
            ..Actor::idle()
        }
    }
}
