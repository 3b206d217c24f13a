//! The table of control points: the access for which an actor asks at each, and how it goes on.
//!
//! It has one row for each control point. `need` has the column of accesses, `after` those of the
//! words set and of the next control point. `need_at` and `after_at` list the rows; the methods
//! below them make the records that rows leave, and the places and operations for which they ask.
//! All are over rings of `R` cells, which must be 1 to 64.

ghost use Rattle.std.specs.Prelude.{◌≡◌, ◌+◌, ◌%◌, ◌^◌, ◌<◌, ◌≤◌, true, false, nat_le, if◌then◌else◌, Some, None};
ghost use Rattle.rd_cell.specs.declared.limits.TheConstants.{MOST_CELLS};
ghost use Rattle.rd_cell.specs.declared.operations.Operation.TheVariants.{CasName, CasTail, Cas2, Swap};
ghost use Rattle.rd_actor.specs.Actors.{idle};
ghost use Rattle.rd_cell.specs.Cells.{cell_with};
ghost use Rattle.rd_actor.specs.Table.{value_to_put, need, need_at, IsRepresentable, IsRepresentableAt, after, after_at, pc_after_empty_pass, after_take, after_enqueue_reads_index, after_dequeue_reads_index, after_repair_check};

use super::actors::{Act, Actor, Op, OpReply, Pc};
use rd_cell::{Access, Answer, ArrSlot, Cell, Content, Operation, Place, Refusal, SegName};

/// Returns the one access of the step that the actor makes by this act, over rings of `R` cells, 1
/// to 64. The numbers in it fit the program's words for every actor of a well-formed world. For
/// other actors, an index of 2^64 or more becomes 2^64 - 1 (Q5, Q7), and a slot above 255 becomes
/// slot 255 (A2, B2).
///
/// # Errors
///
/// In this order: `NotIdle` for a call by an actor that is in one; `Idle` for a step or a choice by
/// an actor that is in no call; `NeedsChoice` for a step if a choice is due; `NoChoice` for a
/// choice if none is.
pub fn need<const R: usize>(actor: &Actor, act: Act) -> Result<Access, Refusal>
    requires positive { 1 ≤ R }
    requires small { R ≤ MOST_CELLS }
    ensures { IsRepresentable R actor.now act → result ≡ need R actor.now act }
{
    match (act, actor.pc) {
        (Act::Enq(_) | Act::Deq | Act::AEnq(_) | Act::ADeq, Pc::Idle) => Ok(Access::NoPlace),
        (Act::Enq(_) | Act::Deq | Act::AEnq(_) | Act::ADeq, _) => Err(Refusal::NotIdle),
        (Act::Go | Act::Starve(_), Pc::Idle) => Err(Refusal::Idle),
        (Act::Go, Pc::E10) => Err(Refusal::NeedsChoice),
        (Act::Starve(_), Pc::E10) => Ok(Access::NoPlace),
        (Act::Starve(_), _) => Err(Refusal::NoChoice),
        (Act::Go, _) => actor.need_at::<R>(),
    }
}

/// Returns the actor's next record after this act, whose access got this answer, over rings of `R`
/// cells, 1 to 64, and the call's reply if the step ended the call. It doesn't ask whether `need`
/// refuses the act. After a `Go`, an answer for which the row has no case leaves the record as it
/// is.
pub fn after<const R: usize>(actor: &Actor, act: Act, answer: Answer) -> (Actor, Option<OpReply>)
    requires { R ≤ MOST_CELLS }
    ensures { result ≡ after R actor.now act answer }
{
    match act {
        Act::Enq(value) => (Actor::calling(Pc::E1, Op::Enq(value)), None),
        Act::Deq => (Actor::calling(Pc::Q1, Op::Deq), None),
        Act::AEnq(value) => (Actor::calling(Pc::A1, Op::AEnq(value)), None),
        Act::ADeq => (Actor::calling(Pc::B1, Op::ADeq), None),
        Act::Go => actor.after_at::<R>(answer),
        Act::Starve(starves) => (actor.with_pc(if starves { Pc::E11 } else { Pc::E4 }), None),
    }
}

impl Actor {
    /// Returns the access for which this actor asks by the act `Go` at its control point. Numbers
    /// that don't fit the program's words become others, as `need` says. Fails with `Idle` in no
    /// call, and with `NeedsChoice` at E10.
    fn need_at<const R: usize>(&self) -> Result<Access, Refusal>
        requires positive { 1 ≤ R }
        requires small { R ≤ MOST_CELLS }
        ensures { IsRepresentableAt R self.now.pc self.now
            → result ≡ need_at R self.now.pc self.now }
    {
        let crq = self.crq;
        match self.pc {
            Pc::E1 => Ok(Access::At(Place::QTail, Operation::Read)),
            Pc::E2 | Pc::Q13 => Ok(Access::At(Place::Next(crq), Operation::Read)),
            Pc::E3 => Ok(Access::At(Place::QTail, self.cas_name(self.next))),
            Pc::E4 => Ok(Access::At(Place::Tail(crq), Operation::Add)),
            Pc::E5 => Ok(Access::At(
                Place::Val(crq, cell_number::<R>(self.t)),
                Operation::ReadValue,
            )),
            Pc::E6 => Ok(Access::At(
                Place::Idx(crq, cell_number::<R>(self.t)),
                Operation::ReadSafeAndIndex,
            )),
            Pc::E7 | Pc::E9 | Pc::Q10 => Ok(Access::At(Place::Head(crq), Operation::Read)),
            Pc::E8 => Ok(Access::At(self.cell_at::<R>(self.t), self.cas2_to_put())),
            Pc::E10 => Err(Refusal::NeedsChoice),
            Pc::E11 => Ok(Access::At(Place::Tail(crq), Operation::Close)),
            Pc::E12 => Ok(Access::Make(value_to_put(self.op))),
            Pc::E13 => Ok(Access::At(Place::Next(crq), Operation::CasNext(self.new))),
            Pc::E14 => Ok(Access::At(Place::QTail, self.cas_name(self.new))),
            Pc::Q1 => Ok(Access::At(Place::QHead, Operation::Read)),
            Pc::Q2 => Ok(Access::At(Place::Head(crq), Operation::Add)),
            Pc::Q3 => Ok(Access::At(
                Place::Val(crq, cell_number::<R>(self.h)),
                Operation::ReadValue,
            )),
            Pc::Q4 => Ok(Access::At(
                Place::Idx(crq, cell_number::<R>(self.h)),
                Operation::ReadSafeAndIndex,
            )),
            Pc::Q5 => Ok(Access::At(
                self.cell_at::<R>(self.h),
                self.cas2_to_move_on::<R>(self.val),
            )),
            Pc::Q6 => Ok(Access::At(self.cell_at::<R>(self.h), self.cas2_to_mark_unsafe())),
            Pc::Q7 => Ok(Access::At(self.cell_at::<R>(self.h), self.cas2_to_move_on::<R>(None))),
            Pc::Q8 | Pc::Q9 | Pc::Q11 => Ok(Access::At(Place::Tail(crq), Operation::Read)),
            Pc::Q12 => Ok(Access::At(Place::Tail(crq), self.cas_to_raise_tail())),
            Pc::Q14 => Ok(Access::At(Place::QHead, self.cas_name(self.next))),
            Pc::A1 => Ok(Access::At(Place::ArrTail, Operation::AddArray)),
            Pc::A2 => Ok(Access::At(slot_at(self.t), self.swap_to_put())),
            Pc::B1 => Ok(Access::At(Place::ArrHead, Operation::AddArray)),
            Pc::B2 => Ok(Access::At(slot_at(self.h), Operation::Swap(ArrSlot::Top))),
            Pc::B3 => Ok(Access::At(Place::ArrTail, Operation::Read)),
            Pc::Idle => Err(Refusal::Idle),
        }
    }

    /// Returns the actor's next record when it goes on from its control point with this answer, and
    /// its reply if its call is over. An answer for which the row has no case leaves the record as
    /// it is.
    fn after_at<const R: usize>(&self, answer: Answer) -> (Actor, Option<OpReply>)
        requires { R ≤ MOST_CELLS }
        ensures { result ≡ after_at R self.now.pc self.now answer }
    {
        let next = match (self.pc, answer) {
            (Pc::E1, Answer::Found(Content::Name(name))) => self.after_enqueue_finds_tail(name),
            (Pc::E2, Answer::Found(Content::Next(Some(name)))) => self.after_enqueue_finds_next(
                name,
            ),
            (Pc::E2, Answer::Found(Content::Next(None))) => self.with_pc(Pc::E4),
            (Pc::E3, _) => self.with_pc(Pc::E1),
            (Pc::E4, Answer::Found(Content::Tail { closed, count })) => self.after_tail_add(
                closed, count,
            ),
            (Pc::E5, Answer::Value(val)) => self.with_value(val, Pc::E6),
            (Pc::E6, Answer::SafeAndIndex { safe, idx }) => self.after_enqueue_reads_index(
                safe, idx,
            ),
            (Pc::E7, Answer::Found(Content::Number(head))) => self.after_unsafe_check(head),
            (Pc::E8, Answer::Won) => return (Actor::idle(), Some(OpReply::Enqueued)),
            (Pc::E8, Answer::Lost) => self.with_pc(Pc::E9),
            (Pc::E9, Answer::Found(Content::Number(head))) => self.after_full_check::<R>(head),
            (Pc::E11, _) => self.with_pc(Pc::E12),
            (Pc::E12, Answer::Made(name)) => self.after_segment_made(name),
            (Pc::E13, Answer::Won) => self.with_pc(Pc::E14),
            (Pc::E13, Answer::Lost) => self.with_pc(Pc::E1),
            (Pc::E14, _) => return (Actor::idle(), Some(OpReply::Enqueued)),
            (Pc::Q1, Answer::Found(Content::Name(name))) => self.after_dequeue_finds_head(name),
            (Pc::Q2, Answer::Found(Content::Number(head))) => self.with_head(head, Pc::Q3),
            (Pc::Q3, Answer::Value(val)) => self.with_value(val, Pc::Q4),
            (Pc::Q4, Answer::SafeAndIndex { safe, idx }) => self.after_dequeue_reads_index(
                safe, idx,
            ),
            (Pc::Q5, Answer::Won) => return self.after_take(),
            (Pc::Q5 | Pc::Q6 | Pc::Q7, Answer::Lost) => self.with_pc(Pc::Q3),
            (Pc::Q6 | Pc::Q7, Answer::Won) => self.with_pc(Pc::Q8),
            (Pc::Q8, Answer::Found(Content::Tail { count, .. })) => self.after_empty_check(count),
            (Pc::Q9, Answer::Found(Content::Tail { closed, count })) =>
                self.after_repair_reads_tail(closed, count),
            (Pc::Q10, Answer::Found(Content::Number(head))) => self.with_head(head, Pc::Q11),
            (Pc::Q11, Answer::Found(Content::Tail { closed, count })) => self.after_repair_check(
                closed, count,
            ),
            (Pc::Q12, Answer::Won) => self.with_pc(self.pc_after_empty_pass()),
            (Pc::Q12, Answer::Lost) => self.with_pc(Pc::Q9),
            (Pc::Q13, Answer::Found(Content::Next(None))) => return (
                Actor::idle(),
                Some(OpReply::Empty),
            ),
            (Pc::Q13, Answer::Found(Content::Next(Some(name)))) => self.after_dequeue_finds_next(
                name,
            ),
            (Pc::Q14, _) => self.with_pc(Pc::Q1),
            (Pc::A1, Answer::Found(Content::Number(tail))) => self.after_array_tail_add(tail),
            (Pc::A2, Answer::Found(Content::Slot(ArrSlot::Empty))) => return (
                Actor::idle(),
                Some(OpReply::Enqueued),
            ),
            (Pc::A2, Answer::Found(Content::Slot(_))) => self.with_pc(Pc::A1),
            (Pc::B1, Answer::Found(Content::Number(head))) => self.with_head(head, Pc::B2),
            (Pc::B2, Answer::Found(Content::Slot(ArrSlot::Value(value)))) => return (
                Actor::idle(),
                Some(OpReply::Value(value)),
            ),
            (Pc::B2, Answer::Found(Content::Slot(_))) => self.with_pc(Pc::B3),
            (Pc::B3, Answer::Found(Content::Number(tail))) => return self.after_array_empty_check(
                tail,
            ),
            (Pc::Idle | Pc::E10, _) => *self,
            _ => *self,
        };
        (next, None)
    }

    /// Returns the actor's record at this control point, with its other words as they are.
    fn with_pc(&self, pc: Pc) -> Actor
        ensures { result ≡ record self.now { pc = pc } }
    {
        Actor { pc, ..*self }
    }

    /// Returns the record after E1: the enqueue works on this segment, which the queue's tail
    /// named, and goes on to read its next.
    fn after_enqueue_finds_tail(&self, name: SegName) -> Actor
        ensures { result ≡ record self.now { crq = name; pc = Pc.E2 } }
    {
        Actor {
            crq: name,
            pc: Pc::E2,
            ..*self
        }
    }

    /// Returns the record after an E2 that read this next segment: the enqueue goes on to move the
    /// queue's tail to it.
    fn after_enqueue_finds_next(&self, name: SegName) -> Actor
        ensures { result ≡ record self.now { next = name; pc = Pc.E3 } }
    {
        Actor {
            next: name,
            pc: Pc::E3,
            ..*self
        }
    }

    /// Returns the record after E4: the enqueue drew this position, and goes on to its cell, or to
    /// make a segment if the ring is closed.
    fn after_tail_add(&self, closed: bool, count: u64) -> Actor
        ensures { result ≡ record self.now { t = count; pc = if closed then Pc.E12 else Pc.E5 } }
    {
        Actor {
            t: count,
            pc: if closed { Pc::E12 } else { Pc::E5 },
            ..*self
        }
    }

    /// Returns the record after E5 or Q3: the actor read this value, or none, in its cell and goes
    /// on to `pc`.
    fn with_value(&self, val: Option<u64>, pc: Pc) -> Actor
        ensures { result ≡ record self.now { val = val; pc = pc } }
    {
        Actor { val, pc, ..*self }
    }

    /// Returns the record after E6: the enqueue tries its cell if the cell is empty and its index
    /// is at most the position; an unsafe cell only after a look at the head. Else it goes on to
    /// see whether the ring is full.
    fn after_enqueue_reads_index(&self, safe: bool, idx: u64) -> Actor
        ensures { result ≡ after_enqueue_reads_index self.now safe idx }
    {
        let pc = if self.val.is_none() && idx <= self.t {
            if safe { Pc::E8 } else { Pc::E7 }
        } else {
            Pc::E9
        };
        Actor {
            safe,
            idx,
            pc,
            ..*self
        }
    }

    /// Returns the record after E7: the enqueue tries its unsafe cell if this head is at most its
    /// position, else it goes on to see whether the ring is full.
    fn after_unsafe_check(&self, head: u64) -> Actor
        ensures { result ≡ record self.now {
          pc = if nat_le head self.now.t then Pc.E8 else Pc.E9;
        } }
    {
        let pc = if head <= self.t { Pc::E8 } else { Pc::E9 };
        Actor { pc, ..*self }
    }

    /// Returns the record after E9: the enqueue goes on to close the ring if its position is at
    /// least `R` past this head, so the ring is full; else to choose whether it starves.
    fn after_full_check<const R: usize>(&self, head: u64) -> Actor
        requires { R ≤ MOST_CELLS }
        ensures { result ≡ record self.now {
          h = head;
          pc = if nat_le (head + R) self.now.t then Pc.E11 else Pc.E10;
        } }
    {
        // This is `head + R <= t`, whose sum could overflow.
        let full = head <= self.t && R as u64 <= self.t - head;
        let pc = if full { Pc::E11 } else { Pc::E10 };
        Actor {
            h: head,
            pc,
            ..*self
        }
    }

    /// Returns the record after E12: the enqueue made this segment, and goes on to link it.
    fn after_segment_made(&self, name: SegName) -> Actor
        ensures { result ≡ record self.now { new = name; pc = Pc.E13 } }
    {
        Actor {
            new: name,
            pc: Pc::E13,
            ..*self
        }
    }

    /// Returns the record after Q1: the dequeue begins its first pass, at Q2, over this segment,
    /// which the queue's head named.
    fn after_dequeue_finds_head(&self, name: SegName) -> Actor
        ensures { result ≡ record self.now { crq = name; pass = 1; pc = Pc.Q2 } }
    {
        Actor {
            crq: name,
            pass: 1,
            pc: Pc::Q2,
            ..*self
        }
    }

    /// Returns the record after Q2, Q10 or B1: the actor drew or read this head counter, and goes
    /// on to `pc`.
    fn with_head(&self, head: u64, pc: Pc) -> Actor
        ensures { result ≡ record self.now { h = head; pc = pc } }
    {
        Actor {
            h: head,
            pc,
            ..*self
        }
    }

    /// Returns the record after Q4. The dequeue goes on to take the value of its position, to mark
    /// the cell unsafe if the value is older, or to move an empty cell on to the next round. It
    /// passes by a cell whose index is past its position, and goes on to read the tail.
    fn after_dequeue_reads_index(&self, safe: bool, idx: u64) -> Actor
        ensures { result ≡ after_dequeue_reads_index self.now safe idx }
    {
        let pc = if self.h < idx {
            Pc::Q8
        } else if self.val.is_none() {
            Pc::Q7
        } else if idx == self.h {
            Pc::Q5
        } else {
            Pc::Q6
        };
        Actor {
            safe,
            idx,
            pc,
            ..*self
        }
    }

    /// Returns the record and reply after a Q5 that won: the dequeue replies the value that it had
    /// read. A record without a value stays, without a reply.
    fn after_take(&self) -> (Actor, Option<OpReply>)
        ensures { result ≡ after_take self.now.val self.now }
    {
        match self.val {
            Some(value) => (Actor::idle(), Some(OpReply::Value(value))),
            None => (*self, None),
        }
    }

    /// Returns the record after Q8: the dequeue goes on to repair the tail if this tail counter is
    /// at most one past its position, else it draws the next position.
    fn after_empty_check(&self, count: u64) -> Actor
        ensures { result ≡ record self.now {
          t = count;
          pc = if nat_le count (self.now.h + 1) then Pc.Q9 else Pc.Q2;
        } }
    {
        // This is `count <= h + 1`, whose sum could overflow.
        let empty = count == 0 || count - 1 <= self.h;
        let pc = if empty { Pc::Q9 } else { Pc::Q2 };
        Actor {
            t: count,
            pc,
            ..*self
        }
    }

    /// Returns the record after Q9: the dequeue's repair read this tail, and goes on to read the
    /// head.
    fn after_repair_reads_tail(&self, closed: bool, count: u64) -> Actor
        ensures { result ≡ record self.now { closed = closed; t = count; pc = Pc.Q10 } }
    {
        Actor {
            closed,
            t: count,
            pc: Pc::Q10,
            ..*self
        }
    }

    /// Returns the record after Q11: the repair starts over if the tail changed, ends if the tail
    /// is closed or at least the head, and else tries to raise it.
    fn after_repair_check(&self, closed: bool, count: u64) -> Actor
        ensures { result ≡ after_repair_check self.now closed count }
    {
        let pc = if closed == self.closed && count == self.t {
            if self.closed || self.h <= self.t {
                self.pc_after_empty_pass()
            } else {
                Pc::Q12
            }
        } else {
            Pc::Q9
        };
        Actor { pc, ..*self }
    }

    /// Returns the control point after a pass that found its segment empty: Q13, which reads the
    /// next segment, after the first pass, and Q14, which moves the queue's head, after the second.
    fn pc_after_empty_pass(&self) -> Pc
        ensures { result ≡ pc_after_empty_pass self.now }
    {
        if self.pass == 1 { Pc::Q13 } else { Pc::Q14 }
    }

    /// Returns the record after a Q13 that read this next segment: the dequeue begins its second
    /// pass, at Q2, over the segment on which it works.
    fn after_dequeue_finds_next(&self, name: SegName) -> Actor
        ensures { result ≡ record self.now { next = name; pass = 2; pc = Pc.Q2 } }
    {
        Actor {
            next: name,
            pass: 2,
            pc: Pc::Q2,
            ..*self
        }
    }

    /// Returns the record after A1: the enqueue on the array drew this position, and goes on to its
    /// slot.
    fn after_array_tail_add(&self, tail: u64) -> Actor
        ensures { result ≡ record self.now { t = tail; pc = Pc.A2 } }
    {
        Actor {
            t: tail,
            pc: Pc::A2,
            ..*self
        }
    }

    /// Returns the record and reply after B3: the dequeue on the array replies `Empty` if this tail
    /// counter is at most one past its position, else it draws the next one.
    fn after_array_empty_check(&self, count: u64) -> (Actor, Option<OpReply>)
        ensures { result ≡ (if nat_le count (self.now.h + 1) then (idle, Some OpReply.Empty)
            else (record self.now { pc = Pc.B1 }, None)) }
    {
        // This is `count <= h + 1`, whose sum could overflow.
        if count == 0 || count - 1 <= self.h {
            (Actor::idle(), Some(OpReply::Empty))
        } else {
            (self.with_pc(Pc::B1), None)
        }
    }

    /// Returns the cell of this position in the segment on which the actor works.
    fn cell_at<const R: usize>(&self, position: u64) -> Place
        requires positive { 1 ≤ R }
        requires small { R ≤ MOST_CELLS }
        ensures { result ≡ Place.Cell self.now.crq (position % R) }
    {
        Place::Cell(self.crq, cell_number::<R>(position))
    }

    /// Returns the operation of A2: a swap of the enqueue's value into the slot.
    fn swap_to_put(&self) -> Operation
        ensures { result ≡ Swap (ArrSlot.Value (value_to_put self.now.op)) }
    {
        Operation::Swap(ArrSlot::Value(value_to_put(self.op)))
    }

    /// Returns a compare-and-swap from the name of the segment on which the actor works to the name
    /// `new`.
    fn cas_name(&self, new: SegName) -> Operation
        ensures { result ≡ CasName self.now.crq new }
    {
        Operation::CasName { old: self.crq, new }
    }

    /// Returns the operation of E8: a CAS2 from the empty cell that was read to a safe cell with
    /// the enqueue's value, whose index is the actor's position.
    fn cas2_to_put(&self) -> Operation
        ensures { result ≡ Cas2 (cell_with self.now.safe self.now.idx None)
            (cell_with true self.now.t (Some (value_to_put self.now.op))) }
    {
        Operation::Cas2 {
            old: Cell {
                safe: self.safe,
                idx: self.idx,
                val: None,
            },
            new: Cell {
                safe: true,
                idx: self.t,
                val: Some(value_to_put(self.op)),
            },
        }
    }

    /// Returns the operation of Q5 and Q7: a CAS2 from the cell that was read, with this value or
    /// none, to an empty cell with the same safe bit, whose index is the actor's position plus `R`.
    /// An index of 2^64 or more, which no well-formed world has, becomes 2^64 - 1.
    fn cas2_to_move_on<const R: usize>(&self, val: Option<u64>) -> Operation
        requires { R ≤ MOST_CELLS }
        ensures { self.now.h + R < 2 ^ 64
            → result ≡ Cas2 (cell_with self.now.safe self.now.idx val)
            (cell_with self.now.safe (self.now.h + R) None) }
    {
        Operation::Cas2 {
            old: Cell {
                safe: self.safe,
                idx: self.idx,
                val,
            },
            new: Cell {
                safe: self.safe,
                idx: self.h.saturating_add(R as u64),
                val: None,
            },
        }
    }

    /// Returns the operation of Q6: a CAS2 from the cell that was read to the same cell, marked
    /// unsafe.
    fn cas2_to_mark_unsafe(&self) -> Operation
        ensures { result ≡ Cas2 (cell_with self.now.safe self.now.idx self.now.val)
            (cell_with false self.now.idx self.now.val) }
    {
        Operation::Cas2 {
            old: Cell {
                safe: self.safe,
                idx: self.idx,
                val: self.val,
            },
            new: Cell {
                safe: false,
                idx: self.idx,
                val: self.val,
            },
        }
    }

    /// Returns the operation of Q12: a compare-and-swap that raises the open tail to the head.
    fn cas_to_raise_tail(&self) -> Operation
        ensures { result ≡ CasTail self.now.t self.now.h }
    {
        Operation::CasTail {
            old: self.t,
            new: self.h,
        }
    }
}

/// Returns the value that an enqueue puts, on either queue; 0 in a dequeue or without a call.
fn value_to_put(op: Option<Op>) -> u64
    ensures { result ≡ value_to_put op }
{
    match op {
        Some(Op::Enq(value) | Op::AEnq(value)) => value,
        Some(Op::Deq | Op::ADeq) | None => 0,
    }
}

/// Returns the number of this position's cell in a ring of `R` cells, 1 to 64: the position modulo
/// `R`.
fn cell_number<const R: usize>(position: u64) -> u8
    requires positive { 1 ≤ R }
    requires small { R ≤ MOST_CELLS }
    ensures { result ≡ position % R }
{
    (position % R as u64) as u8
}

/// Returns the slot of the array at this position, which is 0 to 63 in a well-formed world. A
/// position above 255 gives slot 255, which the array doesn't have.
fn slot_at(position: u64) -> Place
    ensures { position < 2 ^ 8 → result ≡ Place.ArrCell position }
{
    Place::ArrCell(u8::try_from(position).unwrap_or(u8::MAX))
}
