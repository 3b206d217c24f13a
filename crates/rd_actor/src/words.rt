//! Which words fit an actor's control point, one row for each control point. The words of every
//! actor in a world fit: `World::assemble` refuses others, and every step keeps this.

ghost use Rattle.std.specs.Prelude.{◌≡◌};
ghost use Rattle.rd_actor.specs.Words.{words_fit, has_idle_words, is_enqueue, is_dequeue, is_array_enqueue, is_array_dequeue, is_in_enqueue, is_in_pass};

use super::actors::{Actor, Op, Pc};
use rd_cell::SegName;
use rd_cell::limits::SLOTS;

impl Actor {
    /// Whether the words fit the control point where the actor is, which is condition 8 of a
    /// well-formed world.
    pub fn words_fit(&self) -> bool
        ensures { result ≡ words_fit self.now }
    {
        match self.pc {
            Pc::Idle => self.has_idle_words(),
            Pc::E1 | Pc::E2 | Pc::E3 | Pc::E4 | Pc::E5 | Pc::E6 => self.is_in_enqueue(),
            Pc::E7 => self.is_in_enqueue()
                && self.val.is_none()
                && !self.safe
                && self.idx <= self.t,
            Pc::E8 => self.is_in_enqueue() && self.val.is_none() && self.idx <= self.t,
            Pc::E9 | Pc::E10 | Pc::E11 | Pc::E12 | Pc::E13 | Pc::E14 => self.is_in_enqueue(),
            Pc::Q1 => is_dequeue(self.op) && self.pass <= 2,
            Pc::Q2 | Pc::Q3 | Pc::Q4 => self.is_in_pass(),
            Pc::Q5 => self.is_in_pass() && self.val.is_some() && self.idx == self.h,
            Pc::Q6 => self.is_in_pass() && self.val.is_some() && self.idx < self.h,
            Pc::Q7 => self.is_in_pass() && self.val.is_none() && self.idx <= self.h,
            Pc::Q8 | Pc::Q9 | Pc::Q10 | Pc::Q11 => self.is_in_pass(),
            Pc::Q12 => self.is_in_pass() && !self.closed && self.t < self.h,
            Pc::Q13 => is_dequeue(self.op) && self.pass == 1,
            Pc::Q14 => is_dequeue(self.op) && self.pass == 2,
            Pc::A1 => is_array_enqueue(self.op) && self.pass == 0,
            Pc::A2 => is_array_enqueue(self.op) && self.pass == 0 && self.t < SLOTS as u64,
            Pc::B1 => is_array_dequeue(self.op) && self.pass == 0,
            Pc::B2 | Pc::B3 => is_array_dequeue(self.op) && self.pass == 0 && self.h < SLOTS as u64,
        }
    }

    /// Whether all words except the control point are those of an actor in no call.
    fn has_idle_words(&self) -> bool
        ensures { result ≡ has_idle_words self.now }
    {
        self.op.is_none()
            && self.crq == SegName::ROOT
            && self.new == SegName::ROOT
            && self.next == SegName::ROOT
            && self.t == 0
            && self.h == 0
            && !self.closed
            && self.val.is_none()
            && !self.safe
            && self.idx == 0
            && self.pass == 0
    }

    /// Whether the actor is in an enqueue that is not on the array, with pass 0.
    fn is_in_enqueue(&self) -> bool
        ensures { result ≡ is_in_enqueue self.now }
    {
        is_enqueue(self.op) && self.pass == 0
    }

    /// Whether the actor is in a dequeue that is not on the array, in pass 1 or 2 over its segment.
    fn is_in_pass(&self) -> bool
        ensures { result ≡ is_in_pass self.now }
    {
        is_dequeue(self.op) && (self.pass == 1 || self.pass == 2)
    }
}

/// Whether this is an enqueue that is not on the array; false if there is no call.
fn is_enqueue(op: Option<Op>) -> bool
    ensures { result ≡ is_enqueue op }
{
    matches!(op, Some(Op::Enq(_)))
}

/// Whether this is a dequeue that is not on the array; false if there is no call.
fn is_dequeue(op: Option<Op>) -> bool
    ensures { result ≡ is_dequeue op }
{
    matches!(op, Some(Op::Deq))
}

/// Whether this is an enqueue on the array; false if there is no call.
fn is_array_enqueue(op: Option<Op>) -> bool
    ensures { result ≡ is_array_enqueue op }
{
    matches!(op, Some(Op::AEnq(_)))
}

/// Whether this is a dequeue on the array; false if there is no call.
fn is_array_dequeue(op: Option<Op>) -> bool
    ensures { result ≡ is_array_dequeue op }
{
    matches!(op, Some(Op::ADeq))
}
