//! Any operation at any place of a segment, by way of the segment's own operations.

ghost use Rattle.std.specs.Prelude.{◌≡◌, Some, is_some, IsTrue, IfOk, IfErr, OnErr, Err};
ghost use Rattle.rd_ring.specs.Prelude.{is_of_same_segment, can_hold, operand, operate, Operates, Restores};
ghost use Rattle.rd_cell.specs.Operations.{keeps_segment_limits};

use super::segments::Segment;
use rd_cell::{Answer, Content, Done, Operation, Place, Refusal, Wrote};

impl<const R: usize> Segment<R> {
    ghost use Rattle.rd_ring.specs.Segments.{segment_contents};

    /// Does an operation at a place of this segment, whichever segment the place names, and returns
    /// what the entry of the step records of it. The operation must not be `AddArray`, nor a
    /// `CasTail` to a count above 2^62.
    ///
    /// # Errors
    ///
    /// `CounterEnd` for a fetch-and-add on a counter that is 2^62; `NoSuchPlace` if the segment has
    /// no such place, or if the operation is for another kind of content. No actor asks for either.
    /// The segment is then as before.
    pub fn operate(&mut self, place: Place, operation: Operation) -> Result<Done, Refusal>
        requires { IsTrue (keeps_segment_limits operation) }
        ensures ok { IfOk result (λ done. Operates (is_of_same_segment place) place operation done
            (segment_contents self.old) (segment_contents self.new)) }
        ensures err { IfErr result (λ e. operate place operation (operand
            (segment_contents self.old) place)
            ≡ Err e) }
        ensures unchanged { OnErr result (self.new ≡ self.old) }
    {
        let found = match self.content(place) {
            None => return Err(Refusal::NoSuchPlace),
            Some(found) => found,
        };
        if let Some(answer) = operation.read_answer(found) {
            return Ok(Done::of_operation(place, found, answer, Wrote::Nothing));
        }
        match (place, operation) {
            (Place::Head(_), Operation::Add) => {
                self.add_head()?;
                Ok(Done::of_operation(place, found, Answer::Found(found), Wrote::Place))
            }
            (Place::Tail(_), Operation::Add) => {
                self.add_tail()?;
                Ok(Done::of_operation(place, found, Answer::Found(found), Wrote::Place))
            }
            (Place::Tail(_), Operation::Close) => {
                let closed = self.close();
                Ok(Done::of_operation(place, found, Answer::WasClosed(closed), Wrote::Place))
            }
            (Place::Tail(_), Operation::CasTail { old, new }) => {
                let won = self.cas_tail(old, new);
                Ok(Done::of_cas(place, found, won, Wrote::Place))
            }
            (Place::Next(_), Operation::CasNext(new)) => {
                let won = self.cas_next(new);
                Ok(Done::of_cas(place, found, won, Wrote::Place))
            }
            (Place::Cell(_, i), Operation::Cas2 { old, new }) => {
                let won = self.cas2_cell(i, old, new);
                Ok(Done::of_cas(place, found, won, old.cas2_wrote(new)))
            }
            _ => Err(Refusal::NoSuchPlace),
        }
    }

    /// Puts an old content back at a place of this segment, whichever segment the place names. This
    /// undoes each operation that writes there. The place must be there, the content must be of its
    /// kind, and a counter in it at most 2^62.
    pub fn restore(&mut self, place: Place, content: Content)
        requires there { IsTrue (is_some (operand (segment_contents self.old) place)) }
        requires kind { IsTrue (can_hold place content) }
        ensures { Restores (is_of_same_segment place) place (Some content)
            (segment_contents self.old)
            (segment_contents self.new) }
    {
        match (place, content) {
            (Place::Head(_), Content::Number(count)) => self.restore_head(count),
            (Place::Tail(_), Content::Tail { closed, count }) => self.restore_tail(closed, count),
            (Place::Next(_), Content::Next(next)) => self.restore_next(next),
            (Place::Cell(_, i), Content::Cell(cell)) => self.restore_cell(i, cell),
            (Place::Val(_, i), Content::Val(val)) => self.restore_value(i, val),
            (Place::Idx(_, i), Content::Idx { safe, idx }) => self.restore_index(i, safe, idx),
            _ => unreachable!(),
        }
    }
}
