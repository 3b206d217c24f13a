//! The array queue's two counters and 64 slots. Morrison and Afek's queue has an infinite array
//! instead.

ghost use Rattle.std.specs.Prelude.{◌≡◌, ◌↔◌, is_some, length, Some, Err, IsTrue, IfOk, IfErr, OnErr};
ghost use Rattle.std.specs.List.{All};
ghost use Rattle.rd_ring.specs.Prelude.{SLOTS, can_hold, operand, operate, restore, everywhere, Operates, OperatesOnContent};
ghost use Rattle.rd_cell.specs.Operations.{keeps_array_limits};

use super::ends::done_of_read;
use rd_cell::limits::SLOTS;
use rd_cell::{Answer, ArrSlot, Content, Done, Operation, Place, Refusal, Wrote};

/// The array: its two counters and its slots.
#[derive(Clone, Copy, Debug)]
pub struct ArrayParts {
    /// The head counter: the next position that a dequeue draws, 0 to 64 in a well-formed world.
    pub head: u64,
    /// The tail counter: the next position that an enqueue draws, 0 to 64 in a well-formed world.
    pub tail: u64,
    /// The slots in the order of their positions: slot 0 first.
    pub cells: [ArrSlot; SLOTS],
    ghost sized: { length cells ≡ SLOTS },
}

impl ArrayParts {
    ghost use Rattle.rd_segments.specs.Array.{array_contents, fresh_array};

    /// Returns a fresh array: both counters are 0, and every slot is empty.
    pub fn fresh() -> ArrayParts
        ensures { array_contents result ≡ fresh_array }
    {
        ArrayParts {
            head: 0,
            tail: 0,
            cells: [ArrSlot::Empty; SLOTS],
        }
    }

    /// Whether the array equals a fresh one.
    pub(crate) fn is_fresh(&self) -> bool
        ensures { IsTrue result ↔ (array_contents self.now ≡ fresh_array) }
    {
        self.has_fresh_counters() && are_empty_slots(&self.cells)
    }

    /// Whether both of the array's counters are 0.
    fn has_fresh_counters(&self) -> bool
        ensures { IsTrue result ↔ ((self.now.head ≡ 0) × (self.now.tail ≡ 0)) }
    {
        self.head == 0 && self.tail == 0
    }

    /// Returns the content at a place of the array, or none if the place is not one of the array's.
    pub(crate) fn content(&self, place: Place) -> Option<Content>
        ensures { result ≡ array_contents self.now place }
    {
        match place {
            Place::ArrHead => Some(Content::Number(self.head)),
            Place::ArrTail => Some(Content::Number(self.tail)),
            Place::ArrCell(i) => match self.cells.get(usize::from(i)) {
                None => None,
                Some(slot) => Some(Content::Slot(*slot)),
            },
            _ => None,
        }
    }

    /// Does an operation at a place of the array, and returns what it found, answered and wrote.
    /// The operation must not be `Add`, a segment's fetch-and-add.
    ///
    /// # Errors
    ///
    /// `ArrayEnd` for a fetch-and-add on a counter that is at least 64; `NoSuchPlace` if the array
    /// has no such place, or if the operation is for another kind of content. No actor asks for
    /// either. The array is then as before.
    pub(crate) fn operate(&mut self, place: Place, operation: Operation) -> Result<Done, Refusal>
        requires { IsTrue (keeps_array_limits operation) }
        ensures ok { IfOk result (λ done. Operates everywhere place operation done
            (array_contents self.old) (array_contents self.new)) }
        ensures err { IfErr result (λ e. operate place operation
            (operand (array_contents self.old) place) ≡ Err e) }
        ensures unchanged { OnErr result (array_contents self.new ≡ array_contents self.old) }
    {
        match place {
            Place::ArrHead => operate_on_counter(&mut self.head, place, operation),
            Place::ArrTail => operate_on_counter(&mut self.tail, place, operation),
            Place::ArrCell(i) => {
                if usize::from(i) >= SLOTS {
                    return Err(Refusal::NoSuchPlace);
                }
                operate_on_slot(&mut self.cells[usize::from(i)], place, operation)
            }
            _ => Err(Refusal::NoSuchPlace),
        }
    }

    /// Puts an old content back at a place of the array. The place must be there, the content must
    /// be of its kind, and a counter at most 64. This undoes a fetch-and-add or a swap.
    pub(crate) fn restore(&mut self, place: Place, content: Content)
        requires there { IsTrue (is_some (array_contents self.old place)) }
        requires kind { IsTrue (can_hold place content) }
        ensures { array_contents self.new
            ≡ restore (Some place) (Some content) (array_contents self.old) }
    {
        match (place, content) {
            (Place::ArrHead, Content::Number(count)) => self.head = count,
            (Place::ArrTail, Content::Number(count)) => self.tail = count,
            (Place::ArrCell(i), Content::Slot(slot)) => self.cells[usize::from(i)] = slot,
            _ => unreachable!(),
        }
    }
}

/// Whether each of these slots is empty.
fn are_empty_slots(slots: &[ArrSlot]) -> bool
    ensures { IsTrue result ↔ All (λ slot. slot ≡ ArrSlot.Empty) slots.now }
{
    slots.iter().all(|slot| slot.is_empty())
}

/// Does a read or a fetch-and-add on a counter of the array, and returns what it found, answered
/// and wrote. `place` is the counter's place, for the record alone. The operation must not be
/// `Add`, a segment's fetch-and-add. Fails with `ArrayEnd` if a fetch-and-add finds at least 64,
/// and with `NoSuchPlace` for any other operation; the counter then stays.
fn operate_on_counter(
    counter: &mut u64,
    place: Place,
    operation: Operation,
) -> Result<Done, Refusal>
    requires { IsTrue (keeps_array_limits operation) }
    ensures ok { IfOk result (λ done. OperatesOnContent place operation done
        (Content.Number counter.old) (Content.Number counter.new)) }
    ensures err { IfErr result (λ e. operate place operation (Some (Content.Number counter.old))
        ≡ Err e) }
    ensures unchanged { OnErr result (counter.new ≡ counter.old) }
{
    let found = Content::Number(*counter);
    match operation {
        Operation::Read => Ok(done_of_read(place, found)),
        Operation::AddArray => {
            if *counter >= SLOTS as u64 {
                return Err(Refusal::ArrayEnd);
            }
            *counter += 1;
            Ok(Done::of_operation(place, found, Answer::Found(found), Wrote::Place))
        }
        _ => Err(Refusal::NoSuchPlace),
    }
}

/// Does a swap on a slot of the array, and returns what it found, answered and wrote. `place` is
/// the slot's place, for the record alone. Fails with `NoSuchPlace` for any other operation; the
/// slot then stays.
fn operate_on_slot(slot: &mut ArrSlot, place: Place, operation: Operation) -> Result<Done, Refusal>
    ensures ok { IfOk result (λ done. OperatesOnContent place operation done (Content.Slot slot.old)
        (Content.Slot slot.new)) }
    ensures err { IfErr result (λ e. operate place operation (Some (Content.Slot slot.old))
        ≡ Err e) }
    ensures unchanged { OnErr result (slot.new ≡ slot.old) }
{
    let found = Content::Slot(*slot);
    match operation {
        Operation::Swap(new) => {
            *slot = new;
            Ok(Done::of_operation(place, found, Answer::Found(found), Wrote::Place))
        }
        _ => Err(Refusal::NoSuchPlace),
    }
}
