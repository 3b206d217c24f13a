//! Lists of events, and the length of the beginning that two of them have in common.

ghost use Rattle.std.specs.Prelude.{◌≡◌, ◌≤◌, List, Some, length, take, slice_get};
ghost use Rattle.rd_step.specs.declared.entries.Event.{Event as Happening};

use super::entries::{Entry, Event};

/// A list of events: a slice of events, or of entries, whose events it lists.
pub trait EventList {
    // The events, in their order.
    ghost listed: { Self → List Happening };

    /// Returns the number of events in the list.
    fn count(&self) -> usize
        ensures { result ≡ length (listed self.now) };

    /// Returns the event at this position, counted from 0, or none if the position is past the end.
    fn event(&self, position: usize) -> Option<Event>
        ensures { result ≡ slice_get (listed self.now) position };
}

impl EventList for &[Event] {
    ghost listed = { λ list. list.now };

    fn count(&self) -> usize {
        self.len()
    }

    fn event(&self, position: usize) -> Option<Event> {
        self.get(position).copied()
    }
}

impl EventList for &[Entry] {
    ghost use Rattle.rd_step.specs.Run.{events};

    ghost listed = { λ list. events list.now };

    fn count(&self) -> usize {
        self.len()
    }

    fn event(&self, position: usize) -> Option<Event> {
        Some(self.get(position)?.event)
    }
}

/// Returns the number of events that two lists have in common at their beginning, up to the first
/// that differs or to the end of the shorter list. This takes no memory, and time in proportion to
/// the result.
#[tactic(auto, using(std::proofs::lemmas::Option::slice_get_cases, std::proofs::lemmas::Grind::common_steps))]
pub fn common_beginning_len<A: EventList, B: EventList>(a: &A, b: &B) -> usize
    ensures in_first { result ≤ length (A.listed a.now) }
    ensures in_second { result ≤ length (B.listed b.now) }
    ensures same { take result (A.listed a.now) ≡ take result (B.listed b.now) }
    ensures longest { (e : Happening) → slice_get (A.listed a.now) result ≡ Some e
        → slice_get (B.listed b.now) result ≡ Some e → ⊥ }
{
    for position in 0..a.count() {
        if a.event(position) != b.event(position) {
            return position;
        }
    }
    a.count()
}
