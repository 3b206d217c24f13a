//! How many events two lists have in common at their beginning, by examples.

use super::GO;
use crate::equal::same_at;
use rd_actor::Act;
use rd_step::{Event, common_beginning_len};

/// The step of another actor.
const OTHER: Event = Event {
    actor: 2,
    act: Act::Go,
};

/// A call by the first actor.
const CALL: Event = Event {
    actor: 1,
    act: Act::Deq,
};

/// Pairs of lists, and how many events they have in common.
const PAIRS: &[(&[Event], &[Event], usize)] = &[
    (&[], &[GO], 0),
    (&[GO, CALL, GO], &[GO, CALL], 2),
    (&[GO, GO, CALL], &[GO, OTHER, CALL], 1),
    (&[CALL, GO], &[GO, GO], 0),
    (&[GO, CALL], &[GO, CALL], 2),
];

#[test]
fn a_common_beginning_ends_at_the_first_other_event(rt: HostRuntime) {
    for row in PAIRS {
        same_at(&rt, common_beginning_len(&row.0, &row.1), row.2, row);
    }
}
