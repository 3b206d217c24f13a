//! Events, entries and parts of worlds, from what tests choose of them.

ghost use Rattle.std.specs.Prelude.{◌≡◌, ◌≤◌};
ghost use Rattle.rd_step.specs.Prelude.{MOST_CELLS};

use rd_actor::{Act, Actor};
use rd_cell::{Answer, Place, SegName, Wrote};
use rd_step::{ArrayParts, Entry, Event, Parts, SegmentParts};
use std::alloc::{AllocError, Global};

/// Returns the event `Go` of this actor.
pub fn go(actor: u8) -> Event
    ensures { result.actor ≡ actor }
{
    Event {
        actor,
        act: Act::Go,
    }
}

/// Returns an entry of an access by this actor at this place, which wrote this much of it.
/// Dependence looks at no other field; they have an idle actor, no answer and no content.
pub fn access_entry((actor, place, wrote): (u8, Option<Place>, Wrote)) -> Entry {
    Entry {
        event: go(actor),
        place,
        wrote,
        answer: Answer::Nothing,
        reply: None,
        old_actor: Actor::idle(),
        old_content: None,
    }
}

/// Returns the parts of a world of one actor, with this root and the segments that the actor made.
/// The queue's ends are at the root, and the array is fresh. A ring must have at most 64 cells.
/// Fails only if memory is refused.
pub fn one_actor_parts<const R: usize>(
    alloc: Global,
    actor: Actor,
    root: SegmentParts<R>,
    made: Vec<SegmentParts<R>>,
) -> Result<Parts<R>, AllocError>
    requires { R ≤ MOST_CELLS }
{
    let roots = Vec::from_array(alloc, [root])?;
    Ok(Parts {
        actors: Vec::from_array(alloc, [actor])?,
        segments: Vec::from_array(alloc, [roots, made])?,
        qhead: SegName::ROOT,
        qtail: SegName::ROOT,
        array: ArrayParts::fresh(),
    })
}
