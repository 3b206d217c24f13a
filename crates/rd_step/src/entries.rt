//! The event, which is one step of one actor, and the entry that the journal keeps of it and from
//! which it is undone.

ghost use Rattle.std.specs.Prelude.{◌≡◌};
ghost use Rattle.rd_cell.specs.Places.{written};
ghost use Rattle.rd_step.specs.Made.{made_segment, made_segment_at};

use rd_actor::{Act, Actor, OpReply};
use rd_cell::{Answer, Content, Place, SegName, Wrote, written};

/// An actor's number with an act: what a schedule lists.
#[derive(Clone, Copy, Debug, PartialEq, Eq)]
pub struct Event {
    /// The actor's number, from 1.
    pub actor: u8,
    /// What the actor does.
    pub act: Act,
}

/// What the journal keeps of one step, with the old record of its actor and the old content of its
/// place.
#[derive(Clone, Copy, Debug, PartialEq, Eq)]
pub struct Entry {
    /// The event.
    pub event: Event,
    /// The place of the step's access; none without an access.
    pub place: Option<Place>,
    /// Which part of its place the access wrote.
    pub wrote: Wrote,
    /// The answer of the access.
    pub answer: Answer,
    /// The reply of the actor's call, if the step ended the call.
    pub reply: Option<OpReply>,
    /// The actor's record before the step.
    pub old_actor: Actor,
    /// The content of the place before the step; none for a making or without a place.
    pub old_content: Option<Content>,
}

impl Entry {
    /// Returns the place that names what the step wrote: its own place, or only the index half of
    /// that cell; none if the step wrote nothing or had no place.
    pub fn written(&self) -> Option<Place>
        ensures { result ≡ written self.now.place self.now.wrote }
    {
        written(self.place, self.wrote)
    }

    /// Returns the segment that the step made, or none if it made none.
    pub fn made_segment(&self) -> Option<SegName>
        ensures { result ≡ made_segment self.now }
    {
        made_segment_at(self.place, self.old_content)
    }
}

/// Returns the segment that a step with this place and this old content made; none if it made none.
/// Only a making has the whole of a segment as its place, and no old content.
pub(crate) fn made_segment_at(place: Option<Place>, old_content: Option<Content>) -> Option<SegName>
    ensures { result ≡ made_segment_at place old_content }
{
    match (place, old_content) {
        (Some(Place::Whole(name)), None) => Some(name),
        _ => None,
    }
}
