//! The one access of a step, and what the entry of the step records of it.

ghost use Rattle.std.specs.Prelude.{◌≡◌, Some, None};
ghost use Rattle.rd_cell.specs.Access.{done_of, no_access};
ghost use Rattle.rd_cell.specs.Operations.{cas_answer, cas_wrote};

use super::contents::Content;
use super::operations::{Answer, Operation};
use super::places::{Place, SegName, Wrote};

/// The one access of a step.
#[derive(Clone, Copy, Debug, PartialEq, Eq)]
pub enum Access {
    /// No access: a call begins, or the actor makes the choice at E10.
    NoPlace,
    /// An operation on the content of one place.
    At(Place, Operation),
    /// The making of the actor's next segment, which holds this value.
    Make(u64),
}

/// What an access did, as an entry of the journal records it.
#[derive(Clone, Copy, Debug, PartialEq, Eq)]
pub struct Done {
    /// The place, or none if there was no access.
    pub place: Option<Place>,
    /// The whole content of the place before the access; none for a making or without a place.
    pub old: Option<Content>,
    /// What the access answered.
    pub answer: Answer,
    /// Which part of its place the access wrote: nothing if it was a read, a compare-and-swap that
    /// lost, or no access; the index half if it was a CAS2 that won and kept the cell's value; else
    /// all.
    pub wrote: Wrote,
}

impl Done {
    /// Returns the record of a step without an access: no place, no content, the answer `Nothing`,
    /// and nothing written.
    pub fn of_no_access() -> Done
        ensures { result ≡ done_of no_access }
    {
        Done {
            place: None,
            old: None,
            answer: Answer::Nothing,
            wrote: Wrote::Nothing,
        }
    }

    /// Returns the record of the making of this segment: it wrote the whole of the segment, of
    /// which nothing was there, and answered the name.
    pub fn of_making(name: SegName) -> Done
        ensures { result ≡ record {
          place = Some (Place.Whole name);
          old = None;
          answer = Answer.Made name;
          wrote = Wrote.Place;
        } }
    {
        Done {
            place: Some(Place::Whole(name)),
            old: None,
            answer: Answer::Made(name),
            wrote: Wrote::Place,
        }
    }

    /// Returns the record of an operation: its place, the content that it found there, its answer,
    /// and which part of the place it wrote.
    pub fn of_operation(place: Place, found: Content, answer: Answer, wrote: Wrote) -> Done
        ensures { result ≡ record {
          place = Some place;
          old = Some found;
          answer = answer;
          wrote = wrote;
        } }
    {
        Done {
            place: Some(place),
            old: Some(found),
            answer,
            wrote,
        }
    }

    /// Returns the record of a compare-and-swap that found this content. If it won, its answer is
    /// `Won`, and it wrote the part `written` of its place. If it lost, its answer is `Lost`, and
    /// it wrote nothing.
    pub fn of_cas(place: Place, found: Content, won: bool, written: Wrote) -> Done
        ensures { result ≡ record {
          place = Some place;
          old = Some found;
          answer = cas_answer won;
          wrote = cas_wrote won written;
        } }
    {
        let (answer, wrote) = if won {
            (Answer::Won, written)
        } else {
            (Answer::Lost, Wrote::Nothing)
        };
        Done::of_operation(place, found, answer, wrote)
    }
}
