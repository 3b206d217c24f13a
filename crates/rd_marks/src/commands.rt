//! The commands of a book, as values.

ghost use Rattle.std.specs.Prelude.{◌≡◌};
ghost use Rattle.rd_marks.specs.Events.{as_event};

use super::names::MarkName;
use rd_actor::Act;
use rd_cell::Place;
use rd_step::Event;

/// One command. It is plain data: copying it takes no memory.
#[derive(Clone, Copy, Debug, PartialEq, Eq)]
pub enum Command {
    /// `enq A X`: the actor calls an enqueue of the value.
    Enq(u8, u64),
    /// `deq A`: the actor calls a dequeue.
    Deq(u8),
    /// `aenq A X`: the actor calls an enqueue of the value on the array.
    ArrayEnq(u8, u64),
    /// `adeq A`: the actor calls a dequeue on the array.
    ArrayDeq(u8),
    /// `go A`: the actor makes the step of the control point where it is.
    Go(u8),
    /// `starve A yes`, `starve A no`: the actor chooses whether it starves (E10).
    Starve(u8, bool),
    /// `undo`: the last live step is undone. It is refused if there is none.
    Undo,
    /// `undo K`: the live step of this number is undone alone, if no later one depends on it.
    UndoAt(u64),
    /// `roll K`: the live step of this number is undone, and just the later ones that depend on it,
    /// directly or through others.
    Roll(u64),
    /// `back N`: the last N live steps are undone, all or none.
    Back(u64),
    /// `redo`: the step that was undone last is made again.
    Redo,
    /// `forward N`: the N steps that were undone last are made again, all or none.
    Forward(u64),
    /// `mark NAME`: a bookmark of this name is set at the live steps.
    Mark(MarkName),
    /// `drop NAME`: the bookmark of this name is dropped.
    DropMark(MarkName),
    /// `goto NAME`: the steps of the bookmark of this name become the live ones, and no undone step
    /// is left.
    GotoMark(MarkName),
    /// `marks`: the number of bookmarks.
    Marks,
    /// `markat I`: the name of the I-th bookmark, and the number of steps that were live when it
    /// was set.
    MarkAt(u64),
    /// `same NAME NAME`: whether the steps of two bookmarks are causally equivalent.
    Same(MarkName, MarkName),
    /// `origin K`: the origin of the value that the live step of this number took.
    Origin(u64),
    /// `writer PLACE`: the number of the last live step that wrote the place or a place that it
    /// names, if there is one.
    Writer(Place),
    /// `show PLACE`: the content of the place.
    Show(Place),
    /// `actor A`: the record of the actor.
    Actor(u8),
    /// `step K`: the entry of the live step of this number.
    Step(u64),
    /// `len`: the numbers of live and undone steps.
    Len,
}

impl Command {
    /// Returns the event that the command makes happen, or `None` if it is no event.
    pub fn as_event(&self) -> Option<Event>
        ensures { result ≡ as_event self.now }
    {
        let (actor, act) = match *self {
            Command::Enq(actor, value) => (actor, Act::Enq(value)),
            Command::Deq(actor) => (actor, Act::Deq),
            Command::ArrayEnq(actor, value) => (actor, Act::AEnq(value)),
            Command::ArrayDeq(actor) => (actor, Act::ADeq),
            Command::Go(actor) => (actor, Act::Go),
            Command::Starve(actor, choice) => (actor, Act::Starve(choice)),
            _ => return None,
        };
        Some(Event { actor, act })
    }
}
