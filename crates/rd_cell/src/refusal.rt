//! Why a command is refused.

ghost use Rattle.std.specs.Prelude.{◌≡◌};

use std::alloc::AllocError;

/// The refusals of the machine, the journal and the bookmarks, by their numbers 1 to 20.
#[derive(Clone, Copy, Debug, PartialEq, Eq)]
pub enum Refusal {
    /// 1: there is no actor of that number.
    NoActor,
    /// 2: a call by an actor that is in the middle of one.
    NotIdle,
    /// 3: a step or a choice of an actor that is in no call.
    Idle,
    /// 4: the actor is at a choice, which `Starve` makes.
    NeedsChoice,
    /// 5: a choice by an actor that is in a call, but at no choice.
    NoChoice,
    /// 6: a fetch-and-add on a segment's counter that is 2^62.
    CounterEnd,
    /// 7: a making by an actor that has made 65,535 segments.
    SegmentsEnd,
    /// 8: a fetch-and-add on a counter of the array that is 64.
    ArrayEnd,
    /// 9: 65,535 steps are live.
    TooLong,
    /// 10: fewer steps are live than are to be undone; with the number of live steps.
    NothingToUndo(u64),
    /// 11: fewer steps are undone than are to be redone.
    NothingToRedo,
    /// 12: no live step has that number; with the number of live steps.
    NoSuchStep(u64),
    /// 13: a later live step depends on that one; with the number of the first such step.
    Depended(u64),
    /// 14: there is no bookmark of that name.
    NoMark,
    /// 15: there is a bookmark of that name already.
    MarkTaken,
    /// 16: there are 64 bookmarks already.
    TooManyMarks,
    /// 17: the bookmark's name is not 1 to 16 bytes of a-z, 0-9 and `-`.
    BadName,
    /// 18: that step took no value.
    NotATake,
    /// 19: there is no such place.
    NoSuchPlace,
    /// 20: memory was refused.
    NoMemory,
}

/// An allocation that failed becomes the refusal `NoMemory`.
impl From<AllocError> for Refusal {
    ghost use Rattle.rd_cell.specs.declared.refusal.Refusal.TheVariants.{NoMemory};

    ghost from_gives = { λ _ refusal. refusal ≡ NoMemory };

    fn from(_error: AllocError) -> Refusal {
        Refusal::NoMemory
    }
}
