//! The trait of values that a lock can guard, and the types in which contracts record what each
//! pass knows. At run time only `Opened` has a value, in the lock's table.
ghost use Rattle.std.specs.Prelude.{ℕ, List};

use std::collections::LinkedList;
use std::snapshot::Snapshot;

/// A value that a lock can guard. In contracts it has an origin, which never changes while the lock
/// guards it, and a history, which only grows.
pub trait Recorded: Drop {
    /// The data of one entry of the history, without the number of the pass that put it.
    type Entry;
    /// The type of the origin.
    type Origin;

    /// The value's history: its entries in order, each with the number of the pass that put it,
    /// from 1.
    ghost history: { Self → List (ℕ × Self.Entry) };

    /// The value's origin, which stays as it was when the lock was opened.
    ghost origin: { Self → Self.Origin };
}

/// What a pass knows, for contracts alone: who it is, how the lock was opened, and what it has
/// seen.
pub struct PassView<E, O> {
    /// The pass's number, from 1.
    pub pass: u64,
    /// The number of seats that the lock was opened with, one for each pass.
    pub seats: u64,
    /// The origin of the value that the lock was opened with.
    pub origin: O,
    /// The history of the value when the pass last put it back; empty before the first time.
    pub seen: LinkedList<(u64, E)>,
    /// The greatest value that the pass knows the word `next` to have reached. A load of `served`
    /// counts too, since `next` is never below it.
    pub next: u64,
    /// The greatest value of the word `served` that the pass has seen.
    pub served: u64,
}

/// The stage of a seat: out, waiting for its ticket, or holding the value.
pub enum Stage<E> {
    /// It neither waits nor holds.
    Out,
    /// It has drawn this ticket, and waits until it is served.
    Waits(u64),
    /// It holds the value by this ticket, and found it with this history.
    Holds(u64, LinkedList<(u64, E)>),
}

/// What a seat at the table knows. A pass's own seat has one member, a joined seat has several, and
/// a spent seat, whose members went to another, has none.
pub struct View<E, O> {
    /// What each member knows.
    pub members: LinkedList<PassView<E, O>>,
    /// Whether the seat waits, holds, or does neither.
    pub stage: Stage<E>,
}

/// What the lock was opened with. Its table keeps this as its key.
#[derive(Drop)]
pub struct Opened<T> {
    /// The number of passes.
    pub seats: u64,
    /// The first value of both words, `served` and `next`.
    pub first: u64,
    /// The value that the lock was opened with, for contracts alone.
    pub value: Snapshot<T>,
}
