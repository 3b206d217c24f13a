//! The parts from which a world is put together.

ghost use Rattle.std.specs.Prelude.{◌≤◌};
ghost use Rattle.rd_ring.specs.Prelude.{MOST_CELLS};

use rd_actor::Actor;
use rd_cell::SegName;
use rd_ring::SegmentParts;
use rd_segments::ArrayParts;

/// The parts of a world with rings of `R` cells, 1 to 64. They need not make a well-formed world.
#[derive(Drop)]
pub struct Parts<const R: usize> {
    /// The actors' records, by their numbers: actor 1 first.
    pub actors: Vec<Actor>,
    /// The segments by their makers: element m has those of maker m, in the order of their making.
    pub segments: Vec<Vec<SegmentParts<R>>>,
    /// The name of the segment at the queue's head.
    pub qhead: SegName,
    /// The name of the segment at the queue's tail.
    pub qtail: SegName,
    /// The counters and slots of the array.
    pub array: ArrayParts,
    ghost small: { R ≤ MOST_CELLS },
}
