//! The room that a run of viewers needs. All of it is made before the first command is asked.

ghost use Rattle.std.specs.Prelude.{◌≡◌, [], length, vec_capacity, IfOk};
ghost use Rattle.std.specs.List.{AllZip};
ghost use Rattle.rd_desk.specs.Rooms.{IsRoomFor};

use super::gates::{Answer, Gate};
use super::threads::{Done, Started};
use rd_marks::Command;
use std::alloc::{AllocError, Global};

/// The lists that a run of viewers fills, with room for all that they will have.
pub(crate) struct Room<G: Gate> {
    /// For each viewer, the list of its answers.
    pub(crate) answers: Vec<Vec<Answer>>,
    /// For each viewer, its thread, or what its closure gave back if the thread was refused.
    pub(crate) started: Vec<Started<G>>,
    /// For each viewer, what it gave back.
    pub(crate) dones: Vec<Done<G>>,
}

impl<G: Gate> Room<G> {
    /// Returns a list for each viewer's answers and the two other lists, all of them empty, with
    /// just the room that a run of these viewers needs. Fails only if memory is refused.
    pub(crate) fn for_viewers(
        alloc: Global,
        work: &Vec<(G::Pass, Vec<Command>)>,
    ) -> Result<Room<G>, AllocError>
        ensures answers { IfOk result (λ room. AllZip IsRoomFor work.now.items room.answers.items) }
        ensures started { IfOk result (λ room. (room.started.items ≡ [])
            × (vec_capacity room.started ≡ length work.now.items)) }
        ensures dones { IfOk result (λ room. (room.dones.items ≡ [])
            × (vec_capacity room.dones ≡ length work.now.items)) }
    {
        let mut answers = Vec::with_capacity(alloc, work.len())?;
        let started = Vec::with_capacity(alloc, work.len())?;
        let dones = Vec::with_capacity(alloc, work.len())?;
        for i in 0..work.len() {
            let room = Vec::with_capacity(alloc, work[i].1.len())?;
            answers.push_reserved(room);
        }
        Ok(Room {
            answers,
            started,
            dones,
        })
    }
}
