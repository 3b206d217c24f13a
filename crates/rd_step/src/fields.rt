//! What a step and its undoing do to the two fields of a world, the space and the actors. The rings
//! have `R` cells, which must be at most 64.

ghost use Rattle.std.specs.Prelude.{◌≡◌, ◌≢◌, ◌+◌, ◌<◌, ◌≤◌, ℕ, true, Some, None, Ok, IsSome, IsTrue, IfOk, IfErr, OnErr, length, vec_capacity};
ghost use Rattle.rd_ring.specs.Prelude.{MOST_CELLS, MOST_SEGMENTS, Make, perform, restore, everywhere, HasEffect};
ghost use Rattle.rd_segments.specs.Room.{room_returned, UsesMakersRoom, ReturnsMakersRoom};
ghost use Rattle.rd_segments.specs.Space.{contents, list_capacity, list_count, making_count, room, makers_room};
ghost use Rattle.rd_step.specs.Step.{with_actor};
ghost use Rattle.rd_step.specs.Undo.{CanPutBack};
ghost use Rattle.rd_cell.specs.Access.{access_keeps_limits};
ghost use Rattle.rd_step.specs.Lists.{numbered};
ghost use Rattle.rd_step.specs.Room.{is_make, IsRefused};

use super::entries::made_segment_at;
use rd_actor::Actor;
use rd_cell::{Access, Content, Done, Place, Refusal};
use rd_segments::Space;

/// Removes the segment whose whole is this place, and so gives its room back. The place must be the
/// whole of an actor's last segment.
pub fn unmake_at<const R: usize>(space: &mut Space<R>, place: Place)
    requires can { CanPutBack (contents space.old) (Some place) None }
    requires small { R ≤ MOST_CELLS }
    ensures done { contents space.new ≡ restore (Some place) None (contents space.old) }
    ensures room { ReturnsMakersRoom (room_returned (Some place) None) (makers_room space.old)
        (makers_room space.new) }
    ensures capacity { list_capacity space.new ≡ list_capacity space.old }
{
    if let Some(name) = made_segment_at(Some(place), None) {
        space.unmake(name.maker);
    }
}

/// Returns the record of the actor of this number, counted from 1, or none if there is no such
/// actor.
pub fn actor_in(actors: &Vec<Actor>, number: u8) -> Option<Actor>
    ensures { result ≡ numbered actors.now.items number }
{
    if number == 0 {
        return None;
    }
    actors.get(usize::from(number) - 1).copied()
}

/// Replaces the record of the actor of this number, which must be there.
pub fn set_actor(actors: &mut Vec<Actor>, number: u8, words: Actor)
    requires { IsSome (numbered actors.old.items number) }
    ensures done { numbered actors.new.items ≡ with_actor number words (numbered actors.old.items) }
    ensures number { length actors.new.items ≡ length actors.old.items }
    ensures capacity { vec_capacity actors.new ≡ vec_capacity actors.old }
{
    actors[usize::from(number) - 1] = words;
}

/// Does an access of this actor, and returns what it found, answered and wrote. The actor must have
/// a list, of at most 65,535 segments, and an operation must be one that `Space::operate` allows at
/// its place. Fails with the refusal of the operation or of the making, and with `NoMemory` if a
/// making has no room and memory is refused; no place changes then.
pub fn perform<const R: usize>(
    space: &mut Space<R>,
    actor: u8,
    access: Access,
) -> Result<Done, Refusal>
    requires small { R ≤ MOST_CELLS }
    requires maker_there { actor < list_count space.old }
    requires counted { making_count space.old actor ≤ MOST_SEGMENTS }
    requires access_keeps_limits { IsTrue (access_keeps_limits access) }
    ensures ok { IfOk result (λ done. HasEffect everywhere
        (perform R actor (contents space.old) access) done (contents space.old)
        (contents space.new)) }
    ensures err { IfErr result (λ e. IsRefused (perform R actor (contents space.old) access)
        (is_make access) (room space.old actor) e) }
    ensures unchanged { OnErr result (contents space.new ≡ contents space.old) }
    ensures room { UsesMakersRoom result (is_make access) actor (makers_room space.old)
        (makers_room space.new) }
    ensures capacity { list_capacity space.new ≡ list_capacity space.old }
{
    match access {
        Access::NoPlace => Ok(Done::of_no_access()),
        Access::At(place, operation) => space.operate(place, operation),
        Access::Make(value) => make_segment(space, actor, value),
    }
}

/// Makes the actor's next segment, which holds this value, and returns what the step records of it.
/// The actor must have a list, of at most 65,535 segments. Fails as `Space::make` does, with
/// `SegmentsEnd` or `NoMemory`; no place changes then.
fn make_segment<const R: usize>(
    space: &mut Space<R>,
    actor: u8,
    value: u64,
) -> Result<Done, Refusal>
    requires small { R ≤ MOST_CELLS }
    requires maker_there { actor < list_count space.old }
    requires counted { making_count space.old actor ≤ MOST_SEGMENTS }
    ensures ok { IfOk result (λ done. HasEffect everywhere
        (perform R actor (contents space.old) (Make value)) done (contents space.old)
        (contents space.new)) }
    ensures err { IfErr result (λ e. IsRefused
        (perform R actor (contents space.old) (Make value)) true (room space.old actor) e) }
    ensures unchanged { OnErr result (contents space.new ≡ contents space.old) }
    ensures room { UsesMakersRoom result true actor (makers_room space.old)
        (makers_room space.new) }
    ensures capacity { list_capacity space.new ≡ list_capacity space.old }
{
    let name = space.make(actor, value)?;
    Ok(Done::of_making(name))
}
