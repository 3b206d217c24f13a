//! The inverse of the plain step.

ghost use Rattle.std.specs.Prelude.{◌≡◌};
ghost use Rattle.rd_step.specs.Room.{room_returned, ReturnsMakersRoom};
ghost use Rattle.rd_step.specs.Prelude.{model, makers_room, unstep};
ghost use Rattle.rd_step.specs.Laws.{WasStepped, IsTakenOut};

use rd_step::{Entry, World};

/// Undoes the step of an entry: puts back the old content of its place and the old record of its
/// actor, and changes nothing else. If the step made a segment, this is removed, and its maker has
/// the room for it again. It can't fail, and takes no memory. If the step only read, the code
/// leaves its place alone, since the old content is still there.
///
/// The step must belong to a run from a well-formed start that reached this world, and no later
/// step that remains of that run may depend on it (Danos and Krivine 2004). The world left is the
/// end of that run without the step, for every such run.
pub fn unstep<const R: usize>(world: &mut World<R>, entry: &Entry)
    requires { WasStepped (model world.old) entry.now }
    ensures back { model world.new ≡ unstep (model world.old) entry.now }
    ensures taken_out { (was : WasStepped (model world.old) entry.now)
        → IsTakenOut (model world.old) (model world.new) entry.now was }
    ensures room { ReturnsMakersRoom (room_returned entry.now.place entry.now.old_content)
        (makers_room world.old) (makers_room world.new) }
{
    let actor = entry.event.actor;
    if entry.wrote.is_nothing() {
        world.revert(actor, entry.old_actor, None, None);
    } else {
        world.revert(actor, entry.old_actor, entry.place, entry.old_content);
    }
}
