//! The last writer of a place.

ghost use Rattle.std.specs.Prelude.{◌≡◌};
ghost use Rattle.rd_step.specs.Prelude.{and_then};
ghost use Rattle.rd_journal.specs.Sessions.{state};
ghost use Rattle.rd_journal.specs.State.{run_of};
ghost use Rattle.rd_origin.specs.Writers.{last_writer_in};

use rd_cell::{Place, Refusal};
use rd_journal::Session;

/// Returns the number, from 1, of the last live step that wrote this place, or one of the places
/// that it names; none if no live step did. This takes no memory, and asks the session's index
/// once.
///
/// # Errors
///
/// `NoSuchPlace` if the place is not there in the session's world.
pub fn last_writer<const R: usize>(
    session: &Session<R>,
    place: Place,
) -> Result<Option<u64>, Refusal>
    ensures answer { result ≡ and_then (run_of (state session.now))
        (λ ran. last_writer_in ran place) }
{
    let Some(_) = session.world().content(place) else {
        return Err(Refusal::NoSuchPlace);
    };
    Ok(session.last_writer(place))
}
