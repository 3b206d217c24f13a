//! The names at the queue's two ends.

ghost use Rattle.std.specs.Prelude.{◌≡◌, Some, Err, IfOk, IfErr, OnErr};
ghost use Rattle.rd_ring.specs.Prelude.{operate, OperatesOnContent};

use rd_cell::{Answer, Content, Done, Operation, Place, Refusal, SegName, Wrote};

/// Does a read or a compare-and-swap of the name at one of the queue's ends, and returns what it
/// found, answered and wrote. `place` is that end, for the record alone.
///
/// # Errors
///
/// `NoSuchPlace` for any other operation, for which no actor asks. The name then stays.
pub fn operate_on_name(
    name: &mut SegName,
    place: Place,
    operation: Operation,
) -> Result<Done, Refusal>
    ensures ok { IfOk result (λ done. OperatesOnContent place operation done (Content.Name name.old)
        (Content.Name name.new)) }
    ensures err { IfErr result (λ e. operate place operation (Some (Content.Name name.old))
        ≡ Err e) }
    ensures unchanged { OnErr result (name.new ≡ name.old) }
{
    let found = Content::Name(*name);
    match operation {
        Operation::Read => Ok(done_of_read(place, found)),
        Operation::CasName { old, new } => {
            let won = *name == old;
            if won {
                *name = new;
            }
            Ok(Done::of_cas(place, found, won, Wrote::Place))
        }
        _ => Err(Refusal::NoSuchPlace),
    }
}

/// Returns the record of a read: it answers the content that it found, and writes nothing.
pub fn done_of_read(place: Place, found: Content) -> Done
    ensures { result ≡ record {
      place = Some place;
      old = Some found;
      answer = Answer.Found found;
      wrote = Wrote.Nothing;
    } }
{
    Done::of_operation(place, found, Answer::Found(found), Wrote::Nothing)
}
