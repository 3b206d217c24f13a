//! The search for an origin: it goes back from a step to the last earlier one that passes a test.

ghost use Rattle.std.specs.Prelude.{◌≡◌, ◌-◌, Bool, take};
ghost use Rattle.std.specs.Fn.{FnReturnsAt};
ghost use Rattle.rd_step.specs.declared.entries.Entry.{Entry as SomeEntry};
ghost use Rattle.rd_step.specs.Prelude.{and_then};
ghost use Rattle.rd_journal.specs.Sessions.{state};
ghost use Rattle.rd_journal.specs.State.{run_of};
ghost use Rattle.rd_origin.specs.Origins.{hands_out_value, last_put, last_call, origin_in, is_call, is_at, has_first_cell, puts_into, begins_call};
ghost use Rattle.rd_origin.specs.Positions.{last_position};

use super::origins::Origin;
use rd_actor::{Act, OpReply, Pc};
use rd_cell::{Place, Refusal};
use rd_journal::{EntryList, Session};
use rd_step::Entry;

/// Returns the origin of the value that the live step of this number, counted from 1, took. The put
/// is the last step before it that put a value into the same cell or slot, and the call is the one
/// in which this put was made; each is none if there is no such live step.
///
/// A put is a compare-and-swap by an enqueue that won a cell, a swap by an enqueue on the array, or
/// the making of a segment, which puts its value into cell 0. Marking a cell unsafe leaves its
/// value, and is no put. The search takes no memory, and makes at most one pass over the earlier
/// steps, from the back.
///
/// # Errors
///
/// `NoSuchStep`, with the number of live steps, if `k` is 0 or above that number; `NotATake` if the
/// step took no value.
pub fn origin<const R: usize>(session: &Session<R>, k: u64) -> Result<Origin, Refusal>
    ensures answer { result ≡ and_then (run_of (state session.now))
        (λ ran. origin_in ran.entries k) }
{
    let taken = session.entry(k)?;
    if !hands_out_value(taken.reply) {
        return Err(Refusal::NotATake);
    }
    let steps = session.live();
    let put = last_put(&steps, k, taken.place);
    Ok(Origin {
        call: last_call(&steps, put),
        put,
        take: k,
    })
}

/// Whether a reply hands out a value. A step with such a reply is a take.
fn hands_out_value(reply: Option<OpReply>) -> bool
    ensures { result ≡ hands_out_value reply }
{
    matches!(reply, Some(OpReply::Value(_)))
}

/// Returns the number of the last step before step `k` that put a value into this cell or slot;
/// none if no step did, or if no cell is given.
fn last_put(steps: &EntryList, k: u64, cell: Option<Place>) -> Option<u64>
    ensures { result ≡ last_put steps.now k cell }
{
    let cell = cell?;
    last_below(steps, k, |step| puts_into(cell, step))
}

/// Returns the number of the last step before the step of this number that begins a call of the
/// same actor; none if no earlier step does, or if there is no step of this number or no number.
fn last_call(steps: &EntryList, number: Option<u64>) -> Option<u64>
    ensures { result ≡ last_call steps.now number }
{
    let number = number?;
    let step = steps.numbered(number)?;
    last_below(steps, number, |call| begins_call(step.event.actor, call))
}

/// Returns the greatest number below `below`, counted from 1, whose step passes the test; none if
/// no such step does. Numbers beyond the last step are skipped. It must be possible to call the
/// test with any entry.
fn last_below<F: Fn(&Entry) -> bool>(steps: &EntryList, below: u64, test: F) -> Option<u64>
    requires { F.IsAlwaysCallable test }
    ensures { (passes : SomeEntry → Bool)
        → ((x : SomeEntry) (passed : Bool) → FnReturnsAt F.Fn test x passed → passed ≡ passes x)
        → result ≡ last_position passes (take (below - 1) steps.now) }
{
    for number in (1..below).rev() {
        let Some(step) = steps.numbered(number) else {
            continue;
        };
        if test(step) {
            return Some(number);
        }
    }
    None
}

/// Whether the step put a value into this cell of a segment or slot of the array.
fn puts_into(cell: Place, step: &Entry) -> bool
    ensures { result ≡ puts_into cell step.now }
{
    match step.old_actor.pc {
        Pc::E8 => !step.wrote.is_nothing() && is_at(step.place, cell),
        Pc::A2 => is_at(step.place, cell),
        Pc::E12 => has_first_cell(step.place, cell),
        _ => false,
    }
}

/// Whether there is a place, and it is this cell of a segment or slot of the array.
fn is_at(place: Option<Place>, cell: Place) -> bool
    ensures { result ≡ is_at place cell }
{
    match place {
        Some(place) => place == cell,
        None => false,
    }
}

/// Whether there is a place, it is the whole of a segment, and this cell is the cell 0 of that
/// segment.
fn has_first_cell(place: Option<Place>, cell: Place) -> bool
    ensures { result ≡ has_first_cell place cell }
{
    match (place, cell) {
        (Some(Place::Whole(made)), Place::Cell(name, index)) => made == name && index == 0,
        _ => false,
    }
}

/// Whether this actor begins a call in the step.
fn begins_call(actor: u8, step: &Entry) -> bool
    ensures { result ≡ begins_call actor step.now }
{
    actor == step.event.actor && is_call(step.event.act)
}

/// Whether an act begins a call.
fn is_call(act: Act) -> bool
    ensures { result ≡ is_call act }
{
    !matches!(act, Act::Go | Act::Starve(_))
}
