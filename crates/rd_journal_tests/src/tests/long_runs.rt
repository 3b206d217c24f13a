//! Long runs of all calls, chosen at random, none of which is refused memory that is there.

ghost use Rattle.std.specs.Prelude.{◌≤◌};
ghost use Rattle.rd_step.specs.Prelude.{MOST_CELLS};

use rd_cell::Refusal;
use rd_journal::Session;
use rd_step::World;
use std::alloc::Global;
use std::test::Fail;
use test_kit::{drawn_event, next_random};

/// How many calls a run has.
const CALLS: u64 = 300;

/// Lets an actor that the number chooses do what suits its control point.
fn act<const R: usize>(session: &mut Session<R>, actors: u8, number: u64) -> Result<(), Refusal>
    requires some { 1 ≤ actors }
{
    let event = drawn_event(session.world(), actors, number);
    session.apply(event)?;
    Ok(())
}

/// Makes the call that the number chooses: mostly an event, and else an undo or a redo of some
/// kind.
pub(super) fn call<const R: usize>(
    session: &mut Session<R>,
    actors: u8,
    number: u64,
) -> Result<(), Refusal>
    requires some { 1 ≤ actors }
{
    let step = (number >> 20) % (session.len() % 1_000 + 1);
    match (number >> 56) % 18 {
        0 => session.undo(),
        1 => session.undo_at(step),
        2 => session.roll(step),
        3 => session.back(step % 4),
        4 => session.redo(),
        5 => session.forward(step % 3),
        _ => act(session, actors, number),
    }
}

/// Whether a run of calls over a fresh world of this many actors is refused memory anywhere.
fn is_refused_memory<const R: usize>(alloc: Global, actors: u8) -> Result<bool, Refusal>
    requires some { 1 ≤ actors }
    requires few { actors ≤ 16 }
    requires positive { 1 ≤ R }
    requires small { R ≤ MOST_CELLS }
{
    let mut session = Session::open(alloc, World::<R>::fresh(alloc, actors)?);
    let mut number = actors as u64;
    let mut is_refused = false;
    for _ in 0..CALLS {
        number = next_random(number);
        if call(&mut session, actors, number) == Err(Refusal::NoMemory) {
            is_refused = true;
        }
    }
    Ok(is_refused)
}

#[test]
fn no_call_is_refused_memory_that_is_there(rt: HostRuntime) -> Result<(), Fail> {
    for actors in 1..17u8 {
        let over_2 = is_refused_memory::<2>(rt.alloc(), actors)?;
        let over_4 = is_refused_memory::<4>(rt.alloc(), actors)?;
        let over_8 = is_refused_memory::<8>(rt.alloc(), actors)?;
        let over_any = over_2 | over_4 | over_8;
        assert!(rt; !over_any, "{actors} actors: {over_2} {over_4} {over_8}");
    }
    Ok(())
}
