//! Pseudo-random numbers, and the events that they choose.

ghost use Rattle.std.specs.Prelude.{◌≤◌};

use rd_actor::{Act, Pc};
use rd_step::{Event, World};

/// Returns the pseudo-random number that follows this one in a fixed sequence. Its high bits are
/// more random than its low bits.
pub fn next_random(number: u64) -> u64 {
    number
        .wrapping_mul(6_364_136_223_846_793_005)
        .wrapping_add(1_442_695_040_888_963_407)
}

/// Returns an act that an actor at this control point may do, chosen by the number.
fn drawn_act(pc: Pc, number: u64) -> Act {
    match (pc, (number >> 40) % 5) {
        (Pc::Idle, 0 | 1) => Act::Enq(number >> 50),
        (Pc::Idle, 2) => Act::Deq,
        (Pc::Idle, 3) => Act::AEnq(number >> 50),
        (Pc::Idle, _) => Act::ADeq,
        (Pc::E10, chance) => Act::Starve(chance == 0),
        _ => Act::Go,
    }
}

/// Returns an event of one of the actors 1 to `actors`, which must be at least 1. The number
/// chooses the actor, and an act that fits the actor's control point. An actor that the world
/// doesn't have counts as idle.
pub fn drawn_event<const R: usize>(world: &World<R>, actors: u8, number: u64) -> Event
    requires { 1 ≤ actors }
    ensures first { 1 ≤ result.actor }
    ensures last { result.actor ≤ actors }
{
    let actor = ((number >> 33) % u64::from(actors)) as u8 + 1;
    let pc = world.actor(actor).map_or(Pc::Idle, |words| words.pc);
    let act = drawn_act(pc, number);
    Event { actor, act }
}
