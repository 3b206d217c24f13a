//! Events as text: `enq 1 7, go 1 6, deq 2` is an enqueue of 7 by actor 1, six steps of it, and the
//! call of a dequeue by actor 2.

use super::worlds::go;
use rd_actor::Act;
use rd_step::Event;
use std::alloc::Global;
use std::test::Fail;

/// Returns the event that a line spells, and how often it is to happen: once if the line is spelled
/// as in a script, and six times for `go 1 6`. Returns none if the line spells no event.
pub fn event_and_times(line: &str) -> Option<(Event, u64)> {
    let mut words = line.split_whitespace();
    let keyword = words.next()?;
    let actor = words.next()?.parse::<u8>().ok()?;
    let last = words.next();
    if words.next().is_some() {
        return None;
    }
    let act = match (keyword, last) {
        ("go", None) => Act::Go,
        ("go", Some(times)) => return Some((go(actor), times.parse::<u64>().ok()?)),
        ("enq", Some(value)) => Act::Enq(value.parse::<u64>().ok()?),
        ("aenq", Some(value)) => Act::AEnq(value.parse::<u64>().ok()?),
        ("deq", None) => Act::Deq,
        ("adeq", None) => Act::ADeq,
        ("starve", Some("yes")) => Act::Starve(true),
        ("starve", Some("no")) => Act::Starve(false),
        _ => return None,
    };
    Some((Event { actor, act }, 1))
}

/// Returns the events of a schedule, which is lines with a comma and a space between them. An empty
/// schedule has no events. Fails if a line spells no event, or if memory is refused.
pub fn events_in(alloc: Global, schedule: &str) -> Result<Vec<Event>, Fail> {
    let mut events = Vec::new(alloc);
    if schedule.is_empty() {
        return Ok(events);
    }
    for line in schedule.split(", ") {
        let (event, times) = event_and_times(line).ok_or("no event")?;
        for _ in 0..times {
            events.push(event)?;
        }
    }
    Ok(events)
}
