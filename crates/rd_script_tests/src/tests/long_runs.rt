//! Long scripts of all kinds of lines, in an order that looks like chance: no line is refused
//! memory.

ghost use Rattle.std.specs.Prelude.{◌≤◌};

use super::runs::fresh;
use rd_devices::{ReadSource, WriteSink};
use rd_marks::Command;
use rd_script::run;
use rd_text::{LineFault, lines};
use std::alloc::Global;
use std::process::Abort;
use std::test::Fail;
use test_kit::{KINDS, long_script};

/// Runs a script over a fresh world of this many actors: no line is refused memory.
fn has_memory<const R: usize>(rt: &impl Abort, alloc: Global, script: &str, actors: u8)
    requires positive { 1 ≤ R }
    requires small { R ≤ 64 }
    requires some { 1 ≤ actors }
    requires few { actors ≤ 16 }
{
    let mut report = Vec::new(alloc);
    let lines = run(
        &mut ReadSource::new(script.as_bytes()),
        &mut WriteSink::new(&mut report),
        &mut fresh::<R>(rt, alloc, actors),
    );
    let report = str::from_utf8(&report).expect(rt, "no text");
    assert!(rt;
        lines == Ok(300) && !report.contains("NoMemory"),
        "{actors} actors, rings of {R}"
    );
}

/// Runs a long script of lines of these kinds for each number of actors over rings of 2, 4 and 8
/// cells: no line is refused memory.
fn have_memory(rt: &impl Abort, alloc: Global, kinds: &[&str]) -> Result<(), Fail> {
    for actors in 1..17 {
        let script = long_script(alloc, kinds, 64, u64::from(actors))?;
        has_memory::<2>(rt, alloc, &script, actors);
        has_memory::<4>(rt, alloc, &script, actors);
        has_memory::<8>(rt, alloc, &script, actors);
    }
    Ok(())
}

#[test]
fn no_line_of_a_long_script_is_refused_memory(rt: HostRuntime) -> Result<(), Fail> {
    have_memory(&rt, rt.alloc(), KINDS)
}

/// Whether each line says that the length is asked for.
fn are_lens(said: &[Result<Command, LineFault>]) -> bool {
    for line in said {
        if *line != Ok(Command::Len) {
            return false;
        }
    }
    true
}

#[test]
fn a_long_text_says_what_each_of_its_lines_says(rt: HostRuntime) {
    let text = "len\n"
        .repeat(rt.alloc(), 100_000)
        .expect(&rt, "out of memory");
    let said = lines(rt.alloc(), text.as_bytes()).expect(&rt, "out of memory");
    assert!(&rt; said.len() == 100_000 && are_lens(said.as_slice()));
}
