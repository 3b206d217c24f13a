//! Scripts as text and as bytes.

ghost use Rattle.std.specs.Prelude.{◌≤◌};

use super::drawn::next_random;
use std::alloc::{AllocError, Global};
use std::test::Fail;

/// How many lines a long script has.
const LINES: u64 = 300;

/// Appends a line of a kind to a script. In the kind, `A` stands for an actor from 1 to `actors`,
/// `K` for a number below 60, and `N` for a number below 4 in a bookmark's name; `number` chooses
/// them. Fails only if memory is refused.
fn put_line(script: &mut String, kind: &str, actors: u64, number: u64) -> Result<(), Fail>
    requires { 1 ≤ actors }
{
    for letter in kind.chars() {
        let shown = match letter {
            'A' => (number >> 33) % actors + 1,
            'K' => (number >> 43) % 60,
            'N' => (number >> 53) % 4,
            _ => {
                script.push(letter)?;
                continue;
            }
        };
        write!(script, "{shown}")?;
    }
    script.push('\n')?;
    Ok(())
}

/// Returns a pseudo-random script of 300 lines for this many actors, at least 1. A line is of each
/// of the kinds (see `put_line`) with a chance of 1 in `choices`, at most 64, and else a step of an
/// actor. Equal arguments give equal scripts. Fails only if memory is refused.
pub fn long_script(alloc: Global, kinds: &[&str], choices: u64, actors: u64) -> Result<String, Fail>
    requires some { 1 ≤ actors }
    requires choices { choices ≤ 64 }
{
    let mut script = String::new(alloc);
    let mut number = actors;
    for _ in 0..LINES {
        number = next_random(number);
        let chosen = (number >> 58) * choices / 64;
        let kind = match kinds.get(chosen as usize) {
            Some(kind) => *kind,
            None => "go A",
        };
        put_line(&mut script, kind, actors, number)?;
    }
    Ok(script)
}

/// Returns the bytes of each script, in order. Fails only if memory is refused.
pub fn scripts_as_bytes(alloc: Global, scripts: &[&str]) -> Result<Vec<Vec<u8>>, AllocError> {
    let mut bytes = Vec::new(alloc);
    for script in scripts {
        bytes.push(Vec::from_slice(alloc, script.as_bytes())?)?;
    }
    Ok(bytes)
}
