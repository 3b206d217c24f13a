//! The tests of the lock, over a list of numbers, each with the pass that put it.

mod calls;
mod closing;
mod draws;
mod rows;
mod threads;
mod waiting;

use rd_lock::Recorded;
use std::alloc::Global;

/// What the tests guard.
#[derive(Drop)]
struct Numbers {
    entries: Vec<(u64, u64)>,
}

impl Recorded for Numbers {
    type Entry = u64;

    type Origin = ();

    ghost history = { λ numbers. numbers.entries.items };

    ghost origin = { λ _. tt };
}

impl Numbers {
    ghost use Rattle.std.specs.Prelude.{◌≡◌, []};

    /// None yet.
    fn new(alloc: Global) -> Numbers
        ensures { result.entries.items ≡ [] }
    {
        Numbers {
            entries: Vec::new(alloc),
        }
    }
}
