//! Counting probes, which measures what a search costs.

ghost use Rattle.std.specs.Prelude.{◌≡◌, ◌+◌, ◌<◌, ◌^◌};
ghost use Rattle.rd_depend.specs.Probes.{probe_count};

/// A count of probes. A probe is one look-up of an actor, a place or a segment, or one look at a
/// position in a list. A count can't be copied.
#[derive(Debug, Drop, PartialEq, Eq)]
pub struct Probes {
    count: u64,
}

impl Probes {
    /// Returns a count of no probes.
    pub fn new() -> Probes
        ensures { probe_count result ≡ 0 }
    {
        Probes { count: 0 }
    }

    /// Returns the number of probes counted since `new`.
    pub fn count(&self) -> u64
        ensures { result ≡ probe_count self.now }
    {
        self.count
    }

    /// Counts one more probe. Fewer than 2^63 must be counted before.
    pub(crate) fn tick(&mut self)
        requires { probe_count self.old < 2 ^ 63 }
        ensures { probe_count self.new ≡ probe_count self.old + 1 }
    {
        self.count += 1;
    }
}
