//! Ascending positions that can be read only by probes.

ghost use Rattle.std.specs.Prelude.{◌≡◌, ◌+◌, ◌<◌, ◌^◌, length, slice_index_or};
ghost use Rattle.rd_depend.specs.Probes.{probe_count};

use super::probes::Probes;

/// The positions of one list. Outside this file only `look` reads them, and counts a probe each
/// time.
#[derive(Clone, Copy)]
pub(crate) struct Positions<'a> {
    items: &'a [u32],
}

impl<'a> Positions<'a> {
    /// Returns the positions of a list that a look-up found, and counts that look-up as one probe.
    /// Fewer than 2^63 probes must be counted before.
    pub(crate) fn found(items: &'a [u32], probes: &mut Probes) -> Positions<'a>
        requires { probe_count probes.old < 2 ^ 63 }
        ensures items { result.items.now ≡ items.now }
        ensures cost { probe_count probes.new ≡ probe_count probes.old + 1 }
    {
        probes.tick();
        Positions { items }
    }

    /// Returns the number of positions.
    pub(crate) fn len(&self) -> usize
        ensures { result ≡ length self.now.items.now }
    {
        self.items.len()
    }

    /// Returns the position at this index, which must be below `len`, and counts a probe. Fewer
    /// than 2^63 probes must be counted before.
    pub(crate) fn look(&self, index: usize, probes: &mut Probes) -> u32
        requires within { index < length self.now.items.now }
        requires few { probe_count probes.old < 2 ^ 63 }
        ensures position { result ≡ slice_index_or self.now.items.now index result }
        ensures cost { probe_count probes.new ≡ probe_count probes.old + 1 }
    {
        probes.tick();
        self.items[index]
    }
}
