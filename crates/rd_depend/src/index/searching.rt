//! Binary search among ascending positions.

ghost use Rattle.std.specs.Prelude.{◌≡◌, ◌+◌, ◌<◌, ◌≤◌, ◌^◌, length, nat_lt, None};
ghost use Rattle.std.specs.List.{before_first, find, last_or, position_or_len};
ghost use Rattle.rd_depend.specs.Lists.{IsAscending};
ghost use Rattle.rd_depend.specs.Probes.{probe_count};

use super::positions::Positions;
use super::probes::Probes;

impl<'a> Positions<'a> {
    /// Returns the number of positions that are at most `k`, by binary search. It makes at most 17
    /// probes, before which fewer than 2^62 must be counted. If the positions don't ascend, or
    /// are 2^17 or more, the number is unspecified, except that it is at most `len`.
    pub(crate) fn count_up_to(&self, k: u32, probes: &mut Probes) -> usize
        requires { probe_count probes.old < 2 ^ 62 }
        ensures within { result ≤ length self.now.items.now }
        ensures cost { probe_count probes.new ≤ probe_count probes.old + 17 }
        ensures counts { probe_count probes.old ≤ probe_count probes.new }
        ensures count { IsAscending self.now.items.now → length self.now.items.now < 2 ^ 17
            → result ≡ position_or_len (nat_lt k) self.now.items.now }
    {
        let mut low = 0;
        let mut high = self.len();
        for round in 0..17_usize {
            if low >= high {
                return low;
            }
            let middle = low + (high - low) / 2;
            if self.look(middle, probes) <= k {
                low = middle + 1;
            } else {
                high = middle;
            }
        }
        low
    }

    /// Returns the first position above `k`; `None` if there is none. It makes at most 18 probes,
    /// before which fewer than 2^61 must be counted. The result is unspecified if the positions
    /// don't ascend, or are 2^17 or more.
    pub(crate) fn first_above(&self, k: u32, probes: &mut Probes) -> Option<u64>
        requires { probe_count probes.old < 2 ^ 61 }
        ensures first { IsAscending self.now.items.now → length self.now.items.now < 2 ^ 17
            → result ≡ find (nat_lt k) self.now.items.now }
        ensures cost { probe_count probes.new ≤ probe_count probes.old + 18 }
        ensures counts { probe_count probes.old ≤ probe_count probes.new }
    {
        let index = self.count_up_to(k, probes);
        if index < self.len() {
            Some(u64::from(self.look(index, probes)))
        } else {
            None
        }
    }

    /// Returns the last position up to `k`; `None` if there is none. It makes at most 18 probes,
    /// before which fewer than 2^61 must be counted. The result is unspecified if the positions
    /// don't ascend, or are 2^17 or more.
    pub(crate) fn last_up_to(&self, k: u32, probes: &mut Probes) -> Option<u64>
        requires { probe_count probes.old < 2 ^ 61 }
        ensures last { IsAscending self.now.items.now → length self.now.items.now < 2 ^ 17
            → result ≡ last_or None (before_first (nat_lt k) self.now.items.now) }
        ensures cost { probe_count probes.new ≤ probe_count probes.old + 18 }
        ensures counts { probe_count probes.old ≤ probe_count probes.new }
    {
        let number = self.count_up_to(k, probes);
        if number > 0 {
            Some(u64::from(self.look(number - 1, probes)))
        } else {
            None
        }
    }
}
