//! The last writer of a place, by look-ups. It is the last position of a step that wrote under one
//! of three keys: the place's own, the key of a cell's value half, and the key of the whole of its
//! segment.

ghost use Rattle.std.specs.Prelude.{◌≡◌, ◌+◌, ◌<◌, ◌≤◌, ◌^◌, true, IsSome, List, take};
ghost use Rattle.rd_step.specs.declared.entries.Entry.{Entry as SomeEntry};
ghost use Rattle.rd_depend.specs.Lists.{later};
ghost use Rattle.rd_depend.specs.Index.{IsIndexOf, position_count, touched_or_written};
ghost use Rattle.rd_depend.specs.Probes.{probe_count};
ghost use Rattle.rd_depend.specs.Keys.{is_under_some};
ghost use Rattle.rd_depend.specs.Writers.{last_position, writes_to};

use super::DependIndex;
use super::keys::Key;
use super::positions::Positions;
use super::probes::Probes;
use super::table::Among;
use rd_cell::Place;

impl DependIndex {
    /// Returns the last position up to `n` whose entry wrote this place, or one of the places that
    /// it names; `None` if no such entry did. `n` must be at most the number of positions, and
    /// fewer than 2^32 probes counted before. It makes at least one probe and at most 57, and takes
    /// no memory.
    pub fn last_writer(&self, n: u64, place: Place, probes: &mut Probes) -> Option<u64>
        requires within { n ≤ position_count self.now }
        requires counted { probe_count probes.old < 2 ^ 32 }
        ensures answer { (es : List SomeEntry) → IsIndexOf self.now es
            → result ≡ last_position (writes_to place) (take n es) }
        ensures cost { probe_count probes.new ≤ probe_count probes.old + 57 }
        ensures counts { probe_count probes.old < probe_count probes.new }
    {
        let n = n as u32;
        let by_value = self.last_write_under(n, Key::of_value(place), probes);
        let own = self.last_write_under(n, Some(Key::for_search(place)), probes);
        let whole = self.last_write_under(n, Key::of_whole(place), probes);
        later(by_value, later(own, whole))
    }

    /// Returns the last position up to `n` of a step that is kept under the key and wrote there;
    /// `None` if there is no key or no such step. It makes at most 19 probes, and none without a
    /// key. Fewer than 2^34 must be counted before.
    fn last_write_under(&self, n: u32, key: Option<Key>, probes: &mut Probes) -> Option<u64>
        requires { probe_count probes.old < 2 ^ 34 }
        ensures answer { (es : List SomeEntry) → IsIndexOf self.now es
            → result ≡ last_position (λ y. is_under_some key (touched_or_written true y))
            (take n es) }
        ensures cost { probe_count probes.new ≤ probe_count probes.old + 19 }
        ensures counts { probe_count probes.old ≤ probe_count probes.new }
        ensures looks { IsSome key → probe_count probes.old < probe_count probes.new }
    {
        let Some(key) = key else {
            return None;
        };
        Positions::found(self.by_key.kept_under(key, Among::Writes), probes).last_up_to(n, probes)
    }
}

/// Returns the greater of two positions, or the one that is there; `None` if neither is.
fn later(a: Option<u64>, b: Option<u64>) -> Option<u64>
    ensures { result ≡ later a b }
{
    match (a, b) {
        (Some(m), Some(n)) => Some(m.max(n)),
        (Some(_), None) => a,
        (None, _) => b,
    }
}
