//! The first dependant of a step, by look-ups. It is the first of several later positions: the next
//! by the step's actor and, for each place that the step touched, the next that touched it. If the
//! step only read the place, the next that wrote it counts instead.

ghost use Rattle.std.specs.Prelude.{◌≡◌, ◌+◌, ◌<◌, ◌≤◌, ◌^◌, List, Some, IsSome, length, drop, nat_lt};
ghost use Rattle.rd_cell.specs.Places.{interfere};
ghost use Rattle.rd_step.specs.declared.entries.Entry.{Entry as SomeEntry};
ghost use Rattle.rd_step.specs.Prelude.{depends, depends_on_any};
ghost use Rattle.std.specs.List.{find, position_from};
ghost use Rattle.rd_depend.specs.Lists.{earlier, IsAscending};
ghost use Rattle.rd_depend.specs.Tables.{is_writes, list_at};
ghost use Rattle.rd_depend.specs.Index.{IsIndexOf, position_count, positions, touched_or_written};
ghost use Rattle.rd_depend.specs.Probes.{probe_count};
ghost use Rattle.rd_depend.specs.Keys.{is_under_some};

use super::DependIndex;
use super::keys::{Key, is_value_written};
use super::lists::positions_in;
use super::positions::Positions;
use super::probes::Probes;
use super::table::Among;
use rd_cell::{Place, Wrote};
use rd_step::Entry;

impl DependIndex {
    /// Returns the first position after `k` whose entry depends on the given one; `None` if there
    /// is no such position. `k` must be at most the number of positions, and fewer than 2^32 probes
    /// counted before. It makes at least one probe and at most 96, and takes no memory.
    pub fn first(&self, k: u64, entry: &Entry, probes: &mut Probes) -> Option<u64>
        requires within { k ≤ position_count self.now }
        requires counted { probe_count probes.old < 2 ^ 32 }
        ensures answer { (es : List SomeEntry) → IsIndexOf self.now es
            → result ≡ position_from (depends entry.now) (k + 1) (drop k es) }
        ensures cost { probe_count probes.new ≤ probe_count probes.old + 96 }
        ensures counts { probe_count probes.old < probe_count probes.new }
    {
        let k = k as u32;
        let by_actor = self.first_by_actor(k, entry.event.actor, probes);
        match entry.place {
            None => by_actor,
            Some(place) => earlier(
                by_actor,
                self.first_interfering(k, place, entry.wrote, probes),
            ),
        }
    }

    /// Whether the entry depends on one of the entries after the first `n`, which must be at most
    /// the number of positions. It looks first at the positions of the entry's actor, since these
    /// decide in most cases, and takes no memory.
    pub fn depends_on_any_after(&self, n: u64, entry: &Entry) -> bool
        requires { n ≤ position_count self.now }
        ensures { (es : List SomeEntry) → IsIndexOf self.now es
            → result ≡ depends_on_any (drop n es) entry.now }
    {
        let mut probes = Probes::new();
        if self
            .first_by_actor(n as u32, entry.event.actor, &mut probes)
            .is_some()
        {
            return true;
        }
        self.first(n, entry, &mut probes).is_some()
    }

    /// Returns the first position above `k` of a step that interferes with an access to this place
    /// that wrote this part of it; `None` if there is no such step. It makes at most 57 probes,
    /// before which fewer than 2^33 must be counted.
    fn first_interfering(
        &self,
        k: u32,
        place: Place,
        wrote: Wrote,
        probes: &mut Probes,
    ) -> Option<u64>
        requires { probe_count probes.old < 2 ^ 33 }
        ensures answer { (es : List SomeEntry) → IsIndexOf self.now es
            → result ≡ find (nat_lt k)
            (positions (λ y. interfere (Some place) wrote y.place y.wrote) es) }
        ensures cost { probe_count probes.new ≤ probe_count probes.old + 57 }
        ensures counts { probe_count probes.old ≤ probe_count probes.new }
    {
        let among = Among::writes_if(wrote.is_nothing());
        let of_value = Among::writes_if(!is_value_written(wrote));
        let by_value = self.first_under(k, Key::of_value(place), of_value, probes);
        let own = self.first_under(k, Some(Key::for_search(place)), among, probes);
        let whole = self.first_under(k, Key::of_whole(place), among, probes);
        earlier(by_value, earlier(own, whole))
    }

    /// Returns the first position above `k` that is kept under the key, among all positions or only
    /// those of steps that wrote there; `None` if there is no key or no such position. It makes at
    /// most 19 probes, and none without a key. Fewer than 2^34 must be counted before.
    fn first_under(
        &self,
        k: u32,
        key: Option<Key>,
        among: Among,
        probes: &mut Probes,
    ) -> Option<u64>
        requires { probe_count probes.old < 2 ^ 34 }
        ensures answer { (es : List SomeEntry) → IsIndexOf self.now es
            → result ≡ find (nat_lt k)
            (positions (λ y. is_under_some key (touched_or_written (is_writes among) y)) es) }
        ensures cost { probe_count probes.new ≤ probe_count probes.old + 19 }
        ensures counts { probe_count probes.old ≤ probe_count probes.new }
        ensures looks { IsSome key → probe_count probes.old < probe_count probes.new }
    {
        let Some(key) = key else {
            return None;
        };
        Positions::found(self.by_key.kept_under(key, among), probes).first_above(k, probes)
    }

    /// Returns the first position above `k` of a step of this actor; `None` if there is none. The
    /// result is unspecified if the actor's positions don't ascend, or are 2^17 or more. It makes
    /// at least one probe and at most 19, before which fewer than 2^34 must be counted.
    fn first_by_actor(&self, k: u32, actor: u8, probes: &mut Probes) -> Option<u64>
        requires { probe_count probes.old < 2 ^ 34 }
        ensures answer { IsAscending (list_at self.now.by_actor.items actor)
            → length (list_at self.now.by_actor.items actor) < 2 ^ 17
            → result ≡ find (nat_lt k) (list_at self.now.by_actor.items actor) }
        ensures cost { probe_count probes.new ≤ probe_count probes.old + 19 }
        ensures counts { probe_count probes.old < probe_count probes.new }
    {
        let list = positions_in(&self.by_actor, usize::from(actor));
        Positions::found(list, probes).first_above(k, probes)
    }
}

/// Returns the lesser of two positions, or the one that is there; `None` if neither is.
fn earlier(a: Option<u64>, b: Option<u64>) -> Option<u64>
    ensures { result ≡ earlier a b }
{
    match (a, b) {
        (Some(m), Some(n)) => Some(m.min(n)),
        (Some(_), None) => a,
        (None, _) => b,
    }
}
