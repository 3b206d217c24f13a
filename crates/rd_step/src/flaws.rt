//! Why parts make no world: the eight conditions of a well-formed world, in the order in which the
//! code tests them. The rings have `R` cells, which must be at most 64.

ghost use Rattle.std.specs.Prelude.{◌≡◌, ◌≤◌, nat_le, length};
ghost use Rattle.std.specs.List.{list_all};
ghost use Rattle.rd_ring.specs.Prelude.{MOST_CELLS};
ghost use Rattle.rd_ring.specs.Segments.{counters_fit};
ghost use Rattle.rd_segments.specs.Parts.{each_segment};
ghost use Rattle.rd_actor.specs.Words.{words_fit};
ghost use Rattle.rd_step.specs.WellFormed.{names_fit, next_fits, numbers_within};
ghost use Rattle.rd_step.specs.Parts.{has_segment, makers_fit, place_names_fit, actor_names_fit, indexes_fit, first_flaw};

use super::parts::Parts;
use rd_actor::Actor;
use rd_cell::SegName;
use rd_cell::limits::{COUNTER_END, MOST_ACTORS, MOST_SEGMENTS, SLOTS};
use rd_ring::SegmentParts;

/// The first condition of a well-formed world that parts fail, with its number, 1 to 8.
#[derive(Clone, Copy, Debug, PartialEq, Eq)]
pub enum Flaw {
    /// 1: there aren't 1 to 16 actors; the lists of segments aren't one for each maker from 0 to
    /// the number of actors; maker 0 doesn't have exactly one segment; or another maker has more
    /// than 65,535.
    Makers,
    /// 2: one of the queue's ends, or a next, names a segment that is not there.
    PlaceNames,
    /// 3: an actor's words name a segment that is not there.
    ActorNames,
    /// 4: a segment's counter is above 2^62.
    Counters,
    /// 5: a cell's index is above 2^62 + `R`.
    Indexes,
    /// 6: a counter of the array is above 64.
    ArrayCounters,
    /// 7: an actor's t or h is above 2^62, or its idx above 2^62 + `R`.
    ActorNumbers,
    /// 8: an actor's words do not fit its control point.
    ActorWords,
}

impl Flaw {
    ghost use Rattle.rd_step.specs.Parts.{flaw_number};

    /// Returns the flaw's number, 1 to 8.
    pub fn number(self) -> u8
        ensures { result ≡ flaw_number self }
    {
        match self {
            Flaw::Makers => 1,
            Flaw::PlaceNames => 2,
            Flaw::ActorNames => 3,
            Flaw::Counters => 4,
            Flaw::Indexes => 5,
            Flaw::ArrayCounters => 6,
            Flaw::ActorNumbers => 7,
            Flaw::ActorWords => 8,
        }
    }
}

/// Why parts were not made into a world.
#[derive(Clone, Copy, Debug, PartialEq, Eq)]
pub enum Unassembled {
    /// The parts have this flaw, and none before it.
    Flaw(Flaw),
    /// Memory was refused.
    NoMemory,
}

impl<const R: usize> Parts<R> {
    /// Returns the first flaw of these parts, or none if they meet all eight conditions.
    pub(crate) fn first_flaw(&self) -> Option<Flaw>
        requires { R ≤ MOST_CELLS }
        ensures { result ≡ first_flaw self.now }
    {
        let index_end = COUNTER_END + R as u64;
        if !self.makers_fit() {
            Some(Flaw::Makers)
        } else if !self.place_names_fit() {
            Some(Flaw::PlaceNames)
        } else if !self.actor_names_fit() {
            Some(Flaw::ActorNames)
        } else if !self.all_counters_fit() {
            Some(Flaw::Counters)
        } else if !self.all_indexes_fit(index_end) {
            Some(Flaw::Indexes)
        } else if self.array.head > SLOTS as u64 || self.array.tail > SLOTS as u64 {
            Some(Flaw::ArrayCounters)
        } else if !actor_numbers_fit(&self.actors, index_end) {
            Some(Flaw::ActorNumbers)
        } else if !actor_words_fit(&self.actors) {
            Some(Flaw::ActorWords)
        } else {
            None
        }
    }

    /// Whether there are 1 to 16 actors, and a list for each maker from 0 to their number: maker 0
    /// with one segment, each other maker with at most 65,535.
    fn makers_fit(&self) -> bool
        requires { R ≤ MOST_CELLS }
        ensures { result ≡ makers_fit self.now }
    {
        let actors = self.actors.len();
        1 <= actors
            && actors <= MOST_ACTORS
            && self.segments.len() == actors + 1
            && self.segments[0].len() == 1
            && lists_fit(&self.segments)
    }

    /// Whether the queue's ends and each next that is set name a segment that is there.
    fn place_names_fit(&self) -> bool
        requires { R ≤ MOST_CELLS }
        ensures { result ≡ place_names_fit self.now }
    {
        self.has_segment(self.qhead) && self.has_segment(self.qtail) && self.all_nexts_fit()
    }

    /// Whether each next that is set names a segment that is there.
    fn all_nexts_fit(&self) -> bool
        requires { R ≤ MOST_CELLS }
        ensures { result ≡ each_segment (λ s.
            next_fits (has_segment self.now) s.next) self.now.segments.items }
    {
        self.segments.iter().all(
            |list| -> bool
                ensures { result ≡ list_all (λ s.
                    next_fits (has_segment self.entry.now) s.next) list.now.items }
            {
                list.iter().all(
                    |segment| -> bool
                        ensures { result ≡ next_fits (has_segment self.entry.now) segment.now.next }
                    {
                        match segment.next {
                            None => true,
                            Some(name) => self.has_segment(name),
                        }
                    },
                )
            },
        )
    }

    /// Whether the parts have a segment of this name.
    fn has_segment(&self, name: SegName) -> bool
        ensures { result ≡ has_segment self.now name }
    {
        match self.segments.get(usize::from(name.maker)) {
            None => false,
            Some(list) => list.get(name.n as usize).is_some(),
        }
    }

    /// Whether the parts have the segments that each actor's words name.
    fn actor_names_fit(&self) -> bool
        requires { R ≤ MOST_CELLS }
        ensures { result ≡ actor_names_fit self.now }
    {
        self.actors.iter().all(
            |actor| -> bool
                ensures { result ≡ names_fit (has_segment self.entry.now) actor.now }
            {
                self.has_segment(actor.crq)
                    && self.has_segment(actor.new)
                    && self.has_segment(actor.next)
            },
        )
    }

    /// Whether both counters of each segment are at most 2^62.
    fn all_counters_fit(&self) -> bool
        requires { R ≤ MOST_CELLS }
        ensures { result ≡ each_segment counters_fit self.now.segments.items }
    {
        self.segments.iter().all(
            |list| -> bool
                ensures { result ≡ list_all counters_fit list.now.items }
            {
                list.iter().all(
                    |segment| -> bool
                        ensures { result ≡ counters_fit segment.now }
                    { segment.head <= COUNTER_END && segment.tail <= COUNTER_END },
                )
            },
        )
    }

    /// Whether each cell's index is at most `end`.
    fn all_indexes_fit(&self, end: u64) -> bool
        requires { R ≤ MOST_CELLS }
        ensures { result ≡ each_segment (indexes_fit end) self.now.segments.items }
    {
        self.segments.iter().all(
            |list| -> bool
                ensures { result ≡ list_all (indexes_fit end) list.now.items }
            {
                list.iter().all(
                    |segment| -> bool
                        ensures { result ≡ indexes_fit end segment.now }
                    { segment.cells[..].iter().all(|cell| cell.idx <= end) },
                )
            },
        )
    }
}

/// Whether each maker's list has at most 65,535 segments.
fn lists_fit<const R: usize>(makers: &[Vec<SegmentParts<R>>]) -> bool
    requires { R ≤ MOST_CELLS }
    ensures { result ≡ list_all (λ list. nat_le (length list.items) MOST_SEGMENTS) makers.now }
{
    makers.iter().all(
        |list| -> bool
            ensures { result ≡ nat_le (length list.now.items) MOST_SEGMENTS }
        { list.len() <= MOST_SEGMENTS },
    )
}

/// Whether each actor's t and h are at most 2^62, and its idx at most `end`.
fn actor_numbers_fit(actors: &[Actor], end: u64) -> bool
    ensures { result ≡ list_all (numbers_within end) actors.now }
{
    actors.iter().all(
        |actor| -> bool
            ensures { result ≡ numbers_within end actor.now }
        { actor.t <= COUNTER_END && actor.h <= COUNTER_END && actor.idx <= end },
    )
}

/// Whether each actor's words fit its control point.
fn actor_words_fit(actors: &[Actor]) -> bool
    ensures { result ≡ list_all words_fit actors.now }
{
    actors.iter().all(|actor| actor.words_fit())
}
