//! An index of steps that is refused memory: it finds what it found before, and takes the steps the
//! next time.

ghost use Rattle.rd_depend.specs.Index.{IsIndexOf};

use rd_cell::limits::MOST_STEPS;
use rd_cell::{Place, SegName, Wrote};
use rd_depend::{DependIndex, Probes, first_dependant};
use rd_step::Entry;
use std::alloc::{AllocError, Global};
use std::process::Abort;
use test_kit::access_entry;

/// An index beside the entries that it is of.
#[derive(Drop)]
struct Indexed {
    index: DependIndex,
    entries: Vec<Entry>,
    ghost same: { IsIndexOf index entries.items },
}

impl Indexed {
    /// No entry, and room beside the index for all that the tests push.
    fn new(alloc: Global) -> Result<Indexed, AllocError> {
        Ok(Indexed {
            index: DependIndex::new(alloc),
            entries: Vec::with_capacity(alloc, 2 * STEPS.len())?,
        })
    }

    /// Pushes an entry.
    fn push(&mut self, entry: Entry) -> Result<(), AllocError> {
        if self.entries.len() < MOST_STEPS {
            self.entries.reserve(1)?;
            self.index.push(&entry)?;
            self.entries.push_reserved(entry);
        }
        Ok(())
    }

    /// Makes room for these, if they are not too many.
    fn make_room(&mut self, entries: &[Entry]) -> Result<(), AllocError> {
        let len = self.entries.len();
        if len <= MOST_STEPS && entries.len() <= MOST_STEPS - len {
            self.index.make_room(entries)?;
        }
        Ok(())
    }

    /// Whether the first dependant of the entry of this index is the one that a scan finds.
    fn finds_at(&self, at: usize) -> bool {
        let mut probes = Probes::new();
        if at < self.entries.len() && self.entries.len() <= MOST_STEPS {
            let k = at as u64 + 1;
            let found = self.index.first(k, &self.entries[at], &mut probes);
            return found == first_dependant(&self.entries, k);
        }
        false
    }

    /// Whether there is a position for each entry, and each first dependant is the one that a scan
    /// finds.
    fn finds_all(&self) -> bool {
        for at in 0..self.entries.len() {
            if !self.finds_at(at) {
                return false;
            }
        }
        self.index.len() == self.entries.len() as u64
    }
}

/// What an index looks at: the actor, the place, and what the access wrote of it.
type Access = (u8, Option<Place>, Wrote);

/// A segment that actor 1 made.
const MADE: SegName = SegName { maker: 1, n: 0 };

/// Steps at many places by many actors, so that each list and each table of an index grows more
/// than once.
const STEPS: [Access; 16] = [
    (1, None, Wrote::Nothing),
    (1, Some(Place::QTail), Wrote::Nothing),
    (2, Some(Place::QTail), Wrote::Place),
    (3, Some(Place::Whole(MADE)), Wrote::Place),
    (1, Some(Place::Cell(MADE, 0)), Wrote::Place),
    (2, Some(Place::Cell(MADE, 1)), Wrote::Index),
    (9, Some(Place::Tail(MADE)), Wrote::Place),
    (16, Some(Place::Head(MADE)), Wrote::Nothing),
    (16, Some(Place::Next(MADE)), Wrote::Nothing),
    (4, Some(Place::Cell(SegName::ROOT, 0)), Wrote::Place),
    (5, Some(Place::Cell(SegName::ROOT, 1)), Wrote::Place),
    (6, Some(Place::Head(SegName::ROOT)), Wrote::Place),
    (7, Some(Place::ArrHead), Wrote::Place),
    (8, Some(Place::ArrTail), Wrote::Place),
    (9, Some(Place::ArrCell(0)), Wrote::Place),
    (1, Some(Place::QTail), Wrote::Place),
];

/// An index of no entries.
fn fresh(rt: &impl Abort, alloc: Global) -> Indexed {
    Indexed::new(alloc)
        .or(Indexed::new(alloc))
        .expect(rt, "refused memory twice")
}

/// Pushes an entry, again if memory was refused. Returns whether it was pushed at last, and the
/// index found all there was between.
fn is_pushed(indexed: &mut Indexed, entry: Entry) -> bool {
    indexed.push(entry).is_ok() || indexed.finds_all() && indexed.push(entry).is_ok()
}

/// Makes room for these entries, again if memory was refused. Returns whether it was made at last,
/// and the index found all there was between.
fn has_room(indexed: &mut Indexed, entries: &[Entry]) -> bool {
    indexed.make_room(entries).is_ok() || indexed.finds_all() && indexed.make_room(entries).is_ok()
}

#[test]
fn an_index_that_is_refused_memory_finds_what_it_found_and_takes_the_step_the_next_time(
    rt: HostRuntime,
) {
    let mut indexed = fresh(&rt, rt.alloc());
    for access in &STEPS {
        assert!(&rt; is_pushed(&mut indexed, access_entry(*access)));
    }
    assert!(&rt; indexed.finds_all());
}

#[test]
fn room_that_is_refused_to_an_index_is_made_the_next_time_and_pushes_ask_for_none(rt: HostRuntime) {
    let mut indexed = fresh(&rt, rt.alloc());
    assert!(&rt; is_pushed(&mut indexed, access_entry(STEPS[1])));
    let entries = STEPS.map(access_entry);
    assert!(&rt; has_room(&mut indexed, &entries));
    assert!(&rt; indexed.finds_all());
    for entry in &entries {
        assert!(&rt; indexed.push(*entry).is_ok());
    }
    assert!(&rt; indexed.finds_all());
}
