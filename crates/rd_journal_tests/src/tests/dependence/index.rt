//! Tests of the index: whatever is pushed, taken from the end, taken out or moved, the first
//! dependants and the last writers that it finds are those of a scan.

ghost use Rattle.std.specs.Prelude.{◌≡◌, ◌≤◌, length, List};
ghost use Rattle.rd_step.specs.declared.entries.Entry.{Entry as SomeEntry};
ghost use Rattle.rd_depend.specs.Index.{IsIndexOf, HasRoomFor};
ghost use Rattle.rd_depend.specs.Moved.{moved_to};

use super::{Access, MADE, OTHER, recorded};
use rd_cell::limits::MOST_STEPS;
use rd_cell::{Place, Wrote, overlaps};
use rd_depend::{DependIndex, Probes, depends, first_dependant};
use rd_step::Entry;
use std::alloc::Global;
use std::process::Abort;
use std::test::Fail;
use test_kit::{access_entry, next_random};

/// An index beside the entries that it is of.
#[derive(Drop)]
struct Both {
    index: DependIndex,
    entries: Vec<Entry>,
    ghost same: { IsIndexOf index entries.items },
}

impl Both {
    ghost use Rattle.std.specs.Prelude.{◌<◌, OnOk};

    /// No entry.
    fn new(alloc: Global) -> Both {
        Both {
            index: DependIndex::new(alloc),
            entries: Vec::new(alloc),
        }
    }

    /// These entries, pushed one by one.
    fn of(alloc: Global, entries: &[Entry]) -> Result<Both, Fail> {
        let mut both = Both::new(alloc);
        both.push_each(entries)?;
        Ok(both)
    }

    /// Pushes an entry, or does nothing where there are 65,535.
    fn push(&mut self, entry: Entry) -> Result<(), Fail> {
        if self.entries.len() < MOST_STEPS {
            self.entries.reserve(1)?;
            self.index.push(&entry)?;
            self.entries.push_reserved(entry);
        }
        Ok(())
    }

    /// Pushes these entries one by one.
    fn push_each(&mut self, entries: &[Entry]) -> Result<(), Fail> {
        for entry in entries {
            self.push(*entry)?;
        }
        Ok(())
    }

    /// Takes the last entry away, if there is one.
    fn pop(&mut self)
        ensures { (rest : List SomeEntry) → HasRoomFor self.old.index rest
            → HasRoomFor self.new.index rest }
    {
        if let Some(entry) = self.entries.pop() {
            self.index.pop(&entry);
        }
    }

    /// Takes the entry of this index out.
    fn remove(&mut self, at: usize) {
        if at < self.entries.len() && self.entries.len() <= MOST_STEPS {
            let entry = self.entries.remove(at);
            self.index.remove(at as u64 + 1, &entry);
        }
    }

    /// Moves the `k`-th entry, from 1, after the later ones up to the `n`-th, if they are there.
    fn move_to(&mut self, k: usize, n: usize) {
        let len = self.entries.len();
        if 1 <= k && k <= n && n <= len && len <= MOST_STEPS {
            move_entry(&mut self.entries, k, n);
            self.index.move_to(k as u64, n as u64);
        }
    }

    /// Puts these entries at the end by one call; if they are too many, the test ends.
    fn push_all(self, new: &[Entry]) -> Result<Both, Fail> {
        let len = self.entries.len();
        if len > MOST_STEPS || new.len() > MOST_STEPS - len {
            return Err(Fail::new("too many entries"));
        }
        let Both {
            mut index,
            mut entries,
        } = self;
        index.push_all(new)?;
        entries.extend_from_slice(new)?;
        Ok(Both { index, entries })
    }

    /// Compares whether each of these entries depends on one of those after the first `n` with what
    /// a scan finds.
    fn compare_after(&self, rt: &impl Abort, n: usize, entries: &[Entry]) {
        let len = self.entries.len();
        if n <= len && len <= MOST_STEPS && n as u64 <= self.index.len() {
            for entry in entries {
                let found = self.index.depends_on_any_after(n as u64, entry);
                let wanted = depends_on_any(&self.entries[n..], entry);
                assert!(rt; found == wanted, "after {n}");
            }
        }
    }

    /// Makes room for these; if they are too many, the test ends.
    fn make_room(&mut self, entries: &[Entry]) -> Result<(), Fail>
        ensures { OnOk result (HasRoomFor self.new.index entries.now) }
    {
        let len = self.entries.len();
        if len > MOST_STEPS || entries.len() > MOST_STEPS - len {
            return Err(Fail::new("too many entries"));
        }
        self.index.make_room(entries)?;
        Ok(())
    }

    /// Makes room for these entries, takes this many others from the end, and pushes these. Gives
    /// how many positions there are then.
    fn push_after_pops(self, entries: &[Entry], pops: usize) -> Result<u64, Fail> {
        let mut both = self;
        both.make_room(entries)?;
        for _ in 0..pops {
            both.pop();
        }
        let Both {
            mut index,
            entries: _entries,
        } = both;
        push_in_room(&mut index, entries);
        Ok(index.len())
    }

    /// Compares the first dependant of the entry of this index with what the scan finds; gives the
    /// probes.
    fn compare(&self, rt: &impl Abort, at: usize) -> u64 {
        let mut probes = Probes::new();
        if at < self.entries.len() && self.entries.len() <= MOST_STEPS {
            let k = at as u64 + 1;
            let found = self.index.first(k, &self.entries[at], &mut probes);
            assert_eq!(rt; found, first_dependant(&self.entries, k), "at {k}");
        }
        probes.count()
    }

    /// Compares the last writers of each place among the first `n` entries with what a scan finds.
    fn compare_writers(&self, rt: &impl Abort, n: usize) {
        for place in PLACES {
            if let Some(place) = place {
                self.compare_writer(rt, n, *place);
            }
        }
    }

    /// Compares the last writer of the place.
    fn compare_writer(&self, rt: &impl Abort, n: usize, place: Place) {
        let mut probes = Probes::new();
        if n <= self.entries.len()
            && self.entries.len() <= MOST_STEPS
            && n as u64 <= self.index.len()
        {
            let found = self.index.last_writer(n as u64, place, &mut probes);
            assert_eq!(rt;
                found,
                last_writer(&self.entries[..n], place),
                "among {n}, of {place:?}"
            );
        }
        assert!(rt; probes.count() <= 57);
    }

    /// Compares each, and the last writers among all and among half of them.
    fn compare_all(&self, rt: &impl Abort) {
        assert_eq!(rt; self.index.len(), self.entries.len() as u64);
        self.compare_writers(rt, self.entries.len());
        self.compare_writers(rt, self.entries.len() / 2);
        for at in 0..self.entries.len() {
            assert!(rt; self.compare(rt, at) <= 96);
        }
    }
}

/// Moves the `k`-th entry, from 1, after the later ones up to the `n`-th.
fn move_entry(entries: &mut [Entry], k: usize, n: usize)
    requires some { 1 ≤ k }
    requires order { k ≤ n }
    requires within { n ≤ length entries.old }
    ensures { entries.new ≡ moved_to entries.old k n }
{
    entries[k - 1..n].rotate_left(1);
}

/// Whether an entry depends on one of these, by a scan.
fn depends_on_any(entries: &[Entry], entry: &Entry) -> bool {
    for other in entries {
        if depends(other, entry) {
            return true;
        }
    }
    false
}

/// Pushes these entries, for which there is room. None is refused, whatever memory there is: it is
/// proved that the arm of a refusal can't be reached. It stops where the index has as many
/// positions as there may be.
fn push_in_room(index: &mut DependIndex, entries: &[Entry])
    requires { HasRoomFor index.old entries.now }
{
    for at in 0..entries.len() {
        if index.len() >= MOST_STEPS as u64 {
            return;
        }
        match index.push(&entries[at]) {
            Ok(()) => {}
            Err(_) => unreachable!(),
        }
    }
}

/// The last of these entries that wrote the place or one that overlaps it, from 1, by a scan.
fn last_writer(entries: &[Entry], place: Place) -> Option<u64> {
    for at in (0..entries.len()).rev() {
        let entry = entries[at];
        if entry
            .written()
            .is_some_and(|written| overlaps(written, place))
        {
            return Some(at as u64 + 1);
        }
    }
    None
}

/// Places of which some overlap.
const PLACES: &[Option<Place>; 20] = &[
    None,
    Some(Place::QHead),
    Some(Place::QTail),
    Some(Place::Head(MADE)),
    Some(Place::Tail(MADE)),
    Some(Place::Next(MADE)),
    Some(Place::Cell(MADE, 0)),
    Some(Place::Cell(MADE, 1)),
    Some(Place::Val(MADE, 0)),
    Some(Place::Idx(MADE, 0)),
    Some(Place::Val(MADE, 1)),
    Some(Place::Idx(OTHER, 1)),
    Some(Place::Whole(MADE)),
    Some(Place::Head(OTHER)),
    Some(Place::Cell(OTHER, 1)),
    Some(Place::Whole(OTHER)),
    Some(Place::ArrHead),
    Some(Place::ArrTail),
    Some(Place::ArrCell(1)),
    Some(Place::ArrCell(63)),
];

/// Numbers that follow no pattern.
#[derive(Drop)]
pub(super) struct Draws {
    pub(super) state: u64,
}

impl Draws {
    ghost use Rattle.std.specs.Prelude.{◌<◌};

    /// The next number.
    pub(super) fn next(&mut self) -> u64 {
        self.state = next_random(self.state);
        self.state
    }

    /// A number below this one.
    pub(super) fn below(&mut self, end: u32) -> u32
        requires { 0 < end }
        ensures { result < end }
    {
        (self.next() >> 32) as u32 % end
    }

    /// An access by one of the actors up to this number.
    fn access(&mut self, actors: u8) -> Access {
        let actor = self.below(u32::from(actors) + 1).min(255) as u8;
        let place = PLACES[self.below(20) as usize];
        let wrote = match self.below(6) {
            0 => Wrote::Place,
            1 => Wrote::Index,
            _ => Wrote::Nothing,
        };
        (actor, place, wrote)
    }
}

/// Makes a change: pushes, pops, takes out or moves, as it is drawn.
fn change(both: &mut Both, draws: &mut Draws, actors: u8) -> Result<(), Fail> {
    let len = both.entries.len();
    match draws.below(8) {
        0 => both.pop(),
        1 => {
            let at = draws.below(64) as usize;
            both.remove(at.min(len));
        }
        2 => {
            let k = draws.below(64) as usize;
            let n = draws.below(64) as usize;
            both.move_to(k.min(len), n.min(len));
        }
        _ => both.push(access_entry(draws.access(actors)))?,
    }
    Ok(())
}

#[test]
fn the_index_finds_what_the_scan_finds(rt: HostRuntime) -> Result<(), Fail> {
    let mut draws = Draws { state: 1 };
    for actors in [0, 2, 40] {
        let mut both = Both::new(rt.alloc());
        for _ in 0..120 {
            change(&mut both, &mut draws, actors)?;
            both.compare_all(&rt);
        }
    }
    Ok(())
}

/// The last entries of a long list and the first ones.
const AT: &[usize] = &[0, 1, 255, 256, 32_767, 65_533, 65_534];

#[test]
fn as_many_entries_as_there_may_be_are_found_by_few_probes(rt: HostRuntime) -> Result<(), Fail> {
    let mut both = Both::new(rt.alloc());
    let entry = access_entry((1, Some(Place::Tail(MADE)), Wrote::Place));
    for _ in 0..MOST_STEPS {
        both.push(entry)?;
    }
    compare_at(&rt, &both);
    for at in AT {
        both.compare_writers(&rt, *at);
    }
    both.remove(0);
    both.pop();
    compare_at(&rt, &both);
    Ok(())
}

/// Compares the first dependants of the last entries of a long list and of the first ones, each
/// found by few probes.
fn compare_at(rt: &impl Abort, both: &Both) {
    for at in AT {
        assert!(rt; both.compare(rt, *at) <= 96);
    }
}

/// Reads of a segment's cells by several actors, and a write of the whole of it between them.
const WHOLE: &[Access] = &[
    (1, Some(Place::Cell(MADE, 0)), Wrote::Nothing),
    (2, Some(Place::Cell(MADE, 1)), Wrote::Nothing),
    (3, Some(Place::Whole(MADE)), Wrote::Place),
    (4, Some(Place::Cell(OTHER, 0)), Wrote::Place),
    (5, Some(Place::Cell(MADE, 0)), Wrote::Nothing),
    (6, Some(Place::Whole(MADE)), Wrote::Nothing),
    (7, Some(Place::Cell(MADE, 1)), Wrote::Place),
];

#[test]
fn the_whole_of_a_segment_is_found_between_its_cells(rt: HostRuntime) -> Result<(), Fail> {
    let mut both = Both::new(rt.alloc());
    for access in WHOLE {
        both.push(access_entry(*access))?;
        both.compare_all(&rt);
    }
    for _ in 0..WHOLE.len() {
        both.remove(1);
        both.compare_all(&rt);
    }
    Ok(())
}

#[test]
fn a_position_that_moved_is_found_where_the_scan_finds_it(rt: HostRuntime) -> Result<(), Fail> {
    let entries = recorded(rt.alloc(), WHOLE)?;
    for k in 1..WHOLE.len() + 1 {
        for n in k..WHOLE.len() + 1 {
            let mut both = Both::of(rt.alloc(), &entries)?;
            both.move_to(k, n);
            both.compare_all(&rt);
        }
    }
    Ok(())
}

#[test]
fn entries_pushed_by_one_call_are_found(rt: HostRuntime) -> Result<(), Fail> {
    let entries = recorded(rt.alloc(), WHOLE)?;
    let mut both = Both::new(rt.alloc());
    for _ in 0..3 {
        both = both.push_all(&entries)?;
        both.compare_all(&rt);
    }
    assert_eq!(rt; both.index.len(), 3 * WHOLE.len() as u64);
    Ok(())
}

#[test]
fn an_entry_depends_on_one_behind_as_the_scan_finds(rt: HostRuntime) -> Result<(), Fail> {
    let entries = recorded(rt.alloc(), WHOLE)?;
    let both = Both::new(rt.alloc()).push_all(&entries)?;
    for n in 0..WHOLE.len() + 1 {
        both.compare_after(&rt, n, &entries);
    }
    Ok(())
}

#[test]
fn room_that_was_made_is_there_for_the_entries(rt: HostRuntime) -> Result<(), Fail> {
    let entries = recorded(rt.alloc(), WHOLE)?;
    let mut both = Both::new(rt.alloc());
    both.make_room(&entries)?;
    assert_eq!(rt; both.index.len(), 0);
    both.push_each(&entries)?;
    both.compare_all(&rt);
    Ok(())
}

#[test]
fn entries_with_room_are_not_refused_after_pops(rt: HostRuntime) -> Result<(), Fail> {
    let entries = recorded(rt.alloc(), WHOLE)?;
    for pops in 0..WHOLE.len() + 1 {
        let kept = WHOLE.len() - pops;
        let len = Both::of(rt.alloc(), &entries)?.push_after_pops(&entries, pops)?;
        assert_eq!(rt; len, (kept + WHOLE.len()) as u64, "after {pops} pops");
    }
    Ok(())
}
