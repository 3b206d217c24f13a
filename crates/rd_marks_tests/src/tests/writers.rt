//! Last writers, of all places, against a scan of the live steps, in a session in which steps are
//! made, undone, taken out, rolled back and redone as it is drawn.

use rd_cell::{Place, Refusal, SegName, overlaps};
use rd_journal::Session;
use rd_origin::last_writer;
use rd_step::World;
use std::process::Abort;
use std::test::Fail;
use test_kit::{drawn_event, next_random};

const ROOT: SegName = SegName::ROOT;

const FIRST: SegName = SegName { maker: 1, n: 0 };

const SECOND: SegName = SegName { maker: 2, n: 0 };

/// Places of which some overlap, and the last of which is never there.
const PLACES: [Place; 22] = [
    Place::QHead,
    Place::QTail,
    Place::ArrHead,
    Place::ArrTail,
    Place::ArrCell(0),
    Place::ArrCell(1),
    Place::Whole(ROOT),
    Place::Head(ROOT),
    Place::Tail(ROOT),
    Place::Next(ROOT),
    Place::Cell(ROOT, 0),
    Place::Cell(ROOT, 1),
    Place::Val(ROOT, 0),
    Place::Idx(ROOT, 0),
    Place::Val(ROOT, 1),
    Place::Idx(ROOT, 1),
    Place::Whole(FIRST),
    Place::Tail(FIRST),
    Place::Cell(FIRST, 0),
    Place::Whole(SECOND),
    Place::Cell(SECOND, 1),
    Place::Cell(ROOT, 2),
];

/// The last live step that wrote the place or one of the places that it names, by a scan.
fn scanned(session: &Session<2>, place: Place) -> Option<u64> {
    let steps = session.live();
    for at in (0..steps.len()).rev() {
        let step = steps.at(at);
        if step
            .written()
            .is_some_and(|written| overlaps(written, place))
        {
            return Some(at as u64 + 1);
        }
    }
    None
}

/// Compares the last writer of each place with what the scan finds.
fn compare(rt: &impl Abort, session: &Session<2>) {
    for place in PLACES {
        let wanted = match session.world().content(place) {
            None => Err(Refusal::NoSuchPlace),
            Some(_) => Ok(scanned(session, place)),
        };
        assert_eq!(rt; last_writer(session, place), wanted, "{place:?}");
    }
}

/// Makes a step by one of four actors, as the number has it.
fn step(session: &mut Session<2>, number: u64) -> Result<(), Refusal> {
    let event = drawn_event(session.world(), 4, number);
    session.apply(event)?;
    Ok(())
}

/// Changes the session, as the number has it. A change that is refused changes nothing.
fn change(session: &mut Session<2>, number: u64) -> Result<(), Refusal> {
    let k = (number >> 20) % (session.len() + 1);
    match (number >> 45) % 12 {
        0 => session.undo(),
        1 => session.undo_at(k),
        2 => session.roll(k),
        3 => session.redo(),
        4 => session.forward(session.undone_len().min(2)),
        _ => step(session, number),
    }
}

#[test]
fn the_last_writer_is_what_a_scan_finds(rt: HostRuntime) -> Result<(), Fail> {
    let mut session = Session::open(rt.alloc(), World::<2>::fresh(rt.alloc(), 4)?);
    let mut number = 7;
    for _ in 0..60 {
        number = next_random(number);
        step(&mut session, number)?;
    }
    for _ in 0..400 {
        number = next_random(number);
        let _may_be_refused = change(&mut session, number);
        compare(&rt, &session);
    }
    Ok(())
}
