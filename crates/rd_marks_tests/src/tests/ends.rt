//! Events at the ends of counters, of a maker's segments and of the array: refused through a
//! session and through a book, with nothing changed.

use rd_actor::{Actor, Op, Pc};
use rd_cell::{Cell, Refusal};
use rd_journal::Session;
use rd_marks::{Book, Command};
use rd_step::{Parts, SegmentParts, World};
use std::alloc::{AllocError, Global};
use std::test::Fail;
use test_kit::go;

/// The end of the counters.
const END: u64 = 1 << 62;

/// A ring of one empty cell.
const RING: SegmentParts<1> = SegmentParts {
    head: 0,
    tail: 0,
    closed: false,
    next: None,
    cells: [Cell {
        safe: true,
        idx: 0,
        val: None,
    }; 1],
};

/// A world whose one actor is where its next step is at an end.
#[derive(Clone, Copy, Debug)]
struct End {
    pc: Pc,
    op: Op,
    tail: u64,
    made: u32,
    array_tail: u64,
    refusal: Refusal,
}

const ENDS: [End; 3] = [
    End {
        pc: Pc::E4,
        op: Op::Enq(7),
        tail: END,
        made: 0,
        array_tail: 0,
        refusal: Refusal::CounterEnd,
    },
    End {
        pc: Pc::E12,
        op: Op::Enq(7),
        tail: 0,
        made: 65_535,
        array_tail: 0,
        refusal: Refusal::SegmentsEnd,
    },
    End {
        pc: Pc::A1,
        op: Op::AEnq(7),
        tail: 0,
        made: 0,
        array_tail: 64,
        refusal: Refusal::ArrayEnd,
    },
];

/// The parts of that world.
fn parts(alloc: Global, end: End) -> Result<Parts<1>, AllocError> {
    let mut made = Vec::new(alloc);
    for _ in 0..end.made {
        made.push(RING)?;
    }
    let mut root = RING;
    root.tail = end.tail;
    let mut parts = test_kit::one_actor_parts(alloc, Actor::calling(end.pc, end.op), root, made)?;
    parts.array.tail = end.array_tail;
    Ok(parts)
}

#[test]
fn a_step_at_an_end_is_refused_by_session_and_book(rt: HostRuntime) -> Result<(), Fail> {
    for end in ENDS {
        let world = World::assemble(rt.alloc(), parts(rt.alloc(), end)?)?;
        let mut session = Session::open(rt.alloc(), world);
        assert_eq!(rt; session.apply(go(1)), Err(end.refusal), "{end:?}");
        let mut book = Book::open(rt.alloc(), session);
        assert_eq!(rt; book.obey(Command::Go(1)), Err(end.refusal), "{end:?}");
        let session = book.session();
        assert_eq!(rt; (session.len(), session.undone_len()), (0, 0));
        assert_eq!(rt;
            session.world().actor(1),
            Some(Actor::calling(end.pc, end.op))
        );
    }
    Ok(())
}
