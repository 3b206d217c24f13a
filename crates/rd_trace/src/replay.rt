//! The steps of replaying a session that was read: its world, its bookmarks one after another, and
//! its events.

ghost use Rattle.std.specs.Prelude.{◌≡◌, ◌<◌, ◌≤◌, ◌++◌, [], map, length, IfErr};
ghost use Rattle.rd_step.specs.Prelude.{MOST_CELLS};
ghost use Rattle.rd_marks.specs.Book.{book_state};
ghost use Rattle.rd_marks.specs.NameBytes.{MOST_MARKS};
ghost use Rattle.rd_trace.specs.Starts.{IsFreshCountInRange};
ghost use Rattle.rd_marks.specs.Rules.{CanRun, HaveDifferentNames};
ghost use Rattle.rd_trace.specs.Bookmarks.{saved_mark};
ghost use Rattle.rd_trace.specs.Steps.{MakesWorld, GoesTo, SetsMarks};

use super::bookmarks::SavedMark;
use super::faults::TraceFault;
use super::starts::Start;
use rd_cell::Refusal;
use rd_marks::Book;
use rd_step::{Event, Unassembled, World, common_beginning_len};
use std::alloc::Global;

/// Returns the world of a start. `R` must be from 1 to 64, and a fresh start must have 1 to 16
/// actors. Fails with `Flawed` and the first condition that fails if the start makes no well-formed
/// world, and with `NoMemory` if memory is refused.
pub fn world_of<const R: usize>(alloc: Global, start: Start<R>) -> Result<World<R>, TraceFault>
    requires positive { 1 ≤ R }
    requires small { R ≤ MOST_CELLS }
    requires counted { IsFreshCountInRange start }
    ensures { MakesWorld start.entry result }
{
    match start {
        Start::Fresh(actors) => match World::fresh(alloc, actors) {
            Err(_) => Err(TraceFault::NoMemory),
            Ok(world) => Ok(world),
        },
        Start::Parts(parts) => match World::assemble(alloc, parts) {
            Err(Unassembled::Flaw(flaw)) => Err(TraceFault::Flawed(flaw)),
            Err(Unassembled::NoMemory) => Err(TraceFault::NoMemory),
            Ok(world) => Ok(world),
        },
    }
}

/// Sets bookmarks in a book, each at its own events, and leaves the last one's events live. The
/// book must have no bookmark, and there must be at most 64 bookmarks to set, with different names.
/// Fails with `TraceMark` at the first event that is refused, and with `NoMemory` if memory is
/// refused; some bookmarks may then be set, and other events live.
pub fn set_marks<const R: usize>(book: &mut Book<R>, marks: &[SavedMark]) -> Result<(), TraceFault>
    requires names { HaveDifferentNames (map saved_mark marks.now) }
    requires few { length marks.now ≤ MOST_MARKS }
    requires none { (book_state book.old).marks ≡ [] }
    ensures { SetsMarks (book_state book.old) (map saved_mark marks.now)
        (book_state book.new) result }
{
    for i in 0..marks.len() {
        if let Err(fault) = go_to(book, &marks[i].events) {
            let TraceFault::TraceStep { step, cause } = fault else {
                return Err(fault);
            };
            let mark = i as u64 + 1;
            return Err(TraceFault::TraceMark { mark, step, cause });
        }
        if let Err(refusal) = book.mark(marks[i].name) {
            match refusal {
                Refusal::NoMemory => return Err(TraceFault::NoMemory),
                _ => unreachable!(),
            }
        }
    }
    Ok(())
}

/// Makes just these events live, with nothing undone; the bookmarks stay. It undoes live events
/// only from the first one in which the two lists differ. Fails with `TraceStep` at the first event
/// that is refused, and with `NoMemory` if memory is refused. The events before it are then live.
pub fn go_to<const R: usize>(book: &mut Book<R>, events: &[Event]) -> Result<(), TraceFault>
    ensures { GoesTo (book_state book.old) events.now (book_state book.new) result }
{
    let kept = common_beginning_len(&book.session().live(), &events);
    book.keep_first(kept as u64);
    step_all(book, &events[kept..])
}

/// Makes events happen after the live ones, in order. Nothing must be undone in the book, and its
/// live events must be able to run from its start, as those of every book are. Fails with
/// `TraceStep` at the first event that is refused, which is numbered after the live events, and
/// with `NoMemory` if memory is refused. The events before it are then live. With no events it
/// can't fail.
pub fn step_all<const R: usize>(book: &mut Book<R>, events: &[Event]) -> Result<(), TraceFault>
    requires through { CanRun (book_state book.old).session.start
        (book_state book.old).session.live }
    requires none { (book_state book.old).session.undone ≡ [] }
    ensures goes { GoesTo (book_state book.old) ((book_state book.old).session.live ++ events.now)
        (book_state book.new) result }
    ensures err { IfErr result (λ fault. 0 < length events.now) }
{
    for event in events {
        if let Err(cause) = book.apply(*event) {
            if let Refusal::NoMemory = cause {
                return Err(TraceFault::NoMemory);
            }
            let step = book.session().len() + 1;
            return Err(TraceFault::TraceStep { step, cause });
        }
    }
    Ok(())
}
