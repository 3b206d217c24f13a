//! The steps that the tests have in common.
ghost use Rattle.std.specs.List.{AllByRecursion};
ghost use Rattle.rd_desk.specs.Desks.{IsNewViewer, IsViewerOf};

use rd_desk::{Answer, Desk, DeskPass};
use rd_journal::Session;
use rd_marks::Book;
use rd_step::World;
use std::alloc::Global;
use std::process::Abort;

/// A book over a fresh world.
pub(super) fn fresh(rt: &impl Abort, alloc: Global) -> Book<4> {
    let Ok(world) = World::fresh(alloc, 4) else {
        panic!(rt; "out of memory")
    };
    Book::open(alloc, Session::open(alloc, world))
}

/// The last of the passes.
pub(super) fn last_pass(
    rt: &impl Abort,
    desk: &Desk<4>,
    passes: &mut Vec<DeskPass<4>>,
) -> DeskPass<4>
    requires each { AllByRecursion (IsNewViewer desk.now) passes.old.items }
    ensures own { IsViewerOf desk.now result }
    ensures each { AllByRecursion (IsNewViewer desk.now) passes.new.items }
{
    let _ = desk;
    let Some(pass) = passes.pop() else {
        panic!(rt; "too few passes")
    };
    pass
}

/// Compares the answer to the call of this number with what is wanted.
pub(super) fn compare(rt: &impl Abort, call: u64, answer: Answer, wanted: Answer) {
    assert_eq!(rt; answer, wanted, "call {call}");
}
