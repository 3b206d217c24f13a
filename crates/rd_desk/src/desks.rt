//! The desk: a book with its history under the ticket lock. Here are opening, the meeting of two
//! passes, and closing; the calls are in `asking`.

ghost use Rattle.std.specs.Prelude.{◌≡◌, ◌<◌, ◌≤◌, ◌^◌, map, IfOk, IfErr, IsOk};
ghost use Rattle.rd_lock.specs.Lists.{HasAllUpTo, AreComparable};
ghost use Rattle.std.specs.List.{AllByRecursion};
ghost use Rattle.rd_lock.specs.Locks.{number as number_of, seen, served_seen, IsSamePass};
ghost use Rattle.rd_lock.specs.Opening.{IsOpened, IsClosedOver, HasSeenUpTo};
ghost use Rattle.rd_desk.specs.Desks.{IsViewerOf, opened_state, viewers as viewers_of};
ghost use Rattle.rd_desk.specs.Histories.{entries, IsLeftBy};

use super::histories::History;
use super::recording::BookWithHistory;
use rd_lock::{Busy, NoMemory, Pass, TicketLock};
use rd_marks::Book;
use std::alloc::Global;

/// The greatest number of viewers of a desk.
pub const MOST_VIEWERS: u64 = 64;

/// A viewer's right to ask: a pass of the desk's lock. Its number is the viewer's, from 1.
pub type DeskPass<const R: usize> = Pass<BookWithHistory<R>>;

/// One debugger that several viewers share.
#[derive(Drop)]
pub struct Desk<const R: usize> {
    /// The ticket lock that guards the book and its history.
    pub(crate) lock: TicketLock<BookWithHistory<R>>,
}

impl<const R: usize> Desk<R> {
    /// Returns a desk over the book, with an empty history, and one pass for each viewer. The
    /// passes are numbered from 1. There must be 1 to 64 viewers.
    ///
    /// # Errors
    ///
    /// `NoMemory` if memory was refused. It gives the book back.
    pub fn open(
        alloc: Global,
        book: Book<R>,
        viewers: u64,
    ) -> Result<(Desk<R>, Vec<DeskPass<R>>), (NoMemory, Book<R>)>
        requires viewers { (1 ≤ viewers) × (viewers ≤ MOST_VIEWERS) }
        ensures ok { IfOk result
            (λ opened. IsOpened book.entry viewers 0 opened.0.lock opened.1.items) }
        ensures err { IfErr result (λ refused. refused.1 ≡ book.entry) }
    {
        let kept = match BookWithHistory::new(alloc, book) {
            Ok(kept) => kept,
            Err(book) => return Err((NoMemory, book)),
        };
        let opened = TicketLock::open(alloc, kept, viewers);
        match opened {
            Ok((lock, passes)) => Ok((Desk { lock }, passes)),
            Err((refused, kept)) => {
                let BookWithHistory { book, .. } = kept;
                Err((refused, Box::into_inner(book)))
            }
        }
    }

    /// Lets two passes meet: in one step both see the ticket that is served now. Returns this
    /// ticket and both passes. Neither had seen a later ticket served. Of the histories that they
    /// have seen, one begins with the other; the call doesn't tell which. Both must be passes of
    /// this desk, and in no call.
    pub fn meet(&self, one: DeskPass<R>, other: DeskPass<R>) -> (u64, DeskPass<R>, DeskPass<R>)
        requires own { IsViewerOf self.now one × IsViewerOf self.now other }
        ensures own { IsViewerOf self.now result.1 × IsViewerOf self.now result.2 }
        ensures unchanged { IsSamePass one.entry result.1 × IsSamePass other.entry result.2 }
        ensures order { AreComparable (seen one.entry) (seen other.entry) }
        ensures newest { (served_seen one.entry ≤ result.0) × (served_seen other.entry ≤ result.0) }
        ensures served { (served_seen result.1 ≡ result.0) × (served_seen result.2 ≡ result.0) }
    {
        self.lock.meet(one, other)
    }

    /// Ends the desk, and returns the book and the history that led to it. The passes must be ones
    /// of this desk, and in no call.
    ///
    /// # Errors
    ///
    /// `Busy` with the two words of the lock if they differ. Neither is below what a pass in
    /// `passes` has seen. The book and the history are lost then. This never happens if all passes
    /// of the desk are handed in; a pass that was dropped inside a call may still hold the book.
    pub fn close(self, passes: Vec<DeskPass<R>>) -> Result<(Book<R>, History), Busy>
        requires own { AllByRecursion (IsViewerOf self) passes.items }
        ensures ok { IfOk result (λ closed. IsClosedOver self.entry.lock passes.entry.items
            (entries closed.1)) }
        ensures leaves { IfOk result (λ closed. IsLeftBy (opened_state self.entry)
            (entries closed.1) closed.0) }
        ensures err { IfErr result (λ words. (words.served < words.next) × (words.next ≤ 2 ^ 63)) }
        ensures newest { IfErr result (λ words. AllByRecursion
            (HasSeenUpTo words) passes.entry.items) }
        ensures succeeds { HasAllUpTo (viewers_of self.entry) (map number_of passes.entry.items)
            → IsOk result }
    {
        let Desk { lock } = self;
        let kept = lock.close(passes)?;
        let BookWithHistory { book, history, .. } = kept;
        Ok((Box::into_inner(book), history))
    }
}
