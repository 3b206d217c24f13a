//! A book whose ring is known only when the program runs.

ghost use Rattle.std.specs.Prelude.{◌≡◌, ◌≤◌, IfOk};
ghost use Rattle.rd_step.specs.Prelude.{MOST_ACTORS, MOST_CELLS};
ghost use Rattle.rd_marks.specs.Book.{book_state};
ghost use Rattle.rd_marks.specs.AnyBook.{fresh_state, IsBookIn};
ghost use Rattle.rd_marks.specs.Ring.{ring_length};

use super::books::Book;
use super::rings::Ring;
use rd_journal::Session;
use rd_step::World;
use std::alloc::{AllocError, Global};

/// A book over rings of 2, 4 or 8 cells.
#[derive(Drop)]
pub enum AnyBook {
    /// Over rings of 2 cells.
    Two(Book<2>),
    /// Over rings of 4 cells.
    Four(Book<4>),
    /// Over rings of 8 cells.
    Eight(Book<8>),
}

impl AnyBook {
    /// Returns a book over the fresh world of this many actors, which must be 1 to 16, and of rings
    /// of this size, with no step and no bookmark. Fails only if memory was refused.
    pub fn fresh(alloc: Global, ring: Ring, actors: u8) -> Result<AnyBook, AllocError>
        requires some { 1 ≤ actors }
        requires few { actors ≤ MOST_ACTORS }
        ensures { IfOk result (IsBookIn (fresh_state (ring_length ring) actors)) }
    {
        match ring {
            Ring::Two => Ok(AnyBook::Two(fresh_book(alloc, actors)?)),
            Ring::Four => Ok(AnyBook::Four(fresh_book(alloc, actors)?)),
            Ring::Eight => Ok(AnyBook::Eight(fresh_book(alloc, actors)?)),
        }
    }
}

/// Returns a book over the fresh world of this many actors, which must be 1 to 16, and of rings of
/// `R` cells, which must be 1 to 64, with no step and no bookmark. Fails only if memory was
/// refused.
fn fresh_book<const R: usize>(alloc: Global, actors: u8) -> Result<Book<R>, AllocError>
    requires some { 1 ≤ actors }
    requires few { actors ≤ MOST_ACTORS }
    requires positive { 1 ≤ R }
    requires small { R ≤ MOST_CELLS }
    ensures { IfOk result (λ book. book_state book ≡ fresh_state R actors) }
{
    let Ok(world) = World::fresh(alloc, actors) else {
        return Err(AllocError);
    };
    Ok(Book::open(alloc, Session::open(alloc, world)))
}
