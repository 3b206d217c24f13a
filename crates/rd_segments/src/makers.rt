//! The makers' lists of a fresh space, and the test for them. The segments have `R` cells, which
//! must be at most 64.

ghost use Rattle.std.specs.Prelude.{◌≡◌, ◌≤◌, ◌↔◌, IfOk, IsTrue, [], suc, length};
ghost use Rattle.std.specs.List.{All};
ghost use Rattle.rd_ring.specs.Prelude.{MOST_CELLS};
ghost use Rattle.rd_segments.specs.Lists.{AreFreshLists, IsOneFreshSegment};

use rd_ring::Segment;
use std::alloc::{AllocError, Global};

/// Returns a list for each maker from 0 to the number of actors. Maker 0's list has just the root,
/// which is fresh, and the others are empty.
///
/// # Errors
///
/// Only if memory was refused.
pub fn fresh_space_lists<const R: usize>(
    alloc: Global,
    actors: u8,
) -> Result<Vec<Vec<Segment<R>>>, AllocError>
    requires { R ≤ MOST_CELLS }
    ensures ok { IfOk result (λ makers. AreFreshLists makers.items) }
    ensures number { IfOk result (λ makers. length makers.items ≡ suc actors) }
{
    let mut makers = Vec::with_capacity(alloc, usize::from(actors) + 1)?;
    let mut root = Vec::with_capacity(alloc, 1)?;
    root.push_reserved(Segment::fresh());
    makers.push_reserved(root);
    for _ in 0..actors {
        makers.push_reserved(Vec::new(alloc));
    }
    Ok(makers)
}

/// Whether these are the lists of a fresh space: the root is the only segment, and it is fresh.
pub fn are_fresh_lists<const R: usize>(makers: &[Vec<Segment<R>>]) -> bool
    requires { R ≤ MOST_CELLS }
    ensures { IsTrue result ↔ AreFreshLists makers.now }
{
    match makers {
        [] => false,
        [first, others @ ..] => is_one_fresh_segment(first) && are_empty_lists(others),
    }
}

/// Whether the list has just one segment, which is fresh.
fn is_one_fresh_segment<const R: usize>(list: &[Segment<R>]) -> bool
    requires { R ≤ MOST_CELLS }
    ensures { IsTrue result ↔ IsOneFreshSegment list.now }
{
    match list {
        [segment] => segment.is_fresh(),
        _ => false,
    }
}

/// Whether none of these lists has a segment.
fn are_empty_lists<const R: usize>(makers: &[Vec<Segment<R>>]) -> bool
    requires { R ≤ MOST_CELLS }
    ensures { IsTrue result ↔ All (λ list. list.items ≡ []) makers.now }
{
    makers.iter().all(
        |list| -> bool
            ensures { IsTrue result ↔ (list.now.items ≡ []) }
        { is_empty_list(list) },
    )
}

/// Whether a list has no segment.
fn is_empty_list<const R: usize>(list: &Vec<Segment<R>>) -> bool
    ensures { IsTrue result ↔ (list.now.items ≡ []) }
{
    list.is_empty()
}
