//! The makers' lists of a space that is put together from parts, and the parts of such lists. The
//! segments have `R` cells, which must be at most 64.

ghost use Rattle.std.specs.Prelude.{◌≡◌, ◌≤◌, IsTrue, IfOk, length};
ghost use Rattle.std.specs.Fn.{FnReturnsAt};
ghost use Rattle.std.specs.List.{AllZip, Contains};
ghost use Rattle.rd_ring.specs.Prelude.{MOST_CELLS, SegName, Place};
ghost use Rattle.rd_ring.specs.Segments.{counters_fit};
ghost use Rattle.rd_segments.specs.Lists.{by_name, some_contents};
ghost use Rattle.rd_segments.specs.Parts.{some_parts_contents, each_segment};

use rd_ring::{Segment, SegmentParts};
use std::alloc::{AllocError, Global};

/// Returns the makers' lists with the segments that these parts describe, whose counters must be at
/// most 2^62.
///
/// # Errors
///
/// Only if memory was refused.
pub fn lists_from_parts<const R: usize>(
    alloc: Global,
    parts: &Vec<Vec<SegmentParts<R>>>,
) -> Result<Vec<Vec<Segment<R>>>, AllocError>
    requires small { R ≤ MOST_CELLS }
    requires within { IsTrue (each_segment counters_fit parts.now.items) }
    ensures ok { IfOk result (λ makers. (s : SegName) (q : Place)
        → some_contents (by_name makers.items s) q
        ≡ some_parts_contents (by_name parts.now.items s) q) }
    ensures number { IfOk result (λ makers. length makers.items ≡ length parts.now.items) }
{
    made_of_lists(alloc, parts, Segment::from_parts)
}

/// Returns the parts of the makers' lists; `lists_from_parts` makes equal lists from them.
///
/// # Errors
///
/// Only if memory was refused.
pub fn parts_of_lists<const R: usize>(
    alloc: Global,
    makers: &Vec<Vec<Segment<R>>>,
) -> Result<Vec<Vec<SegmentParts<R>>>, AllocError>
    requires { R ≤ MOST_CELLS }
    ensures ok { IfOk result (λ parts. (s : SegName) (q : Place)
        → some_parts_contents (by_name parts.items s) q
        ≡ some_contents (by_name makers.now.items s) q) }
    ensures number { IfOk result (λ parts. length parts.items ≡ length makers.now.items) }
{
    made_of_lists(alloc, makers, Segment::parts)
}

/// Returns lists with what `make` returns for each element of these, in the same order. It must be
/// possible to call `make` with each element. Fails only if memory is refused.
fn made_of_lists<X, Y: Drop, F: Fn(&X) -> Y + Copy>(
    alloc: Global,
    lists: &Vec<Vec<X>>,
    make: F,
) -> Result<Vec<Vec<Y>>, AllocError>
    requires { (list x : _) → Contains lists.now.items list → Contains list.items x.now
        → F.pre make x }
    ensures { IfOk result (λ made. AllZip (λ list its. AllZip (FnReturnsAt F.Fn make)
        list.items its.items) lists.now.items made.items) }
{
    let mut made = Vec::with_capacity(alloc, lists.len())?;
    for m in 0..lists.len() {
        let list = made_of_list(alloc, &lists[m], make)?;
        made.push_reserved(list);
    }
    Ok(made)
}

/// Returns what `make` returns for each element, in the same order. It must be possible to call
/// `make` with each. Fails only if memory is refused.
fn made_of_list<X, Y: Drop, F: Fn(&X) -> Y>(
    alloc: Global,
    list: &Vec<X>,
    make: F,
) -> Result<Vec<Y>, AllocError>
    requires { (x : _) → Contains list.now.items x.now → F.pre make x }
    ensures { IfOk result (λ made. AllZip (FnReturnsAt F.Fn make) list.now.items made.items) }
{
    let mut made = Vec::with_capacity(alloc, list.len())?;
    for n in 0..list.len() {
        made.push_reserved(make(&list[n]));
    }
    Ok(made)
}
