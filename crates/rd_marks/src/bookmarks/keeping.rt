//! Adding a bookmark at the end of the list, removing the entries that no bookmark needs, and
//! moving each node to where its entries are.

ghost use Rattle.std.specs.Prelude.{◌≡◌, ◌<◌, ◌≤◌, ◌++◌, [], ◌∷◌, None, suc, map, length};
ghost use Rattle.std.specs.List.{All};
ghost use Rattle.std.specs.Map.{lookup};
ghost use Rattle.indexmap.specs.IndexMap.{spare};
ghost use Rattle.rd_marks.specs.Changes.{shifted, CanShiftUp};
ghost use Rattle.rd_marks.specs.BookmarksFields.{nodes_of, IsPruned};
ghost use Rattle.rd_marks.specs.Names.{mark_name_eq};
ghost use Rattle.rd_marks.specs.Stretches.{greatest_len_in_stretch, IsWithin, AreNeededFrom};

use super::super::names::MarkName;
use super::super::stretches::{Grown, Node, Shift, Stretches};
use indexmap::IndexMap;

/// Adds a bookmark of this name, which none may have, at the end of the list. There must be room
/// for its name. Its entries are those of `grown.node`. The nodes of the others are renumbered as
/// `grown.shift` says; such a node must have a stretch number below 2^64 - 1 if it has entries.
pub(super) fn add_bookmark(names: &mut IndexMap<MarkName, Node>, name: MarkName, grown: Grown)
    requires new { lookup (mark_name_eq name) names.old.entries ≡ None }
    requires room { 0 < spare names.old }
    requires low { All (λ m. CanShiftUp m.1) names.old.entries }
    ensures { names.new.entries ≡ map (λ m. (m.0, shifted grown.shift m.1)) names.old.entries
        ++ (name, grown.node) ∷ [] }
{
    shift_nodes(names, grown.shift);
    match names.insert(name, grown.node) {
        Err(_) => unreachable!(),
        Ok(_) => {}
    }
}

/// Returns where `here` is after the first `len` live entries were added: at the node of these, or,
/// if `here` has more entries, at its old node, renumbered as the stretches were. If `here` has
/// entries, its stretch number must be below 2^64 - 1.
pub(super) fn here_after_growth(here: Node, len: usize, grown: Grown) -> Node
    requires { CanShiftUp here }
    ensures near { here.number ≤ len → result ≡ grown.node }
    ensures far { len < here.number → result ≡ shifted grown.shift here }
{
    if here.number <= len {
        grown.node
    } else {
        grown.shift.shifted(here)
    }
}

/// Removes the entries that no bookmark needs, and stretches without entries of their own, from the
/// last stretch down. The bookmarks keep their entries, and `here` keeps a beginning of the entries
/// that it had. The stretches must have the entries of all bookmarks and of `here`.
pub(super) fn prune(
    stretches: &mut Stretches,
    names: &mut IndexMap<MarkName, Node>,
    here: &mut Node,
)
    requires within { All (λ m. IsWithin stretches.old.list.items m.1) names.old.entries }
    requires here { IsWithin stretches.old.list.items here.old }
    ensures pruned { IsPruned 0 stretches.old.list.items stretches.new.list.items
        names.old.entries names.new.entries here.old here.new }
    ensures room { spare names.new ≡ spare names.old }
{
    let mut i = stretches.len();
    while i > 0 {
        i -= 1;
        prune_stretch(stretches, names, here, i);
    }
}

/// Removes the entries of stretch `i` that neither a bookmark nor the next stretch needs, and the
/// stretch itself if none of its own is left. The bookmarks keep their entries, and `here` keeps a
/// beginning of the entries that it had. The stretches must have the entries of all bookmarks and
/// of `here`. There must be a stretch `i`, and all entries of the stretches after it must be
/// needed.
fn prune_stretch(
    stretches: &mut Stretches,
    names: &mut IndexMap<MarkName, Node>,
    here: &mut Node,
    i: usize,
)
    requires there { i < length stretches.old.list.items }
    requires within { All (λ m. IsWithin stretches.old.list.items m.1) names.old.entries }
    requires here { IsWithin stretches.old.list.items here.old }
    requires needed { AreNeededFrom (suc i) stretches.old.list.items (nodes_of names.old.entries) }
    ensures pruned { IsPruned i stretches.old.list.items stretches.new.list.items
        names.old.entries names.new.entries here.old here.new }
    ensures below { i ≤ length stretches.new.list.items }
    ensures room { spare names.new ≡ spare names.old }
{
    let needed = stretches
        .shared_count(i + 1)
        .max(greatest_len_in_stretch(names, i));
    let shift = stretches.shrink(i, needed);
    shift_nodes(names, shift);
    *here = shift.shifted(here.truncated_if_in_stretch(i, needed));
}

/// Returns the greatest number of entries of a bookmark's node in stretch `i`, or 0 if no
/// bookmark's node is in it.
fn greatest_len_in_stretch(names: &IndexMap<MarkName, Node>, i: usize) -> usize
    ensures { result ≡ greatest_len_in_stretch i (nodes_of names.now.entries) }
{
    let mut greatest: usize = 0;
    for index in 0..names.len() {
        let Some((_, node)) = names.get_index(index) else {
            unreachable!();
        };
        greatest = greatest.max(node.len_in_stretch(i));
    }
    greatest
}

/// Replaces the node of each bookmark by the one that has its entries after the stretches were
/// renumbered. A node with entries must have a stretch number below 2^64 - 1. If a stretch was
/// removed, no node may have one of its own entries.
fn shift_nodes(names: &mut IndexMap<MarkName, Node>, shift: Shift)
    requires { All (λ m. CanShiftUp m.1) names.old.entries }
    ensures room { spare names.new ≡ spare names.old }
    ensures entries { names.new.entries ≡ map (λ m. (m.0, shifted shift m.1)) names.old.entries }
{
    for index in 0..names.len() {
        names[index] = shift.shifted(names[index]);
    }
}
