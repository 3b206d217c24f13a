//! The entries of the bookmarks, by front coding. Each stretch stands for a list of entries. It
//! keeps the number of entries that its list shares with the list of the stretch before it, and the
//! entries after these. So lists that begin alike share what they have in common.
//!
//! A node is the first so many entries of one stretch's list. No earlier list begins with the
//! events that a stretch's list shares and the first event of its own. So the numbers of shared
//! entries between two nodes tell how many entries both begin with.

ghost use Rattle.std.specs.Prelude.{◌≡◌, ◌<◌, ◌≤◌, ◌^◌, ℕ, [], length, take, min};
ghost use Rattle.rd_step.specs.Run.{events};
ghost use Rattle.rd_marks.specs.Stretches.{AreNested, AreFresh};

pub(crate) use changes::{Grown, Shift};

mod changes;
mod following;
mod reading;

use rd_step::Entry;
use std::alloc::Global;

/// A list of entries, as the number that it shares with the list before it and the rest.
#[derive(Drop)]
struct Stretch {
    /// The number of entries that the stretch's list shares with the list of the stretch before it;
    /// 0 in the first stretch.
    shared: usize,
    /// The entries after the shared ones.
    entries: Vec<Entry>,
}

/// The first `number` entries of a stretch's list: a node of the tree that all lists make. A node
/// without entries needs no stretch.
#[derive(Clone, Copy, PartialEq, Eq)]
pub(crate) struct Node {
    /// The number of the stretch, from 0.
    pub(crate) stretch: usize,
    /// The number of entries.
    pub(crate) number: usize,
}

impl Node {
    ghost use Rattle.rd_marks.specs.Stretches.{node_len_in_stretch};

    /// The node without entries.
    pub(crate) const START: Node = Node {
        stretch: 0,
        number: 0,
    };

    /// Returns the node of the first `n` entries of this one, or this one if it has at most `n`.
    pub(crate) fn truncated(self, n: usize) -> Node
        ensures stretch { result.stretch ≡ self.stretch }
        ensures number { result.number ≡ min n self.number }
    {
        Node {
            stretch: self.stretch,
            number: n.min(self.number),
        }
    }

    /// Returns the node of the first `n` entries of this one if it is in stretch `i`, otherwise
    /// this one.
    pub(crate) fn truncated_if_in_stretch(self, i: usize, n: usize) -> Node
        ensures stretch { result.stretch ≡ self.stretch }
        ensures number { result.number ≤ self.number }
        ensures left { result.stretch ≡ i → result.number ≤ n }
    {
        if self.stretch == i {
            self.truncated(n)
        } else {
            self
        }
    }

    /// Returns the number of entries of this node if it is in stretch `i`, otherwise 0.
    pub(crate) fn len_in_stretch(self, i: usize) -> usize
        ensures { result ≡ node_len_in_stretch i self }
    {
        if self.stretch == i { self.number } else { 0 }
    }
}

/// All stretches, in order.
#[derive(Drop)]
pub(crate) struct Stretches {
    list: Vec<Stretch>,
    ghost nested: { AreNested list.items },
    ghost fresh: { AreFresh list.items },
}

impl Stretches {
    ghost use Rattle.rd_marks.specs.Stretches.{shared_at, entries_at, entry_count, IsWithin, IsCanonical};

    /// Returns an empty list of stretches. It takes no memory.
    pub(crate) fn new(alloc: Global) -> Stretches
        ensures { result.list.items ≡ [] }
    {
        Stretches {
            list: Vec::new(alloc),
        }
    }

    /// Returns the number of stretches.
    pub(crate) fn len(&self) -> usize
        ensures { result ≡ length self.now.list.items }
    {
        self.list.len()
    }

    /// Returns the number of entries that the stretches keep, all together. It must be below 2^64.
    #[tactic(auto, using(crate::proofs::Reading::count_on))]
    pub(crate) fn entry_count(&self) -> usize
        requires { entry_count self.now.list.items < 2 ^ 64 }
        ensures { result ≡ entry_count self.now.list.items }
    {
        let mut count = 0;
        for i in 0..self.list.len() {
            count += self.list[i].entries.len();
        }
        count
    }

    /// Returns the number of entries that the list of stretch `i` shares with the list before it.
    /// It is 0 if there is no such stretch.
    #[tactic(auto, using(crate::proofs::Reading::stretch_at, crate::proofs::StretchLists::shared_past))]
    pub(crate) fn shared_count(&self, i: usize) -> usize
        ensures { result ≡ shared_at self.now.list.items i }
    {
        match self.list.get(i) {
            None => 0,
            Some(stretch) => stretch.shared,
        }
    }

    /// Returns the node that has the same entries and is in the stretch that keeps the last of
    /// them, or in the first stretch if it has no entries. The stretches must have the node's
    /// entries.
    pub(crate) fn canonical_node(&self, of: Node) -> Node
        requires within { IsWithin self.now.list.items of }
        ensures number { result.number ≡ of.number }
        ensures within { IsWithin self.now.list.items result }
        ensures own { IsCanonical self.now.list.items result }
        ensures same { entries_at self.now.list.items result ≡ entries_at self.now.list.items of }
    {
        let mut at = of;
        while at.stretch > 0 && at.number <= self.shared_count(at.stretch) {
            at.stretch -= 1;
        }
        at
    }

    /// Returns the length of the longest common prefix of the events of two nodes. The entries of
    /// this prefix are equal too. The stretches must have the entries of both nodes.
    pub(crate) fn common_len(&self, one: Node, other: Node) -> usize
        requires one { IsWithin self.now.list.items one }
        requires other { IsWithin self.now.list.items other }
        ensures first { result ≤ one.number }
        ensures second { result ≤ other.number }
        ensures alike { take result (entries_at self.now.list.items one)
            ≡ take result (entries_at self.now.list.items other) }
        ensures most { (n : ℕ) → n ≤ one.number → n ≤ other.number
            → take n (events (entries_at self.now.list.items one))
            ≡ take n (events (entries_at self.now.list.items other)) → n ≤ result }
    {
        if one.stretch <= other.stretch {
            self.common_len_in_order(one, other)
        } else {
            self.common_len_in_order(other, one)
        }
    }

    /// Returns the length of the longest common prefix of the events of two nodes. The entries of
    /// this prefix are equal too. The stretches must have the entries of both nodes, and `other`
    /// must be in the same stretch as `one` or a later one.
    fn common_len_in_order(&self, one: Node, other: Node) -> usize
        requires one { IsWithin self.now.list.items one }
        requires other { IsWithin self.now.list.items other }
        requires later { one.stretch ≤ other.stretch }
        ensures first { result ≤ one.number }
        ensures second { result ≤ other.number }
        ensures alike { take result (entries_at self.now.list.items one)
            ≡ take result (entries_at self.now.list.items other) }
        ensures most { (n : ℕ) → n ≤ one.number → n ≤ other.number
            → take n (events (entries_at self.now.list.items one))
            ≡ take n (events (entries_at self.now.list.items other)) → n ≤ result }
    {
        let mut common = one.number.min(other.number);
        for i in one.stretch..other.stretch {
            common = common.min(self.shared_count(i + 1));
        }
        common
    }
}
