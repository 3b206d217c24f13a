//! Finding how far the lists of the stretches agree with the live steps.

ghost use Rattle.std.specs.Prelude.{◌≡◌, ◌<◌, ◌≤◌, suc, length, drop};
ghost use Rattle.rd_step.specs.Run.{events};

use super::{Node, Stretches};
use rd_journal::EntryList;
use rd_step::{Entry, common_beginning_len};

impl Stretches {
    ghost use Rattle.rd_marks.specs.Stretches.{shared_at, IsWithin, AgreesFor, IsDeepest};

    /// Returns the node with the most entries among those whose events begin the live ones. The
    /// search starts at `from`, which must be such a node.
    pub(crate) fn deepest_agreeing_node(&self, from: Node, live: &EntryList) -> Node
        requires within { IsWithin self.now.list.items from }
        requires agrees { AgreesFor self.now.list.items from.stretch from.number (events live.now) }
        ensures within { IsWithin self.now.list.items result }
        ensures agrees { AgreesFor self.now.list.items result.stretch result.number
            (events live.now) }
        ensures deepest { IsDeepest self.now.list.items result.number (events live.now) }
    {
        let mut at = self.canonical_node(from);
        for i in at.stretch..self.list.len() {
            let shared = self.shared_count(i);
            if i > at.stretch && shared < at.number {
                return at;
            }
            if shared <= at.number {
                at = deeper_node(at, i, self.agreement_len(i, at.number, live));
            }
        }
        at
    }

    /// Returns the number of live steps with which the list of stretch `i` begins. There must be
    /// such a stretch. Its list must begin with the first `n` live steps, and its entries after
    /// these must be the stretch's own.
    #[tactic(auto, using(crate::proofs::Reading::along_steps))]
    fn agreement_len(&self, i: usize, n: usize, live: &EntryList) -> usize
        requires there { i < length self.now.list.items }
        requires own { shared_at self.now.list.items i ≤ n }
        requires agrees { AgreesFor self.now.list.items i n (events live.now) }
        ensures more { n ≤ result }
        ensures agrees { AgreesFor self.now.list.items i result (events live.now) }
        ensures most { AgreesFor self.now.list.items i (suc result) (events live.now) → ⊥ }
    {
        let stretch = &self.list[i];
        n + common_beginning_len(
            &without_first(&stretch.entries, n - stretch.shared),
            &live.after(n),
        )
    }
}

/// Returns the node of the first `number` entries of stretch `i`'s list, or `at` if it has as many.
/// `at` must not have more.
fn deeper_node(at: Node, i: usize, number: usize) -> Node
    requires { at.number ≤ number }
    ensures more { at.number < number → result ≡ record { stretch = i; number = number } }
    ensures others { number ≡ at.number → result ≡ at }
{
    if number > at.number {
        Node { stretch: i, number }
    } else {
        at
    }
}

/// Returns the entries after the first `n`. There must be at least `n`.
fn without_first(entries: &[Entry], n: usize) -> &[Entry]
    requires { n ≤ length entries.now }
    ensures { result.now ≡ drop n entries.now }
{
    &entries[n..]
}
