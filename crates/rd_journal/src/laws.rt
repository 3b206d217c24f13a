//! The laws of the journal, for every list of steps. A law is the contract of a function that does
//! nothing.

ghost use Rattle.std.specs.Prelude.{◌≡◌, ◌+◌, ◌<◌, ℕ, length, Ok};
ghost use Rattle.rd_step.specs.Prelude.{and_then, closure_entries};
ghost use Rattle.rd_journal.specs.Journal.{Journal, IsRun};
ghost use Rattle.rd_journal.specs.Laws.{IsMovedLast, IsClosureLast, IsOneRun};
ghost use Rattle.rd_journal.specs.State.{State, state_of, undo_at, back, forward, roll};

/// Going back several steps is undoing the last step as many times, if so many are live.
#[tactic(auto, using(crate::proofs::LawLemmas::back_more))]
pub fn going_back_is_undoing_again_and_again()
    ensures { (s : State) (n : ℕ) → n < length s.live
        → back s (n + 1) ≡ and_then (back s n) (λ t. back t 1) }
{}

/// Going forward several steps is redoing one step as many times, if so many are undone.
#[tactic(auto, using(crate::proofs::LawLemmas::forward_more))]
pub fn going_forward_is_redoing_again_and_again()
    ensures { (s : State) (n : ℕ) → n < length s.undone
        → forward s (n + 1) ≡ and_then (forward s n) (λ t. forward t 1) }
{}

/// The loop lemma for states: going back, and then forward by as many steps, restores the start,
/// the live events and the undone events.
#[tactic(auto, using(crate::proofs::LawLemmas::forward_back))]
pub fn forward_after_back_gives_the_state_back()
    ensures { (s t : State) (n : ℕ) → back s n ≡ Ok t → forward t n ≡ Ok s }
{}

/// A start, live events and undone events determine the world and every entry: what a call does to
/// the state determines what it does to the whole session.
#[tactic(auto, using(crate::proofs::LawLemmas::one_journal))]
pub fn a_state_has_one_journal()
    ensures { (i j : Journal) → IsRun i → IsRun j → state_of i ≡ state_of j → i ≡ j }
{}

/// The loop lemma: going back, and then forward by as many steps, restores the world and every
/// entry, live and undone. For one step this is `entries_undo_their_steps`, among the laws of
/// rd_step.
#[tactic(auto, using(crate::proofs::LawLemmas::forward_back_journal))]
pub fn forward_after_back_gives_the_journal_back()
    ensures { (i j k : Journal) (n : ℕ) → IsRun i → IsRun k → back (state_of i) n ≡ Ok (state_of j)
        → forward (state_of j) n ≡ Ok (state_of k) → k ≡ i }
{}

/// The live events followed by the undone ones are one run from the start. So the front of the
/// undone ones can always be redone.
#[tactic(auto, using(crate::proofs::Walks::whole_run))]
pub fn live_and_undone_are_one_run()
    ensures { (j : Journal) → IsRun j → IsOneRun j }
{}

/// A live step that is undone alone, wherever it is, and then redone is the last one, with the same
/// entry. The world and all other entries are as before.
///
/// Together with the clause `run` of `Session::undo_at` this is causal consistency for a step: it
/// may be undone exactly if no remaining step depends on it, and what is left is as if it had never
/// been made. It rests on the square property, that independent steps commute.
/// `independent_steps_commute` and `a_free_step_may_be_taken_out` in the laws of rd_step state this
/// for all rows and all well-formed worlds, and the contract of `unstep` in rd_inverse brings it to
/// the journal.
pub fn a_step_undone_alone_and_redone_is_the_last()
    ensures { (i j k : Journal) (n : ℕ) → IsRun i → IsRun k
        → undo_at (state_of i) n ≡ Ok (state_of j)
        → forward (state_of j) 1 ≡ Ok (state_of k) → IsMovedLast n i k }
{}

/// If all steps that a rollback undid are redone, the world is as before the rollback, no entry has
/// changed, and the redone steps are the last ones, in their order.
pub fn a_closure_rolled_back_and_redone_is_last()
    ensures { (i j k : Journal) (n : ℕ) → IsRun i → IsRun k → roll (state_of i) n ≡ Ok (state_of j)
        → forward (state_of j) (length (closure_entries i.live n)) ≡ Ok (state_of k)
        → IsClosureLast n i k }
{}
