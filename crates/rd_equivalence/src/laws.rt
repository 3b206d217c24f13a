//! The laws of causal equivalence. A law is the contract of a function that does nothing.

ghost use Rattle.std.specs.Prelude.{◌≡◌, ◌↔◌, List, Ok};
ghost use Rattle.rd_step.specs.declared.entries.Event.{Event};
ghost use Rattle.rd_step.specs.Prelude.{World, Ran, run};
ghost use Rattle.rd_step.specs.Equivalence.{IsEquivalent};
ghost use Rattle.rd_equivalence.specs.Reordering.{IsReordered};

/// A list of events that runs is causally equivalent to itself.
#[tactic(auto, using(rd_step::proofs::Equivalence::equivalence_reflexive))]
pub fn equivalence_is_reflexive()
    ensures { (w : World) (es : List Event) (r : Ran) → run w es ≡ Ok r → IsEquivalent w es es }
{}

/// Causal equivalence of two runs from one start is symmetric.
pub fn equivalence_is_symmetric()
    ensures { (w : World) (es fs : List Event) (r q : Ran) → run w es ≡ Ok r → run w fs ≡ Ok q
        → IsEquivalent w es fs
        → IsEquivalent w fs es }
{}

/// Causal equivalence of runs from one start is transitive.
pub fn equivalence_is_transitive()
    ensures { (w : World) (es fs gs : List Event) (r q p : Ran) → run w es ≡ Ok r → run w fs ≡ Ok q
        → run w gs ≡ Ok p
        → IsEquivalent w es fs → IsEquivalent w fs gs → IsEquivalent w es gs }
{}

/// A list of events is causally equivalent to one that runs exactly if it comes from that one by
/// swapping neighbours that do not depend on each other, one pair after another.
pub fn equivalence_is_reordering()
    ensures { (w : World) (es fs : List Event) (r : Ran) → run w es ≡ Ok r → IsEquivalent w es fs
        ↔ IsReordered w es fs }
{}
