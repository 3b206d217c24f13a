//! The laws of the machine, for every world of the model. Each law is the contract of a function
//! that does nothing.

ghost use Rattle.std.specs.Prelude.{◌≡◌, ◌≤◌, ◌↔◌, ℕ, suc, false, List, ◌∷◌, ◌++◌, length, None, Some, Ok, Err};
ghost use Rattle.rd_ring.specs.Prelude.{Place, Operation, At, Refusal};
ghost use Rattle.rd_actor.specs.declared.actors.Actor.{Actor};
ghost use Rattle.rd_actor.specs.declared.actors.Act.{Act};
ghost use Rattle.rd_actor.specs.Table.{need};
ghost use Rattle.rd_step.specs.World.{World as Model};
ghost use Rattle.rd_step.specs.declared.entries.Entry.{Entry};
ghost use Rattle.rd_step.specs.declared.entries.Event.{Event};
ghost use Rattle.rd_step.specs.declared.parts.Parts.{Parts};
ghost use Rattle.rd_step.specs.Step.{Stepped, step};
ghost use Rattle.rd_step.specs.Undo.{unstep};
ghost use Rattle.rd_step.specs.Run.{Ran, run};
ghost use Rattle.rd_step.specs.Dependence.{depends, IsFree};
ghost use Rattle.rd_step.specs.WellFormed.{IsWellFormed};
ghost use Rattle.rd_step.specs.Parts.{world_of_parts, first_flaw};
ghost use Rattle.rd_step.specs.Equivalence.{IsEquivalent, ReachesTheSame};
ghost use Rattle.rd_step.specs.Laws.{CommutingSquare, IsRemovable, IsStepRefusal, SuitsContent, MovesOn, ChangesOnly, KeepsOldWords};

/// A step that does not depend on the one before it may go first, with the same entries and the
/// same world after both. The proof uses no row of the table, only that a step has one actor and
/// one place.
#[tactic(auto, using(crate::proofs::Commute::commutes))]
pub fn independent_steps_commute()
    ensures { (w : Model) (e f : Event) (v u : Stepped) → step w e ≡ Ok v → step v.world f ≡ Ok u
        → depends v.entry u.entry ≡ false → CommutingSquare w e f v u }
{}

/// Dependence is symmetric.
#[tactic(auto, using(crate::proofs::Symmetry::depends_symmetric))]
pub fn dependence_is_symmetric()
    ensures { (x y : Entry) → depends x y ≡ depends y x }
{}

/// Putting back the old words that a step's entry keeps gives the whole world before the step, if
/// that world was well-formed.
#[tactic(auto, using(crate::proofs::Inverse::undoes))]
pub fn entries_undo_their_steps()
    ensures { (w : Model) (e : Event) (s : Stepped) → IsWellFormed w → step w e ≡ Ok s
        → unstep s.world s.entry ≡ w }
{}

/// In a well-formed world, a step's entry keeps the record of its actor and the content of its
/// place as they were before the step.
pub fn entries_keep_the_words_from_before()
    ensures { (w : Model) (e : Event) (s : Stepped) → IsWellFormed w → step w e ≡ Ok s
        → KeepsOldWords w s.entry }
{}

/// In a run from a well-formed world, a step on which no later one depends may be taken out: the
/// later steps go the same way without it, and it may go last.
pub fn a_free_step_may_be_taken_out()
    ensures { (w : Model) (e : Event) (s : Stepped) (es : List Event) (r : Ran) → IsWellFormed w
        → step w e ≡ Ok s → run s.world es ≡ Ok r → IsFree s.entry r.entries
        → IsRemovable w e s es r }
{}

/// Two causally equivalent lists of events, if both run, reach the same world, and leave the same
/// entries in some order.
pub fn equivalent_schedules_reach_one_world()
    ensures { (w : Model) (es fs : List Event) (r q : Ran) → run w es ≡ Ok r → run w fs ≡ Ok q
        → IsEquivalent w es fs
        → ReachesTheSame r q }
{}

/// Swapping two neighbours that do not depend on each other, anywhere in a list that runs, gives a
/// causally equivalent list.
#[tactic(auto, using(crate::proofs::Equivalence::swapped_within))]
pub fn independent_neighbours_swapped_are_equivalent()
    ensures { (w : Model) (before : List Event) (e f : Event) (later : List Event) (b : Ran)
        (v u : Stepped) (r : Ran)
        → run w before ≡ Ok b → step b.world e ≡ Ok v → step v.world f ≡ Ok u
        → depends v.entry u.entry ≡ false
        → run u.world later ≡ Ok r
        → IsEquivalent w (before ++ e ∷ f ∷ later) (before ++ f ∷ e ∷ later) }
{}

/// A step keeps a world well-formed.
pub fn steps_keep_worlds_well_formed()
    ensures { (w : Model) (e : Event) (s : Stepped) → IsWellFormed w → step w e ≡ Ok s
        → IsWellFormed s.world }
{}

/// A run keeps the size of the rings.
#[tactic(auto, using(crate::proofs::Removal::run_ring))]
pub fn runs_keep_the_ring()
    ensures { (w : Model) (es : List Event) (r : Ran) → run w es ≡ Ok r → r.world.ring ≡ w.ring }
{}

/// A well-formed world whose rings have at least one cell refuses a step only for these causes:
/// there is no such actor, the actor's control point does not take the act, or a counter or a
/// maker's segments are at their end. It never refuses a step because a place is not there.
#[tactic(auto, using(crate::proofs::Progress::refused_in_cases))]
pub fn steps_are_refused_in_their_cases_alone()
    ensures { (w : Model) (e : Event) (refusal : Refusal) → 1 ≤ w.ring → IsWellFormed w
        → step w e ≡ Err refusal → IsStepRefusal refusal }
{}

/// In a well-formed world whose rings have at least one cell, each operation for which an actor
/// asks finds a content of the right kind at its place.
#[tactic(auto, using(crate::proofs::Progress::suits_content))]
pub fn operations_suit_their_contents()
    ensures { (w : Model) (n : ℕ) (a : Actor) (act : Act) (p : Place) (op : Operation) → 1 ≤ w.ring
        → IsWellFormed w
        → w.actor n ≡ Some a → need w.ring a act ≡ Ok (At p op) → SuitsContent w.at p op }
{}

/// In a well-formed world whose rings have at least one cell, a step leaves its actor at another
/// control point: the table has a row for each answer that can come, and no row leads to itself.
pub fn steps_move_their_actors()
    ensures { (w : Model) (e : Event) (s : Stepped) → 1 ≤ w.ring → IsWellFormed w → step w e ≡ Ok s
        → MovesOn e w s.world }
{}

/// A step changes only the places that it wrote, which its entry's place covers, and the record of
/// its event's actor. A step that only read changes no place.
pub fn steps_change_one_place_and_one_actor()
    ensures { (w : Model) (e : Event) (s : Stepped) → step w e ≡ Ok s
        → ChangesOnly e s.entry w s.world }
{}

/// Parts have no flaw exactly if they have a list of segments for each maker from 0 to the number
/// of actors, and their world is well-formed. So `World::assemble` finds no flaw in a well-formed
/// world, and accepts no other.
#[tactic(auto, using(crate::proofs::Accepted::no_flaw_iff_well_formed))]
pub fn parts_have_no_flaw_exactly_where_their_world_is_well_formed()
    ensures { (R : ℕ) (p : Parts R) → (first_flaw p ≡ None)
        ↔ ((length p.segments.items ≡ suc (length p.actors.items))
        × IsWellFormed (world_of_parts p)) }
{}
