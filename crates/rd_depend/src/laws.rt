//! The laws of dependence and of closures. A law is the contract of a function that does nothing.

ghost use Rattle.std.specs.Prelude.{◌≡◌, ◌≤◌, ◌↔◌, ◌⊎◌, ℕ, true, List, length, None, Some};
ghost use Rattle.rd_step.specs.declared.entries.Entry.{Entry as SomeEntry};
ghost use Rattle.rd_step.specs.Prelude.{closure, depends};
ghost use Rattle.rd_step.specs.Dependence.{IsInClosure, AreLoneUndos, number_after_undos};
ghost use Rattle.rd_step.specs.Lists.{numbered};
ghost use Rattle.rd_depend.specs.Sharing.{ShareWrittenPlace};

/// Two entries depend on each other exactly if they have the same actor, or if both touched a place
/// of the map that at least one of them wrote.
pub fn entries_depend_where_they_share_an_actor_or_a_written_place()
    ensures { (x y : SomeEntry) → (depends x y ≡ true)
        ↔ ((x.event.actor ≡ y.event.actor) ⊎ ShareWrittenPlace x y) }
{}

/// The marks of a closure are just the least set of positions that has the step's own and, with
/// each position, every later one whose entry depends on the entry there. A session's `roll` takes
/// the marked steps out.
pub fn the_closure_is_the_least_closed_set()
    ensures { (entries : List SomeEntry) (k j : ℕ) → 1 ≤ k → k ≤ length entries
        → ((numbered (closure entries k) j ≡ Some true) ↔ IsInClosure entries k j) }
{}

/// Any sequence of lone undos, none of them refused, that removes a step also removes its whole
/// closure. So a session's `roll` removes no step that could stay.
pub fn lone_undos_that_take_a_step_out_take_its_closure_out()
    ensures { (entries : List SomeEntry) (ns : List ℕ) (k j : ℕ) → AreLoneUndos ns entries
        → number_after_undos ns k ≡ None
        → IsInClosure entries k j → number_after_undos ns j ≡ None }
{}
