//! The laws of origins, for every run. Each law is the contract of a function that does nothing.

ghost use Rattle.std.specs.Prelude.{◌≡◌, ℕ, Bool, List, None, Some, Ok};
ghost use Rattle.rd_step.specs.declared.entries.Event.{Event};
ghost use Rattle.rd_step.specs.declared.entries.Entry.{Entry as SomeEntry};
ghost use Rattle.rd_step.specs.Prelude.{World, Ran, run, IsWellFormed};
ghost use Rattle.rd_origin.specs.Positions.{last_position, IsGreatest, HasNone};
ghost use Rattle.rd_origin.specs.Origins.{origin_in};
ghost use Rattle.rd_origin.specs.Laws.{IsHandedOver};

/// The value that a take hands out is the argument of its origin's call. This holds in a run from
/// any well-formed start, if both the call and the put were made in the run.
pub fn what_is_taken_is_the_calls_argument()
    ensures { (w : World) (es : List Event) (ran : Ran) (c p k : ℕ) → IsWellFormed w
        → run w es ≡ Ok ran
        → origin_in ran.entries k ≡ Ok (record { call = Some c; put = Some p; take = k })
        → IsHandedOver ran.entries c k }
{}

/// `last_position`, which defines put, call and last writer, gives the greatest position at which a
/// test passes. If it gives none, the test passes nowhere.
pub fn the_last_position_is_the_greatest()
    ensures some { (test : SomeEntry → Bool) (entries : List SomeEntry) (j : ℕ)
        → last_position test entries ≡ Some j → IsGreatest test entries j }
    ensures none { (test : SomeEntry → Bool) (entries : List SomeEntry)
        → last_position test entries ≡ None → HasNone test entries }
{}
