//! Laws of one session, of answers and of room. A law is the contract of a function that does
//! nothing.

ghost use Rattle.std.specs.Prelude.{◌≡◌, ◌≢◌, ◌⊎◌, ℕ, List, ◌∷◌, ◌++◌, [], None, Some, Result, Ok, Err};
ghost use Rattle.std.specs.List.{AllByRecursion};
ghost use Rattle.rd_cell.specs.declared.refusal.Refusal.{Refusal};
ghost use Rattle.rd_step.specs.Prelude.{Ran, first_dependant};
ghost use Rattle.rd_step.specs.declared.entries.Entry.{Entry};
ghost use Rattle.rd_step.specs.declared.entries.Event.{Event};
ghost use Rattle.rd_journal.specs.Journal.{Journal};
ghost use Rattle.rd_journal.specs.Sessions.{journal, state, MayRefuse};
ghost use Rattle.rd_journal.specs.State.{State, apply, roll, run_of, undo_at};
ghost use Rattle.rd_marks.specs.BookState.{BookState};
ghost use Rattle.rd_marks.specs.Commands.{Answered, AreObeyed, IsObeyed};
ghost use Rattle.rd_marks.specs.declared.commands.Command.{Command as SomeCommand};
ghost use Rattle.rd_marks.specs.declared.replies.Reply.{Reply as SomeReply};
ghost use Rattle.rd_marks.specs.AnyBook.{fresh_state};
ghost use Rattle.rd_script.specs.Script.{RunsScript};
ghost use Rattle.rd_devices.specs.Streams.{Devices};
ghost use Rattle.witness.specs.Room.{HasRoomFor};
ghost use Rattle.witness.specs.Session.{third_begins, before_put, put, before_look, look_and_take, but_first, played, state_with, last, script, report, devices_of, HasOneReport};

use rd_journal::Session;

/// The README's session, and then `roll 7`, is a run of a script as the clause `runs` of
/// `rd_script::run` states it: from the bytes of its lines to the bytes of its replies, over the
/// fresh world of four actors with rings of four cells. So the headline holds of a session with an
/// undo that is refused, one of a step that isn't the last, and a rollback.
#[tactic(auto, using(crate::proofs::SessionLemmas::is_run))]
pub fn the_session_of_the_readme_is_a_run()
    ensures { (kept : Journal)
        × RunsScript (fresh_state 4 4) last kept (devices_of script report) (Ok 20) }
{}

/// By the clause `runs`, a run of that session's bytes that comes to its end has no other report, and
/// leaves no other book, unless a line is refused memory.
pub fn the_session_of_the_readme_has_one_report()
    ensures { (d : Devices) (new : BookState) (kept : Journal) (n : ℕ)
        → d.input.before ≡ Some script → d.output.before ≡ Some []
        → RunsScript (fresh_state 4 4) new kept d (Ok n) → HasOneReport d.output.after new }
{}

/// In the state after the fourteen steps of the README's session, undoing the put alone is refused,
/// and the refusal names the first step that looked at the value. The first step can be undone
/// alone, also if it comes in the middle. Rolling the put back undoes the steps that looked and the
/// take too, and no other.
#[tactic(auto, using(crate::proofs::SessionLemmas::has_dependants))]
pub fn steps_of_the_readme_are_undone_or_refused()
    ensures refused { undo_at played 8 ≡ Err (Refusal.Depended 12) }
    ensures dependants { (ran : Ran) × (run_of played ≡ Ok ran)
        × (first_dependant ran.entries 8 ≡ Some 12) × (first_dependant ran.entries 1 ≡ None) }
    ensures done { undo_at played 1 ≡ Ok (state_with but_first (third_begins ∷ [])) }
    ensures in_the_middle { undo_at
        (state_with (before_put ++ third_begins ∷ put ∷ before_look ++ look_and_take) []) 7
        ≡ Ok (state_with but_first (third_begins ∷ [])) }
    ensures rolled_back { roll played 8
        ≡ Ok (state_with (third_begins ∷ before_put ++ before_look) (put ∷ look_and_take)) }
{}

/// The state of a book and a command determine the answer and the state after it, and so do a state
/// and a list of commands, as long as nothing is refused memory.
#[tactic(auto, using(crate::proofs::OneAnswer::one_answer, crate::proofs::OneAnswer::one_list))]
pub fn only_a_refusal_of_memory_is_left_open()
    ensures one { (b : BookState) (command : SomeCommand) (x y : Answered) → IsObeyed b command x
        → IsObeyed b command y
        → (x ≡ y) ⊎ (x.answer ≡ Err Refusal.NoMemory) ⊎ (y.answer ≡ Err Refusal.NoMemory) }
    ensures each { (b new other : BookState) (commands : List SomeCommand)
        (given told : List (Result SomeReply Refusal)) → AreObeyed b commands given new
        → AreObeyed b commands told other
        → AllByRecursion (λ answer. answer ≢ Err Refusal.NoMemory) given
        → AllByRecursion (λ answer. answer ≢ Err Refusal.NoMemory) told
        → (given ≡ told) × (new ≡ other) }
{}

/// A session with room for an event refuses it just as its state does, which is never for lack of
/// memory. `MayRefuse` is what `Session::apply`, `Book::apply` and `Book::obey` promise of a
/// refusal.
#[tactic(auto, using(crate::proofs::RoomLemmas::apply_refused))]
pub fn an_event_with_room_is_not_refused_memory<const R: usize>(session: &Session<R>)
    ensures as_its_state { (e : Event) (cause : Refusal) → HasRoomFor session.now e
        → MayRefuse session.now e cause
        → apply (state session.now) e ≡ Err cause }
    ensures never { (s : State) (e : Event) → apply s e ≢ Err Refusal.NoMemory }
{}

/// No session may refuse the event of its first undone step, for whatever cause: undoing a step
/// leaves room to make it again, as a new step.
pub fn the_event_of_an_undone_step_is_not_refused<const R: usize>(session: &Session<R>)
    ensures { (x : Entry) (rest : List Entry) (cause : Refusal)
        → (journal session.now).undone ≡ x ∷ rest
        → MayRefuse session.now x.event cause → ⊥ }
{}
