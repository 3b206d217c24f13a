//! How a book does a command, and lists of commands.

ghost use Rattle.std.specs.Prelude.{◌≡◌, [], None, Some, length, vec_capacity, IsOk, OnErr, IfOk, IfErr};
ghost use Rattle.rd_step.specs.declared.entries.Event.{Event as Happening};
ghost use Rattle.rd_journal.specs.Sessions.{journal, MayRefuse};
ghost use Rattle.std.specs.Result.{ForErr};

use super::super::commands::Command;
use super::super::laws::a_book_is_the_run_of_its_live_events;
use super::super::replies::{EventReply, Reply};
use super::Book;
use rd_actor::Act;
use rd_cell::Refusal;
use rd_origin::{last_writer, origin};
use rd_step::Event;
use std::alloc::Global;

impl<const R: usize> Book<R> {
    ghost use Rattle.rd_marks.specs.Book.{book_state, session_of, name_room, MayRefuseIfGoto};
    ghost use Rattle.rd_marks.specs.Commands.{IsObeyed, IsEventAnswer, SetsMarkWithoutMemory};
    ghost use Rattle.rd_marks.specs.Headline.{Headline};
    ghost use Rattle.rd_marks.specs.Events.{as_event};

    /// Does a command, and returns its reply.
    ///
    /// # Errors
    ///
    /// The refusal of the call that does the command: a method of this book or of its session,
    /// `origin` or `last_writer`. `Show` is refused with `NoSuchPlace` if the world doesn't have
    /// the place, and `Actor` with `NoActor` if it doesn't have the actor. A refused command
    /// changes nothing.
    pub fn obey(&mut self, command: Command) -> Result<Reply, Refusal>
        ensures answer { IsObeyed (book_state self.old) command
            (record { answer = result; state = book_state self.new }) }
        ensures succeeds { SetsMarkWithoutMemory (book_state self.old) (name_room self.old) command
            → IsOk result }
        ensures memory { IfErr result (λ refusal. (event : Happening)
            → as_event command ≡ Some event → MayRefuse (session_of self.old) event refusal) }
        ensures room { ForErr result (MayRefuseIfGoto self.old command) }
        ensures start { (book_state self.new).session.start ≡ (book_state self.old).session.start }
        ensures unchanged { OnErr result (book_state self.new ≡ book_state self.old) }
    {
        match command {
            Command::Enq(actor, value) => self.answer_event(actor, Act::Enq(value)),
            Command::Deq(actor) => self.answer_event(actor, Act::Deq),
            Command::ArrayEnq(actor, value) => self.answer_event(actor, Act::AEnq(value)),
            Command::ArrayDeq(actor) => self.answer_event(actor, Act::ADeq),
            Command::Go(actor) => self.answer_event(actor, Act::Go),
            Command::Starve(actor, choice) => self.answer_event(actor, Act::Starve(choice)),
            Command::Undo => self.answer_back(1),
            Command::UndoAt(k) => self.answer_undo_at(k),
            Command::Roll(k) => self.answer_roll(k),
            Command::Back(n) => self.answer_back(n),
            Command::Redo => self.answer_forward(1),
            Command::Forward(n) => self.answer_forward(n),
            Command::Mark(name) => self.answer_mark(name),
            Command::DropMark(name) => self.answer_drop_mark(name),
            Command::GotoMark(name) => self.answer_goto_mark(name),
            Command::Marks => Ok(Reply::Marks(self.marks())),
            Command::MarkAt(i) => self.mark_at(i).map(|(name, len)| Reply::Mark { name, len }),
            Command::Same(one, other) => self.same(one, other).map(Reply::Same),
            Command::Origin(k) => origin(&self.session, k).map(Reply::Origin),
            Command::Writer(place) => last_writer(&self.session, place).map(Reply::Writer),
            Command::Show(place) => match self.session.world().content(place) {
                None => Err(Refusal::NoSuchPlace),
                Some(content) => Ok(Reply::Content(content)),
            },
            Command::Actor(actor) => match self.session.world().actor(actor) {
                None => Err(Refusal::NoActor),
                Some(words) => Ok(Reply::Actor(words)),
            },
            Command::Step(number) => self
                .session
                .entry(number)
                .map(|entry| Reply::Step { number, entry }),
            Command::Len => Ok(self.step_counts()),
        }
    }

    /// Does commands one after another, and returns the reply or refusal of each. A refused command
    /// changes nothing, and the next one is done.
    ///
    /// # Errors
    ///
    /// `NoMemory` if memory for the list of answers was refused. No command is done then. This
    /// never happens if there is no command.
    pub fn apply_all(
        &mut self,
        alloc: Global,
        commands: &[Command],
    ) -> Result<Vec<Result<Reply, Refusal>>, Refusal>
        ensures headline { IfOk result (λ answers.
            Headline (book_state self.old) commands.now answers.items (book_state self.new)
            (journal (session_of self.new))) }
        ensures exact { IfOk result (λ answers. vec_capacity answers ≡ length commands.now) }
        ensures err { IfErr result (λ refusal. refusal ≡ Refusal.NoMemory) }
        ensures succeeds { commands.now ≡ [] → IsOk result }
        ensures start { (book_state self.new).session.start ≡ (book_state self.old).session.start }
        ensures unchanged { OnErr result (book_state self.new ≡ book_state self.old) }
    {
        let Ok(mut answers) = Vec::with_capacity(alloc, commands.len()) else {
            return Err(Refusal::NoMemory);
        };
        for i in 0..commands.len() {
            let answer = self.obey(commands[i]);
            answers.push_reserved(answer);
        }
        a_book_is_the_run_of_its_live_events(self);
        Ok(answers)
    }

    /// Makes an event of this actor happen, and replies with the step's number and the result of
    /// the call that the step ends, if it ends one. Fails as `apply` does, and has then changed
    /// nothing.
    #[tactic(auto, using(rd_step::proofs::PassedUp::error_passed_up, rd_step::proofs::PassedUp::fact_passed_up, crate::proofs::AnswerLemmas::event_passed_up))]
    fn answer_event(&mut self, actor: u8, act: Act) -> Result<Reply, Refusal>
        ensures happens { IsEventAnswer (book_state self.old) (record { actor = actor; act = act })
            (record { answer = result; state = book_state self.new }) }
        ensures memory { IfErr result (MayRefuse (session_of self.old)
            (record { actor = actor; act = act })) }
        ensures start { (book_state self.new).session.start ≡ (book_state self.old).session.start }
        ensures unchanged { OnErr result (book_state self.new ≡ book_state self.old) }
    {
        let EventReply { step, reply } = self.apply(Event { actor, act })?;
        Ok(Reply::Applied { step, reply })
    }
}
