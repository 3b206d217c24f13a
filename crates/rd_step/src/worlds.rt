//! The world, which is the space and the actors, and its step.

ghost use Rattle.std.specs.Prelude.{◌≡◌, ◌≢◌, ◌+◌, ◌<◌, ◌≤◌, ◌↔◌, ℕ, suc, None, Ok, Err, IsSome, IsTrue, IfOk, IfErr, OnOk, OnErr, length};
ghost use Rattle.rd_ring.specs.Prelude.{MOST_CELLS, MOST_ACTORS, content_at};
ghost use Rattle.std.specs.List.{All};
ghost use Rattle.rd_actor.specs.Actors.{idle};
ghost use Rattle.rd_segments.specs.Room.{room_returned, UsesMakersRoom, ReturnsMakersRoom, AddsMakersRoom};
ghost use Rattle.rd_segments.specs.Space.{list_count};
ghost use Rattle.rd_step.specs.Step.{step};
ghost use Rattle.rd_step.specs.Undo.{revert, CanPutBack};
ghost use Rattle.rd_step.specs.CodeWorldFields.{world_of_fields};
ghost use Rattle.rd_step.specs.Starts.{fresh_world, poised_world};
ghost use Rattle.rd_step.specs.Room.{makes_segment, IsRefused};
ghost use Rattle.rd_step.specs.WellFormed.{IsWellFormed};
ghost use Rattle.rd_step.specs.World.{World as Model};
ghost use Rattle.rd_step.specs.Parts.{world_of_parts, first_flaw, RefusesParts};

use super::entries::{Entry, Event};
use super::fields::{actor_in, perform, set_actor, unmake_at};
use super::flaws::Unassembled;
use super::parts::Parts;
use rd_actor::{Actor, after, need};
use rd_cell::{Content, Place, Refusal};
use rd_segments::Space;
use std::alloc::Global;

/// A well-formed world of rings of `R` cells, 1 to 64, with 1 to 16 actors.
pub struct World<const R: usize> {
    space: Space<R>,
    actors: Vec<Actor>,
    ghost positive: { 1 ≤ R },
    ghost small: { R ≤ MOST_CELLS },
    ghost makers: { list_count space ≡ suc (length actors.items) },
    ghost well_formed: { IsWellFormed (world_of_fields space actors.items) },
}

/// This is written out instead of derived, to keep proofs short: where a world ends, a proof needs
/// one step, and not one for each list inside.
impl<const R: usize> Drop for World<R> {
    fn drop(self) {
        let World {
            space: _space,
            actors: _actors,
        } = self;
    }
}

impl<const R: usize> World<R> {
    ghost use Rattle.rd_step.specs.CodeWorld.{model, room, makers_room, capacities};

    /// Returns the fresh world: the root is the only segment and is fresh, and this many actors,
    /// which must be 1 to 16, are idle.
    ///
    /// # Errors
    ///
    /// `NoMemory` if memory was refused.
    pub fn fresh(alloc: Global, actors: u8) -> Result<World<R>, Refusal>
        requires some { 1 ≤ actors }
        requires few { actors ≤ MOST_ACTORS }
        requires positive { 1 ≤ R }
        requires small { R ≤ MOST_CELLS }
        ensures ok { IfOk result (λ world. model world ≡ fresh_world R actors) }
        ensures err { IfErr result (λ refusal. refusal ≡ Refusal.NoMemory) }
    {
        let mut list = Vec::with_capacity(alloc, usize::from(actors))?;
        for _ in 0..actors {
            list.push_reserved(Actor::idle());
        }
        let space = Space::fresh(alloc, actors)?;
        Ok(World {
            space,
            actors: list,
        })
    }

    /// Whether the world is the fresh world for its number of actors.
    pub fn is_fresh(&self) -> bool
        ensures { IsTrue result ↔ ((count : ℕ) × (model self.now ≡ fresh_world R count)) }
    {
        self.space.is_fresh() && are_idle(&self.actors)
    }

    /// Returns the poised world: the fresh one, except that each actor a is in an enqueue of the
    /// value a, about to draw a position on the root. There must be 1 to 16 actors.
    ///
    /// # Errors
    ///
    /// `NoMemory` if memory was refused.
    pub fn poised(alloc: Global, actors: u8) -> Result<World<R>, Refusal>
        requires some { 1 ≤ actors }
        requires few { actors ≤ MOST_ACTORS }
        requires positive { 1 ≤ R }
        requires small { R ≤ MOST_CELLS }
        ensures ok { IfOk result (λ world. model world ≡ poised_world R actors) }
        ensures err { IfErr result (λ refusal. refusal ≡ Refusal.NoMemory) }
    {
        let mut list = Vec::with_capacity(alloc, usize::from(actors))?;
        for number in 0..actors {
            list.push_reserved(Actor::poised(u64::from(number) + 1));
        }
        let space = Space::fresh(alloc, actors)?;
        Ok(World {
            space,
            actors: list,
        })
    }

    /// Returns the world that these parts make.
    ///
    /// # Errors
    ///
    /// `Flaw`, with the first of the eight conditions that the parts fail, exactly if they fail
    /// one; else `NoMemory` if memory was refused.
    pub fn assemble(alloc: Global, parts: Parts<R>) -> Result<World<R>, Unassembled>
        requires positive { 1 ≤ R }
        requires small { R ≤ MOST_CELLS }
        ensures ok { IfOk result (λ world. model world ≡ world_of_parts parts.entry) }
        ensures flawless { OnOk result (first_flaw parts.entry ≡ None) }
        ensures err { IfErr result (λ e. RefusesParts parts.entry e) }
    {
        if let Some(flaw) = parts.first_flaw() {
            return Err(Unassembled::Flaw(flaw));
        }
        match Space::from_parts(
            alloc,
            &parts.segments,
            parts.qhead,
            parts.qtail,
            parts.array,
        ) {
            Err(_) => Err(Unassembled::NoMemory),
            Ok(space) => Ok(World {
                space,
                actors: parts.actors,
            }),
        }
    }

    /// Returns the parts of the world; `assemble` makes an equal world from them.
    ///
    /// # Errors
    ///
    /// `NoMemory` if memory was refused.
    pub fn parts(&self, alloc: Global) -> Result<Parts<R>, Refusal>
        ensures ok { IfOk result (λ parts. world_of_parts parts ≡ model self.now) }
        ensures flawless { IfOk result (λ parts. first_flaw parts ≡ None) }
        ensures err { IfErr result (λ refusal. refusal ≡ Refusal.NoMemory) }
    {
        let segments = self.space.segment_parts(alloc)?;
        let actors = Vec::from_slice(alloc, &self.actors)?;
        Ok(Parts {
            actors,
            segments,
            qhead: self.space.qhead(),
            qtail: self.space.qtail(),
            array: self.space.array(),
        })
    }

    /// Returns a copy of this world: each place has the same content, and each actor the same
    /// record. The room of its makers may differ.
    ///
    /// # Errors
    ///
    /// `NoMemory` if memory was refused.
    pub fn copy(&self, alloc: Global) -> Result<World<R>, Refusal>
        ensures ok { IfOk result (λ world. model world ≡ model self.now) }
        ensures err { IfErr result (λ refusal. refusal ≡ Refusal.NoMemory) }
    {
        let parts = self.parts(alloc)?;
        match World::assemble(alloc, parts) {
            Err(Unassembled::NoMemory) => Err(Refusal::NoMemory),
            Err(Unassembled::Flaw(_)) => unreachable!(),
            Ok(world) => Ok(world),
        }
    }

    /// Returns the content at a place, or none if the place is not there. For a cell, this is its
    /// two halves together; for the whole of a segment that is there, it is `Whole`.
    pub fn content(&self, place: Place) -> Option<Content>
        ensures { result ≡ content_at (model self.now).at place }
    {
        self.space.content(place)
    }

    /// Returns the record of the actor of this number, counted from 1, or none if there is no such
    /// actor.
    pub fn actor(&self, number: u8) -> Option<Actor>
        ensures { result ≡ (model self.now).actor number }
    {
        actor_in(&self.actors, number)
    }

    /// Returns the number of actors, 1 to 16.
    pub fn actors(&self) -> u8
        ensures some { 1 ≤ result }
        ensures within { result ≤ MOST_ACTORS }
        ensures count { (n : ℕ) → (IsSome ((model self.now).actor (suc n)) ↔ (n < result)) }
    {
        self.actors.len() as u8
    }

    /// Does one event, the plain step of its actor, and returns the step's entry. Only a step that
    /// makes a segment takes memory, for its maker alone, and none if the maker has room.
    ///
    /// # Errors
    ///
    /// In this order: `NoActor`; `NotIdle`, `Idle`, `NeedsChoice`, `NoChoice`, by the actor's
    /// control point; `CounterEnd` for a fetch-and-add on a segment's counter that is 2^62,
    /// `ArrayEnd` for one on a counter of the array that is 64, `SegmentsEnd` for a making by an
    /// actor that has made 65,535 segments; `NoMemory` if memory was refused for a making that
    /// nothing else refuses. The world is then as before.
    pub fn step(&mut self, event: Event) -> Result<Entry, Refusal>
        ensures ok { IfOk result (λ entry. step (model self.old) event
            ≡ Ok (record { world = model self.new; entry = entry })) }
        ensures err { IfErr result (λ refusal.
            IsRefused (step (model self.old) event) (makes_segment (model self.old) event)
            (room self.old event.actor) refusal) }
        ensures unchanged { OnErr result (model self.new ≡ model self.old) }
        ensures room { UsesMakersRoom result (makes_segment (model self.old) event) event.actor
            (makers_room self.old) (makers_room self.new) }
        ensures capacities { capacities self.new ≡ capacities self.old }
    {
        let actor = match actor_in(&self.actors, event.actor) {
            None => return Err(Refusal::NoActor),
            Some(actor) => actor,
        };
        let access = need::<R>(&actor, event.act)?;
        let done = perform(&mut self.space, event.actor, access)?;
        let (next, reply) = after::<R>(&actor, event.act, done.answer);
        set_actor(&mut self.actors, event.actor, next);
        Ok(Entry {
            event,
            place: done.place,
            wrote: done.wrote,
            answer: done.answer,
            reply,
            old_actor: actor,
            old_content: done.old,
        })
    }

    /// Makes the step of an entry again. In this world the step of the entry's event must leave
    /// just this entry, and its actor must have room if it makes a segment. The actor goes on with
    /// the answer that the entry keeps, and the access is done again only if it wrote something.
    /// This writes no entry and can't fail.
    pub fn step_again(&mut self, entry: &Entry)
        requires goes { (after : Model) × (step (model self.old) entry.now.event
            ≡ Ok (record { world = after; entry = entry.now })) }
        requires room { IsTrue (makes_segment (model self.old) entry.now.event)
            → 1 ≤ room self.old entry.now.event.actor }
        ensures done { step (model self.old) entry.now.event
            ≡ Ok (record { world = model self.new; entry = entry.now }) }
        ensures room { UsesMakersRoom (Ok entry.now)
            (makes_segment (model self.old) entry.now.event) entry.now.event.actor
            (makers_room self.old) (makers_room self.new) }
        ensures capacities { capacities self.new ≡ capacities self.old }
    {
        let actor = entry.event.actor;
        let (next, _) = after::<R>(&entry.old_actor, entry.event.act, entry.answer);
        set_actor(&mut self.actors, actor, next);
        if !entry.wrote.is_nothing() {
            let Ok(access) = need::<R>(&entry.old_actor, entry.event.act) else {
                unreachable!()
            };
            match perform(&mut self.space, actor, access) {
                Err(_) => unreachable!(),
                Ok(_) => {}
            }
        }
    }

    /// Puts back an old record of one actor and, if a place is given, the old content of that
    /// place. A place without an old content must be the whole of an actor's last segment, which is
    /// removed and so gives its room back. Nothing else changes.
    ///
    /// The actor and a given place must be there. A content must be of the place's kind, and a
    /// counter in it at most its end; without a place there must be none. The world so changed must
    /// be well-formed.
    pub fn revert(
        &mut self,
        actor: u8,
        words: Actor,
        place: Option<Place>,
        content: Option<Content>,
    )
        requires actor_there { IsSome ((model self.old).actor actor) }
        requires place_there { CanPutBack (model self.old).at place content }
        requires well_formed { IsWellFormed (revert (model self.old) actor words place content) }
        ensures done { model self.new ≡ revert (model self.old) actor words place content }
        ensures room { ReturnsMakersRoom (room_returned place content) (makers_room self.old)
            (makers_room self.new) }
        ensures capacities { capacities self.new ≡ capacities self.old }
    {
        set_actor(&mut self.actors, actor, words);
        match (place, content) {
            (Some(place), Some(content)) => self.space.restore(place, content),
            (Some(place), None) => unmake_at(&mut self.space, place),
            _ => {}
        }
    }

    /// Gives an actor, which must be there, room for this many more segments; making them then
    /// needs no memory. A making uses room for one segment, undoing it gives this back, and no
    /// other call lessens the room.
    ///
    /// # Errors
    ///
    /// `NoMemory` if memory was refused. The world does not change in either case.
    pub fn make_room(&mut self, actor: u8, more: usize) -> Result<(), Refusal>
        requires { IsSome ((model self.old).actor actor) }
        ensures err { IfErr result (λ e. e ≡ Refusal.NoMemory) }
        ensures unchanged { model self.new ≡ model self.old }
        ensures room { AddsMakersRoom result actor more (makers_room self.old)
            (makers_room self.new) }
        ensures capacities { capacities self.new ≡ capacities self.old }
    {
        self.space.make_room(actor, more)?;
        Ok(())
    }
}

/// Whether each of these actors has the idle record, which an actor in no call has.
fn are_idle(actors: &[Actor]) -> bool
    ensures { IsTrue result ↔ All (λ actor. actor ≡ idle) actors.now }
{
    actors.iter().all(|actor| actor.is_idle())
}
