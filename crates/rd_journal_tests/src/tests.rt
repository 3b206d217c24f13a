//! The tests of dependence, and of the journal: runs as data, and the small helper that plays them.
//!
//! A run is a list of lines. Most do something to a session that must be accepted, or refused as
//! the line says; the others say what must be so then.

mod agreement;
mod closures;
mod dependence;
mod lone_undo;
mod long_runs;
mod rollback;
mod starts;
mod switching;
mod walks;
mod whole_runs;

use rd_actor::{Act, Actor, OpReply, Pc};
use rd_cell::{Answer, Content, Place, Refusal, Wrote};
use rd_journal::Session;
use rd_step::Event;
use std::process::Abort;
use test_kit::go;

/// One line of a run.
#[derive(Clone, Copy)]
enum Line {
    /// This actor does this act, which ends no call.
    Act(u8, Act),
    /// This actor is refused this act.
    Refused(u8, Act, Refusal),
    /// This actor steps along these control points, each of which it is at before its step there;
    /// the last step replies this, the others nothing.
    Walk(u8, &'static [Pc], Option<OpReply>),
    /// This move through the run is made.
    Moves(Move),
    /// This move through the run is refused.
    Stays(Move, Refusal),
    /// This many steps are live, and this many undone.
    At(u64, u64),
    /// This is at the place.
    Is(Place, Content),
    /// The place is not there.
    Gone(Place),
    /// This actor's words are these.
    Actor(u8, Actor),
    /// This actor is at this control point.
    Stands(u8, Pc),
    /// The live step of this number was made by this actor at this place; it wrote this of it, and
    /// was answered and replied this.
    Step(u64, u8, Place, Wrote, Answer, Option<OpReply>),
    /// There is no live step of this number, and the refusal says so.
    NoStep(u64, Refusal),
}

/// A move through the run.
#[derive(Clone, Copy)]
enum Move {
    Undo,
    Back(u64),
    Redo,
    Forward(u64),
}

/// Plays a run, line by line. A line that is not so ends the test, with the run's name and the
/// line's index.
fn play<const R: usize>(rt: &impl Abort, session: &mut Session<R>, run: &str, lines: &[Line]) {
    for i in 0..lines.len() {
        assert!(rt; is_so(session, lines[i]), "{run}, line {i}");
    }
}

/// Does what a line says, or looks at it, and answers whether it is so.
fn is_so<const R: usize>(session: &mut Session<R>, line: Line) -> bool {
    match line {
        Line::Act(actor, act) => is_next(session, actor, act),
        Line::Refused(actor, act, refusal) => applied(session, actor, act) == Err(refusal),
        Line::Walk(actor, points, reply) => walk(session, actor, points) == Some(reply),
        Line::Moves(to) => moved(session, to).is_ok(),
        Line::Stays(to, refusal) => moved(session, to) == Err(refusal),
        Line::At(live, undone) => is_at(session, live, undone),
        Line::Is(place, content) => session.world().content(place) == Some(content),
        Line::Gone(place) => session.world().content(place).is_none(),
        Line::Actor(actor, words) => session.world().actor(actor) == Some(words),
        Line::Stands(actor, pc) => stands(session, actor) == Some(pc),
        Line::Step(k, actor, place, wrote, answer, reply) => {
            let shown = (go(actor), Some(place), wrote, answer, reply);
            shown_at(session, k) == Some(shown)
        }
        Line::NoStep(k, refusal) => session.entry(k) == Err(refusal),
    }
}

/// Whether this many steps are live, and this many undone.
fn is_at<const R: usize>(session: &Session<R>, live: u64, undone: u64) -> bool {
    session.len() == live && session.undone_len() == undone
}

/// Whether this act ends no call and is the step after the live ones.
fn is_next<const R: usize>(session: &mut Session<R>, actor: u8, act: Act) -> bool {
    let number = session.len() + 1;
    applied(session, actor, act) == Ok((number, None))
}

/// An entry without its old words: its event, its place, what it wrote of it, and what it answered
/// and replied.
type Shown = (Event, Option<Place>, Wrote, Answer, Option<OpReply>);

/// So much of the entry of the live step of this number.
fn shown_at<const R: usize>(session: &Session<R>, k: u64) -> Option<Shown> {
    let entry = session.entry(k).ok()?;
    Some((
        entry.event,
        entry.place,
        entry.wrote,
        entry.answer,
        entry.reply,
    ))
}

/// Lets an actor do one act, and answers the step's number and what its call replied.
fn applied<const R: usize>(
    session: &mut Session<R>,
    actor: u8,
    act: Act,
) -> Result<(u64, Option<OpReply>), Refusal> {
    let (number, entry) = session.apply(Event { actor, act })?;
    Ok((number, entry.reply))
}

/// Lets an actor step along these control points. Returns what the last step replied; none if the
/// actor was at another control point, was refused, or had a reply before the last step.
fn walk<const R: usize>(
    session: &mut Session<R>,
    actor: u8,
    points: &[Pc],
) -> Option<Option<OpReply>> {
    let mut reply = None;
    for pc in points {
        if reply.is_some() || stands(session, actor) != Some(*pc) {
            return None;
        }
        reply = applied(session, actor, Act::Go).ok()?.1;
    }
    Some(reply)
}

/// Makes a move through the run.
fn moved<const R: usize>(session: &mut Session<R>, to: Move) -> Result<(), Refusal> {
    match to {
        Move::Undo => session.undo(),
        Move::Back(n) => session.back(n),
        Move::Redo => session.redo(),
        Move::Forward(n) => session.forward(n),
    }
}

/// The control point where an actor is.
fn stands<const R: usize>(session: &Session<R>, actor: u8) -> Option<Pc> {
    Some(session.world().actor(actor)?.pc)
}
