//! The threads of a run of viewers.
//!
//! The promise in a thread's handle states which pass and which commands its viewer was given. If a
//! thread is refused, its closure comes back and is called here. It then gives back its pass
//! without asking anything, because the word `refused` has its viewer's index.

ghost use Rattle.std.specs.Prelude.{◌≡◌, ◌≤◌, [], length, vec_capacity};
ghost use Rattle.std.specs.List.{AllByRecursion, AllZip};
ghost use Rattle.rd_desk.specs.Viewers.{IsDone};
ghost use Rattle.rd_desk.specs.Rooms.{IsRoomFor};
ghost use Rattle.rd_desk.specs.Threads.{IsStarted, IsJoined};

use super::gates::{Answer, Gate};
use super::rooms::Room;
use rd_marks::Command;
use std::snapshot::Snapshot;
use std::sync::Wait;
use std::sync::atomic::{AtomicU64, Ordering};
use std::thread;
use std::thread::{Promise, PromisedHandle, Scope, Threads};

/// What a viewer's closure gives back: its pass and the answers, or its pass and `None` if it asked
/// nothing.
pub(crate) type Done<G> = (<G as Gate>::Pass, Option<Vec<Answer>>);

/// The handle of a viewer's thread, or what the viewer's closure gave back if the thread was
/// refused.
pub(crate) type Started<G> = Result<PromisedHandle<Done<G>, Asked<G>>, Done<G>>;

/// The promise that this gate was asked each of these commands in order, first with this pass; or
/// that nothing was asked, and the pass is as it was.
#[derive(Drop)]
pub(crate) struct Asked<G: Gate> {
    /// The gate that is asked.
    gate: Snapshot<G>,
    /// The viewer's pass before the first command.
    pass: Snapshot<G::Pass>,
    /// The commands, in order.
    commands: Snapshot<Vec<Command>>,
}

impl<G: Gate> Promise<Done<G>> for Asked<G> {
    ghost kept_by = { λ asked done. IsDone (G.takes asked.gate.value) (G.told asked.gate.value) asked.pass.value asked.commands.value.items done };
}

/// Asks each command in order, and returns the pass with the answers. The gate must take the pass,
/// and the list `answers` must be empty and have room for an answer to each command. If the word
/// `refused` has this viewer's index, from 0, it asks nothing and returns the pass as it was, with
/// `None`.
fn ask_all<R: Wait, G: Gate>(
    rt: &R,
    gate: &G,
    mut pass: G::Pass,
    commands: Vec<Command>,
    mut answers: Vec<Answer>,
    refused: &AtomicU64,
    viewer: u64,
) -> Done<G>
    requires own { G.takes gate.now pass }
    requires empty { answers.items ≡ [] }
    requires room { length commands.items ≤ vec_capacity answers }
    ensures { IsDone (G.takes gate.now) (G.told gate.now) pass commands.items result }
{
    if refused.load(Ordering::SeqCst) == viewer {
        return (pass, None);
    }
    for command in commands {
        let answer = gate.ask(rt, &mut pass, command);
        answers.push_reserved(answer);
    }
    (pass, Some(answers))
}

/// Starts a thread for each viewer, in order, and returns their handles. For a viewer whose thread
/// is refused, it puts the viewer's index, from 0, into the word `refused`, and returns what the
/// closure then gives back: the pass as it was, since it asks nothing. At the call this word must
/// not be a viewer's index, or that viewer may ask nothing; no clause says so. The gate must take
/// the passes. `answers` must have an empty list for each viewer, with room for just the answers to
/// its commands, and `started` must be empty and have room for each viewer.
fn start_all<'s, E: 's, R: Threads + Wait + Sync, G: Gate + Sync>(
    scope: &'s Scope<'s, E>,
    rt: &'s R,
    gate: &'s G,
    work: Vec<(G::Pass, Vec<Command>)>,
    answers: Vec<Vec<Answer>>,
    mut started: Vec<Started<G>>,
    refused: &'s AtomicU64,
) -> Vec<Started<G>>
    requires own { AllByRecursion (λ viewer. G.takes gate.now viewer.0) work.items }
    requires answers { AllZip IsRoomFor work.items answers.items }
    requires started { (started.items ≡ []) × (length work.items ≤ vec_capacity started) }
    ensures { AllZip (IsStarted G.takes G.told gate.now) work.items result.items }
{
    for ((pass, commands), room) in work.into_iter().zip(answers) {
        let viewer = started.len() as u64;
        let asked = Asked {
            gate: Snapshot::of(gate),
            pass: Snapshot::of(&pass),
            commands: Snapshot::of(&commands),
        };
        let handle = scope.spawn_with(
            asked,
            move || -> Done<G>
                requires { G.takes gate.now pass × (room.items ≡ [])
                    × (length commands.items ≤ vec_capacity room) }
                ensures { IsDone (G.takes gate.entry.now)
                    (G.told gate.entry.now) pass commands.items result }
            { ask_all(rt, gate, pass, commands, room, refused, viewer) },
        );
        let start = match handle {
            Ok(handle) => Ok(handle),
            Err(failed) => {
                refused.store(viewer, Ordering::SeqCst);
                let run = failed.value;
                Err(run())
            }
        };
        started.push_reserved(start);
    }
    started
}

/// Waits for each thread, in order, and returns what each viewer gave back. The list `dones` must
/// be empty and have room for this.
fn join_all<R: Threads, G: Gate>(
    rt: &R,
    started: Vec<Started<G>>,
    mut dones: Vec<Done<G>>,
) -> Vec<Done<G>>
    requires dones { (dones.items ≡ []) × (length started.items ≤ vec_capacity dones) }
    ensures { AllZip (IsJoined G.takes G.told) started.items result.items }
{
    for handle in started {
        let done = match handle {
            Ok(handle) => handle.join(rt),
            Err(done) => done,
        };
        dones.push_reserved(done);
    }
    dones
}

/// Runs all viewers, each in its own thread of one scope, and returns what each gave back. The gate
/// must take the passes, and `room` must be as `Room::for_viewers` returns it for this work.
pub(crate) fn run_all<R: Threads + Wait + Sync, G: Gate + Sync>(
    rt: &R,
    gate: &G,
    work: Vec<(G::Pass, Vec<Command>)>,
    room: Room<G>,
) -> Vec<Done<G>>
    requires own { AllByRecursion (λ viewer. G.takes gate.now viewer.0) work.items }
    requires answers { AllZip IsRoomFor work.items room.answers.items }
    requires started { (room.started.items ≡ []) × (length work.items ≤ vec_capacity room.started) }
    requires dones { (room.dones.items ≡ []) × (length work.items ≤ vec_capacity room.dones) }
    ensures { AllZip (λ viewer done. IsDone (G.takes gate.now)
        (G.told gate.now) viewer.0 viewer.1.items done) work.items result.items }
{
    let Room {
        answers,
        started,
        dones,
    } = room;
    let nobody = AtomicU64::new(u64::MAX);
    let refused = &nobody;
    thread::scope(
        thread::scope_env(),
        rt,
        move |scope| -> Vec<Done<G>>
            requires own { AllByRecursion (λ viewer. G.takes gate.now viewer.0) work.items }
            requires answers { AllZip IsRoomFor work.items answers.items }
            requires started { (started.items ≡ []) × (length work.items ≤ vec_capacity started) }
            requires dones { (dones.items ≡ []) × (length work.items ≤ vec_capacity dones) }
            ensures { AllZip (λ viewer done. IsDone (G.takes gate.entry.now)
                (G.told gate.entry.now) viewer.0 viewer.1.items done) work.items result.items }
        {
            let started = start_all(scope, rt, gate, work, answers, started, refused);
            join_all(rt, started, dones)
        },
    )
}
