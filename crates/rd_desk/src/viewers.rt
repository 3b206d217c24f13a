//! Viewers that each ask a list of commands, in their own threads.
//!
//! All room for answers is made before the first command is asked. Then one scope starts a thread
//! for each viewer, in the viewers' order, and waits for the threads in that order.

ghost use Rattle.std.specs.Prelude.{◌≡◌, ◌≤◌, [], length, map, vec_capacity, IfOk, IfErr};
ghost use Rattle.std.specs.List.{AllByRecursion, AllZip};
ghost use Rattle.rd_desk.specs.Viewers.{IsDone, IsRunEnding, run_ending};

use super::gates::{Answer, Gate};
use super::rooms::Room;
use super::threads::{Done, run_all};
use rd_lock::NoMemory;
use rd_marks::Command;
use std::alloc::Global;
use std::sync::Wait;
use std::thread::Threads;

/// How the run of one viewer ended.
#[derive(Drop)]
pub enum Ran<P> {
    /// Each of its commands was asked.
    Answered {
        /// The viewer's pass.
        pass: P,
        /// The answers, one for each command, in order.
        answers: Vec<Answer>,
    },
    /// 20: its thread was refused. It asked nothing, and its pass was dropped.
    NoMemory,
}

/// Asks each viewer's commands in order, each viewer in its own thread, and waits for all threads.
/// Returns each viewer's pass with its answers, in the viewers' order. If a viewer's thread was
/// refused, it returns the pass as it was, with `None`. The gate must take the passes.
///
/// # Errors
///
/// `NoMemory` if memory for the answers was refused. It gives the work back, and no command was
/// asked.
pub fn ask_viewers<R: Threads + Wait + Sync, G: Gate + Sync>(
    rt: &R,
    alloc: Global,
    gate: &G,
    work: Vec<(G::Pass, Vec<Command>)>,
) -> Result<Vec<(G::Pass, Option<Vec<Answer>>)>, (NoMemory, Vec<(G::Pass, Vec<Command>)>)>
    requires own { AllByRecursion (λ viewer. G.takes gate.now viewer.0) work.items }
    ensures ok { IfOk result (λ dones. AllZip
        (λ viewer done. IsDone (G.takes gate.now)
        (G.told gate.now) viewer.0 viewer.1.items done) work.items dones.items) }
    ensures err { IfErr result (λ refused. refused.1 ≡ work) }
{
    match Room::for_viewers(alloc, &work) {
        Ok(room) => Ok(run_all(rt, gate, work, room)),
        Err(_) => Err((NoMemory, work)),
    }
}

/// Asks each viewer's commands as `ask_viewers` does, and returns how the run of each ended, in the
/// viewers' order. It drops the pass of a viewer whose thread was refused. The gate must take the
/// passes.
///
/// # Errors
///
/// `NoMemory` if memory for the answers or for the result was refused. It gives the work back, and
/// no command was asked.
pub fn run_viewers<R: Threads + Wait + Sync, G: Gate + Sync>(
    rt: &R,
    alloc: Global,
    gate: &G,
    work: Vec<(G::Pass, Vec<Command>)>,
) -> Result<Vec<Ran<G::Pass>>, (NoMemory, Vec<(G::Pass, Vec<Command>)>)>
    requires own { AllByRecursion (λ viewer. G.takes gate.now viewer.0) work.items }
    ensures ok { IfOk result (λ rans. AllZip
        (IsRunEnding (G.takes gate.now) (G.told gate.now)) work.items rans.items) }
    ensures err { IfErr result (λ refused. refused.1 ≡ work) }
{
    let Ok(rans) = Vec::with_capacity(alloc, work.len()) else {
        return Err((NoMemory, work));
    };
    let dones = ask_viewers(rt, alloc, gate, work)?;
    Ok(run_endings::<G>(dones, rans))
}

/// Returns how the run of each viewer ended, from what it gave back. The list `rans` must be empty
/// and have room for this. It drops the pass of a viewer without answers.
fn run_endings<G: Gate>(dones: Vec<Done<G>>, mut rans: Vec<Ran<G::Pass>>) -> Vec<Ran<G::Pass>>
    requires { (rans.items ≡ []) × (length dones.items ≤ vec_capacity rans) }
    ensures { result.items ≡ map run_ending dones.items }
{
    for (pass, answers) in dones {
        let ran = match answers {
            Some(answers) => Ran::Answered { pass, answers },
            None => {
                drop(pass);
                Ran::NoMemory
            }
        };
        rans.push_reserved(ran);
    }
    rans
}
