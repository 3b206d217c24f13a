//! Tasks that are done at the same time, each in a thread of its own.
//!
//! The promise in a thread's handle states which task it was given. If a thread is refused, its
//! closure comes back and is called here. It then gives back its task undone, because the word
//! `refused` has its task's index.

ghost use Rattle.std.specs.Prelude.{◌≡◌, ◌≤◌, [], length, vec_capacity, IfOk, IfErr};
ghost use Rattle.std.specs.List.{AllByRecursion, AllZip};
ghost use Rattle.rd_view.specs.Tasks.{IsTaskEnd, IsTaskStarted, IsTaskJoined};

use rd_lock::NoMemory;
use std::alloc::Global;
use std::snapshot::Snapshot;
use std::sync::Wait;
use std::sync::atomic::{AtomicU64, Ordering};
use std::thread;
use std::thread::{Promise, PromisedHandle, Scope, Threads};

/// What is done in a thread of its own.
pub(crate) trait Task {
    /// What it gives back.
    type Done: Send + Drop;

    /// The task can be done.
    ghost can_run: { Self → Type 0 };

    /// What the contract states of doing it: from the task and what it gives back.
    ghost runs: { Self → Self.Done → Type 0 };

    /// Does the task. It may wait. It must be one that can be done.
    fn run<R: Wait>(self, rt: &R) -> Self::Done
        requires ready { can_run self }
        ensures runs { runs self result };
}

/// What came of a task: what it gave back, or the task as it was, if its thread was refused.
type TaskEnd<T> = Result<<T as Task>::Done, T>;

/// The handle of a task's thread, or what the task's closure gave back if the thread was refused.
type StartedTask<T> = Result<PromisedHandle<TaskEnd<T>, Given<T>>, TaskEnd<T>>;

/// The promise that this task was done, or is given back as it was.
#[derive(Drop)]
struct Given<T> {
    /// The task before it was done.
    task: Snapshot<T>,
}

impl<T: Task> Promise<TaskEnd<T>> for Given<T> {
    ghost kept_by = { λ given end. IsTaskEnd T.runs given.task.value end };
}

/// Does each task in a thread of its own, and waits for all threads. Returns what each gave back,
/// in order; or the task as it was, if its thread was refused: it was then not done. The tasks must
/// be ones that can be done.
///
/// # Errors
///
/// `NoMemory` if memory for the threads' handles or for the result was refused. It gives the tasks
/// back, and no task was done.
pub(crate) fn run_tasks<R: Threads + Wait + Sync, T: Task + Send + Drop>(
    rt: &R,
    alloc: Global,
    tasks: Vec<T>,
) -> Result<Vec<Result<T::Done, T>>, (NoMemory, Vec<T>)>
    requires ready { AllByRecursion T.can_run tasks.items }
    ensures ok { IfOk result (λ ends. AllZip (IsTaskEnd T.runs) tasks.items ends.items) }
    ensures err { IfErr result (λ refused. refused.1 ≡ tasks) }
{
    let Ok(started) = Vec::with_capacity(alloc, tasks.len()) else {
        return Err((NoMemory, tasks));
    };
    let Ok(ends) = Vec::with_capacity(alloc, tasks.len()) else {
        return Err((NoMemory, tasks));
    };
    Ok(run_in_scope(rt, tasks, started, ends))
}

/// Does each task in its own thread of one scope, and returns, in order, what came of each. The
/// tasks must be ones that can be done. `started` and `ends` must be empty and have room for each.
fn run_in_scope<R: Threads + Wait + Sync, T: Task + Send + Drop>(
    rt: &R,
    tasks: Vec<T>,
    started: Vec<StartedTask<T>>,
    ends: Vec<TaskEnd<T>>,
) -> Vec<TaskEnd<T>>
    requires ready { AllByRecursion T.can_run tasks.items }
    requires started { (started.items ≡ []) × (length tasks.items ≤ vec_capacity started) }
    requires ends { (ends.items ≡ []) × (length tasks.items ≤ vec_capacity ends) }
    ensures { AllZip (IsTaskEnd T.runs) tasks.items result.items }
{
    let nobody = AtomicU64::new(u64::MAX);
    let refused = &nobody;
    thread::scope(
        thread::scope_env(),
        rt,
        move |scope| -> Vec<TaskEnd<T>>
            requires ready { AllByRecursion T.can_run tasks.items }
            requires started { (started.items ≡ []) × (length tasks.items ≤ vec_capacity started) }
            requires ends { (ends.items ≡ []) × (length tasks.items ≤ vec_capacity ends) }
            ensures { AllZip (IsTaskEnd T.runs) tasks.items result.items }
        {
            let started = start_tasks(scope, rt, tasks, started, refused);
            join_tasks(rt, started, ends)
        },
    )
}

/// Starts a thread for each task, in order, and returns their handles. For a task whose thread is
/// refused, it puts the task's index, from 0, into the word `refused`, and returns what the closure
/// then gives back: the task as it was. At the call this word must not be a task's index, or that
/// task may not be done; no clause says so. The tasks must be ones that can be done, and `started`
/// must be empty and have room for each.
fn start_tasks<'s, E: 's, R: Threads + Wait + Sync, T: Task + Send + Drop + 's>(
    scope: &'s Scope<'s, E>,
    rt: &'s R,
    tasks: Vec<T>,
    mut started: Vec<StartedTask<T>>,
    refused: &'s AtomicU64,
) -> Vec<StartedTask<T>>
    requires ready { AllByRecursion T.can_run tasks.items }
    requires started { (started.items ≡ []) × (length tasks.items ≤ vec_capacity started) }
    ensures { AllZip (IsTaskStarted T.runs) tasks.items result.items }
{
    for task in tasks {
        let index = started.len() as u64;
        let given = Given {
            task: Snapshot::of(&task),
        };
        let handle = scope.spawn_with(
            given,
            move || -> TaskEnd<T>
                requires { T.can_run task }
                ensures { IsTaskEnd T.runs task result }
            { run_task(rt, task, refused, index) },
        );
        let start = match handle {
            Ok(handle) => Ok(handle),
            Err(failed) => {
                refused.store(index, Ordering::SeqCst);
                let run = failed.value;
                Err(run())
            }
        };
        started.push_reserved(start);
    }
    started
}

/// Does a task, and returns what it gave back. If the word `refused` has the task's index, from 0,
/// it returns the task as it was. The task must be one that can be done.
fn run_task<R: Wait, T: Task>(rt: &R, task: T, refused: &AtomicU64, index: u64) -> TaskEnd<T>
    requires ready { T.can_run task }
    ensures { IsTaskEnd T.runs task result }
{
    if refused.load(Ordering::SeqCst) == index {
        return Err(task);
    }
    Ok(task.run(rt))
}

/// Waits for each thread, in order, and returns what came of each task. The list `ends` must be
/// empty and have room for this.
fn join_tasks<R: Threads, T: Task + Drop>(
    rt: &R,
    started: Vec<StartedTask<T>>,
    mut ends: Vec<TaskEnd<T>>,
) -> Vec<TaskEnd<T>>
    requires ends { (ends.items ≡ []) × (length started.items ≤ vec_capacity ends) }
    ensures { AllZip (IsTaskJoined T.runs) started.items result.items }
{
    for handle in started {
        let end = match handle {
            Ok(handle) => handle.join(rt),
            Err(end) => end,
        };
        ends.push_reserved(end);
    }
    ends
}
