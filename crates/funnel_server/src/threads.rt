//! The threads of workers, which wait until each worker has one.
ghost use Rattle.std.specs.Prelude.{◌≡◌, ◌<◌, ◌≤◌, ◌-◌, ◌∷◌, ◌++◌, [], All, length, vec_capacity};
ghost use Rattle.std.specs.List.{AllZip};
ghost use Rattle.funnel_server.specs.Started.{WorksWhere};
ghost use Rattle.funnel_server.specs.Workers.{HasMetNoFault};

use crate::worker::Worker;
use engine::PoolName;
use funnel_io::Gate;
use std::snapshot::Snapshot;
use std::sync::{OnceLock, OnceToken, Wait};
use std::thread;
use std::thread::{Promise, Scope, Threads};

/// What was decided of workers, whether all work, and one of them, where not all do: that which got no thread.
#[derive(Drop)]
pub(crate) struct Begun<'b> {
    pub(crate) decided: OnceToken<'b, bool>,
    pub(crate) reached: usize,
}

/// What the thread of a worker gives back: the worker, and what was decided of all.
#[derive(Drop)]
struct Joined<'a, 'b, G: Gate, N: PoolName, R: Wait> {
    worker: Worker<'a, G, N, R>,
    decided: OnceToken<'b, bool>,
}

/// The promise of a thread that its worker works where that is decided, and else does nothing.
#[derive(Drop)]
struct WorksIfDecided<'a, 'b, G: Gate, N: PoolName, R: Wait> {
    worker: Snapshot<Worker<'a, G, N, R>>,
    decision: &'b OnceLock<bool>,
}

impl<'a, 'b, G: Gate, N: PoolName, R: Wait> Promise<Joined<'a, 'b, G, N, R>>
    for WorksIfDecided<'a, 'b, G, N, R> {
    ghost use Rattle.std.specs.Prelude.{◌≡◌};
    ghost use Rattle.funnel_server.specs.Started.{WorksWhere};

    ghost kept_by = { λ promise joined. (joined.decided.of ≡ promise.decision.now.id)
        × WorksWhere G.Gate G.Conn.Source.own G.Conn.Sink.own joined.decided.value promise.worker.value joined.worker };
}

/// Gives each worker a thread, and has all work once each has one, or none where one has none. Waits for all threads.
pub(crate) fn begin_all<
    'a,
    'b,
    N: PoolName + Send + Sync,
    R: Threads + Wait + Sync,
    G: Gate + Send + Drop,
>(
    rt: &R,
    decision: &'b OnceLock<bool>,
    workers: Vec<Worker<'a, G, N, R>>,
) -> (Vec<Worker<'a, G, N, R>>, Begun<'b>)
where
    G::Conn: Send,
    requires ready { All (λ worker. HasMetNoFault worker.state) workers.items }
    ensures lock { result.1.decided.of ≡ decision.entry.now.id }
    ensures reached { result.1.reached ≤ length workers.entry.items - 1 }
    ensures work { AllZip (WorksWhere G.Gate G.Conn.Source.own G.Conn.Sink.own result.1.decided.value) workers.entry.items result.0.items }
{
    thread::scope(
        thread::scope_env(),
        rt,
        move |scope| -> (Vec<Worker<'_, G, N, R>>, Begun<'_>)
            requires ready { All (λ worker. HasMetNoFault worker.state) workers.items }
            ensures lock { result.1.decided.of ≡ decision.entry.now.id }
            ensures reached { result.1.reached ≤ length workers.entry.items - 1 }
            ensures work { AllZip (WorksWhere G.Gate G.Conn.Source.own G.Conn.Sink.own result.1.decided.value) workers.entry.items result.0.items }
        {
            let mut workers = workers;
            let begun = begin(rt, scope, decision, &mut workers);
            (workers, begun)
        },
    )
}

/// Gives threads to the workers, the last one first, and decides whether all work: they do where each has its thread. Waits for these
/// threads, and keeps the workers in order.
fn begin<
    's,
    'a: 's,
    'b: 's,
    E,
    N: PoolName + Send + Sync + 's,
    R: Threads + Wait + Sync + 's,
    G: Gate + Send + Drop + 's,
>(
    rt: &'s R,
    scope: &Scope<'s, E>,
    decision: &'b OnceLock<bool>,
    workers: &mut Vec<Worker<'a, G, N, R>>,
) -> Begun<'b>
where
    G::Conn: Send,
    requires ready { All (λ worker. HasMetNoFault worker.state) workers.old.items }
    ensures room { vec_capacity workers.old ≤ vec_capacity workers.new }
    ensures lock { result.decided.of ≡ decision.entry.now.id }
    ensures reached { result.reached ≤ length workers.old.items - 1 }
    ensures work { AllZip (WorksWhere G.Gate G.Conn.Source.own G.Conn.Sink.own result.decided.value) workers.old.items workers.new.items }
{
    let Some(worker) = workers.pop() else {
        return Begun {
            decided: decide(rt, decision, true),
            reached: 0,
        };
    };
    let promise = WorksIfDecided {
        worker: Snapshot::of(&worker),
        decision,
    };
    let thread = move || -> Joined<'_, '_, G, N, R>
        requires ready { HasMetNoFault worker.state }
        ensures lock { result.decided.of ≡ decision.entry.now.id }
        ensures works { WorksWhere G.Gate G.Conn.Source.own G.Conn.Sink.own result.decided.value worker.entry result.worker }
    { attend(rt, decision, worker) };
    match scope.spawn_with(promise, thread) {
        Ok(handle) => {
            let begun = begin(rt, scope, decision, workers);
            let Joined { worker, decided } = handle.join(rt);
            begun.decided.agrees(&decided);
            put_back(workers, worker);
            begun
        }
        Err(refused) => {
            let decided = decide(rt, decision, false);
            let reached = workers.len();
            // What was to be its thread hands the worker back, as it is.
            let joined = (refused.value)();
            decided.agrees(&joined.decided);
            put_back(workers, joined.worker);
            Begun { decided, reached }
        }
    }
}

/// Waits for the decision, and has the worker work where that is decided.
fn attend<'a, 'b, N: PoolName, R: Wait, G: Gate>(
    rt: &R,
    decision: &'b OnceLock<bool>,
    mut worker: Worker<'a, G, N, R>,
) -> Joined<'a, 'b, G, N, R>
    requires ready { HasMetNoFault worker.state }
    ensures lock { result.decided.of ≡ decision.entry.now.id }
    ensures works { WorksWhere G.Gate G.Conn.Source.own G.Conn.Sink.own result.decided.value worker.entry result.worker }
{
    let decided = wait_for(rt, decision);
    if *decision.value(&decided) {
        worker.work();
    }
    Joined { worker, decided }
}

/// Decides whether all work, which is done once.
fn decide<'b, R: Wait>(rt: &R, decision: &'b OnceLock<bool>, all: bool) -> OnceToken<'b, bool>
    ensures lock { result.of ≡ decision.entry.now.id }
    ensures decided { result.value ≡ all }
{
    let Ok(decided) = decision.set(rt, all) else {
        // It was decided before, which nobody does.
        for _ in rt.forever() {}
        unreachable!()
    };
    decided
}

/// Waits for the decision.
fn wait_for<'b, R: Wait>(rt: &R, decision: &'b OnceLock<bool>) -> OnceToken<'b, bool>
    ensures { result.of ≡ decision.entry.now.id }
{
    decision.wait(rt);
    // It was made by now, so that this makes none.
    decision.init(rt, || false)
}

/// Puts the worker that was taken out back.
fn put_back<'a, G: Gate + Drop, N: PoolName, R: Wait>(
    workers: &mut Vec<Worker<'a, G, N, R>>,
    worker: Worker<'a, G, N, R>,
)
    requires room { length workers.old.items < vec_capacity workers.old }
    ensures room { vec_capacity workers.old ≤ vec_capacity workers.new }
    ensures all { workers.new.items ≡ workers.old.items ++ worker.entry ∷ [] }
{
    // Its room is still there.
    if workers.push(worker).is_err() {
        unreachable!()
    }
}
