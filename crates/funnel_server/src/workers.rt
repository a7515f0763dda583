ghost use Rattle.std.specs.Prelude.{◌≡◌, ◌<◌, All, IfErr, IfOk, length};
ghost use Rattle.std.specs.List.{AllZip};
ghost use Rattle.funnel_server.specs.GateTurns.{WorksInTurns};
ghost use Rattle.funnel_server.specs.Workers.{HasMetNoFault};

use crate::threads::begin_all;
use crate::worker::Worker;
use engine::PoolName;
use funnel_io::Gate;
use std::sync::{OnceLock, Wait};
use std::thread::Threads;

/// The system gave this one of the workers no thread.
#[derive(Clone, Copy, Debug, PartialEq, Eq)]
pub struct NoThread {
    pub worker: usize,
}

/// Runs each worker in a thread of its own until all have stopped, and hands them back in order. All of them use the engine
/// that `N` names.
///
/// No worker asks its gate for a connection before each has its thread. Where the system gives one of them none, no worker does
/// anything; the error names that one.
pub fn run_workers<'a, N: PoolName + Send + Sync, R: Threads + Wait + Sync, G: Gate + Send + Drop>(
    rt: &R,
    workers: Vec<Worker<'a, G, N, R>>,
) -> (Vec<Worker<'a, G, N, R>>, Result<(), NoThread>)
where
    G::Conn: Send,
    requires ready { All (λ worker. HasMetNoFault worker.state) workers.items }
    ensures all { length result.0.items ≡ length workers.entry.items }
    ensures work { IfOk result.1 (λ _. AllZip (WorksInTurns G.Gate G.Conn.Source.own G.Conn.Sink.own) workers.entry.items result.0.items) }
    ensures untouched { IfErr result.1 (λ _. result.0.items ≡ workers.entry.items) }
    ensures named { IfErr result.1 (λ lacking. lacking.worker < length workers.entry.items) }
{
    if workers.is_empty() {
        return (workers, Ok(()));
    }
    let decision = OnceLock::new();
    let (workers, begun) = begin_all(rt, &decision, workers);
    let result = if *decision.value(&begun.decided) {
        Ok(())
    } else {
        Err(NoThread {
            worker: begun.reached,
        })
    };
    (workers, result)
}
