//! A serve: the connections of each gate are answered by a pass of its own of one new engine.
ghost use Rattle.std.specs.Prelude.{◌≡◌, ◌<◌, ◌≤◌, ◌+◌, ◌-◌, ◌++◌, [], length, map, IfErr, IfNone, IfOk, IfSome, if◌then◌else◌, vec_capacity};
ghost use Rattle.std.specs.List.{AllZip, list_any};
ghost use Rattle.funnel_model.specs.Configuration.{IsValid};
ghost use Rattle.funnel_io.specs.Answers.{MatchOpening};
ghost use Rattle.funnel.specs.Runs.{IsBlankFor, KeepsLast};
ghost use Rattle.funnel.specs.ServeRuns.{IsStartRefused, new_workers};
ghost use Rattle.funnel.specs.Serving.{new_passes};
ghost use Rattle.funnel.specs.Turns.{AreOpened, AreOpenedInVain, AreOpenedUntilOneFails};
ghost use Rattle.funnel.specs.Workers.{gates_of, pass_of_worker, states_of, told_by};
ghost use Rattle.funnel.specs.Workers.{ArePassedOn, EndsOpenServeInTurns, EndsServeInTurns, HaveWorkedInTurns, TellOfOpening, TellTheSame};

use crate::ends::{ProgramEnd, Why};
use command_line::ServeCommand;
use engine::{Blank, Client, Engine, Pass, PoolName};
use funnel_io::{Gate, Opening};
use funnel_model::Config;
use funnel_server::{NoThread, Worker, run_workers};
use std::alloc::Global;
use std::marker::Brand;
use std::sync::Wait;
use std::thread::Threads;

/// Opens the gates in order, opens an engine, answers the connections of each gate by a pass of its own, up to so many, and closes
/// the engine; each worker ends its gate. Where a gate doesn't open, or there is no memory for the engine or for the workers, or no
/// thread for one of these, nothing is left of the engine, no connection was taken, and each gate is ended.
pub(crate) fn serve_command<R: Threads + Wait + Sync, G: Gate + Send + Drop>(
    rt: &R,
    alloc: Global,
    config: &Config,
    serve: ServeCommand,
    mut gates: Vec<G>,
) -> ProgramEnd<G>
where
    G::Conn: Send,
    requires valid { IsValid config.now }
    requires enough { length gates.items ≤ config.now.passes }
    ensures ends { EndsServeInTurns G.Gate G.Conn.Source.own G.Conn.Sink.own config.now serve gates.items result.gates.items result.why result.closed }
    ensures kept { IfSome result.closed (KeepsLast config.now) }
    ensures unserved { IfNone result.closed (AreOpenedInVain G.Gate result.why gates.items result.gates.items) }
    ensures count { length result.gates.items ≡ length gates.items }
{
    let Opening::Open = open_all(&mut gates) else {
        end_all(&mut gates);
        return ProgramEnd::unopened(Why::GateFault, gates);
    };
    let ended = serve_open(rt, alloc, config, serve, gates);
    if ended.closed.is_some() {
        return ended;
    }
    let ProgramEnd { why, mut gates, .. } = ended;
    end_all(&mut gates);
    ProgramEnd::unopened(why, gates)
}

/// Opens the gates in order, and none after one that fails.
fn open_all<G: Gate>(gates: &mut [G]) -> Opening
    ensures opened { MatchOpening result (AreOpened G.Gate gates.old gates.new) (AreOpenedUntilOneFails G.Gate gates.old gates.new) }
    ensures told { TellOfOpening G.Gate G.Conn.Source.own G.Conn.Sink.own result gates.old gates.new }
    ensures count { length gates.new ≡ length gates.old }
{
    let Some((gate, others)) = gates.split_first_mut() else {
        return Opening::Open;
    };
    match gate.open() {
        Opening::Open => open_all(others),
        Opening::Fault => Opening::Fault,
    }
}

/// Ends each gate.
fn end_all<G: Gate>(gates: &mut [G])
    ensures ended { AllZip G.end_gives gates.old gates.new }
    ensures told { TellTheSame G.Gate G.Conn.Source.own G.Conn.Sink.own gates.old gates.new }
    ensures count { length gates.new ≡ length gates.old }
{
    if let Some((gate, others)) = gates.split_first_mut() {
        gate.end();
        end_all(others);
    }
}

/// Serves gates that are open by a new engine. Nothing of it is left where there was no memory for it or for the workers, or no thread
/// for one of these; then no gate was called.
fn serve_open<R: Threads + Wait + Sync, G: Gate + Send + Drop>(
    rt: &R,
    alloc: Global,
    config: &Config,
    serve: ServeCommand,
    gates: Vec<G>,
) -> ProgramEnd<G>
where
    G::Conn: Send,
    requires valid { IsValid config.now }
    requires enough { length gates.items ≤ config.now.passes }
    ensures ends { EndsOpenServeInTurns G.Gate G.Conn.Source.own G.Conn.Sink.own config.now serve gates.items result.gates.items result.why result.closed }
    ensures kept { IfSome result.closed (KeepsLast config.now) }
    ensures refused { IfNone result.closed (IsStartRefused (length gates.items) result.why) }
    ensures untouched { IfNone result.closed (result.gates.items ≡ gates.items) }
    ensures count { length result.gates.items ≡ length gates.items }
{
    let Ok(blank) = Blank::new(alloc, config) else {
        return ProgramEnd::unopened(Why::Memory, gates);
    };
    serve_gates::<Brand, _, _>(rt, alloc, config, blank, serve, gates)
}

/// Opens an engine over the blank, answers the connections of each gate by a pass of its own, up to so many, and closes it.
/// Nothing of it is left where there was no memory to open it or for the workers, or no thread for one of these; then no gate was called.
fn serve_gates<N: PoolName + Send + Sync, R: Threads + Wait + Sync, G: Gate + Send + Drop>(
    rt: &R,
    alloc: Global,
    config: &Config,
    blank: Blank,
    serve: ServeCommand,
    gates: Vec<G>,
) -> ProgramEnd<G>
where
    G::Conn: Send,
    requires blank { IsBlankFor config.now N.pool blank }
    requires enough { length gates.items ≤ config.now.passes }
    ensures ends { EndsOpenServeInTurns G.Gate G.Conn.Source.own G.Conn.Sink.own config.now serve gates.items result.gates.items result.why result.closed }
    ensures kept { IfSome result.closed (KeepsLast config.now) }
    ensures refused { IfNone result.closed (IsStartRefused (length gates.items) result.why) }
    ensures untouched { IfNone result.closed (result.gates.items ≡ gates.items) }
    ensures count { length result.gates.items ≡ length gates.items }
{
    let Ok(room) = Vec::with_capacity(alloc, gates.len()) else {
        return ProgramEnd::unopened(Why::Memory, gates);
    };
    let Ok((engine, passes)) = Engine::<N>::open(alloc, config, blank) else {
        return ProgramEnd::unopened(Why::Memory, gates);
    };
    let (ran, gates, passes) = answer_all(rt, alloc, &engine, passes, serve, gates, room);
    match ran {
        Ok(why) => {
            let closed = Some(engine.close(passes));
            ProgramEnd { why, gates, closed }
        }
        Err(NoThread { worker }) => ProgramEnd::unopened(Why::NoThread(worker), gates),
    }
}

/// Answers the connections of each gate by one of the engine's passes, which are new. Gives why that ended, or which worker had no
/// thread, so that no gate was called, and all gates and passes back.
fn answer_all<'a, N: PoolName + Send + Sync, R: Threads + Wait + Sync, G: Gate + Send + Drop>(
    rt: &'a R,
    alloc: Global,
    engine: &'a Engine<N>,
    passes: Vec<Pass<N>>,
    serve: ServeCommand,
    gates: Vec<G>,
    room: Vec<Worker<'a, G, N, R>>,
) -> (Result<Why, NoThread>, Vec<G>, Vec<Pass<N>>)
where
    G::Conn: Send,
    requires new { passes.items ≡ new_passes 0 N.pool.config.passes }
    requires enough { length gates.items ≤ N.pool.config.passes }
    requires empty { room.items ≡ [] }
    requires room { length gates.items ≤ vec_capacity room }
    ensures worked { IfOk result.0 (λ why.
        HaveWorkedInTurns G.Gate G.Conn.Source.own G.Conn.Sink.own N.pool serve gates.items result.1.items why result.2.items) }
    ensures untouched { IfErr result.0 (λ _. result.1.items ≡ gates.items) }
    ensures named { IfErr result.0 (λ lacking. lacking.worker < length gates.items) }
{
    let mut gates = gates;
    let mut passes = passes;
    let mut workers = room;
    equip(
        rt,
        alloc,
        engine,
        serve,
        &mut gates,
        &mut passes,
        &mut workers,
    );
    let (workers, ran) = run_workers(rt, workers);
    let why = why_of_workers(&workers);
    take_back(workers, &mut gates, &mut passes);
    match ran {
        Ok(()) => (Ok(why), gates, passes),
        Err(lacking) => (Err(lacking), gates, passes),
    }
}

/// Makes a worker of each gate and the next pass, all of which are new.
fn equip<'a, N: PoolName, R: Wait, G: Gate + Drop>(
    rt: &'a R,
    alloc: Global,
    engine: &'a Engine<N>,
    serve: ServeCommand,
    gates: &mut Vec<G>,
    passes: &mut Vec<Pass<N>>,
    workers: &mut Vec<Worker<'a, G, N, R>>,
)
    requires new { passes.old.items ≡ new_passes 0 N.pool.config.passes }
    requires enough { length gates.old.items ≤ N.pool.config.passes }
    requires empty { workers.old.items ≡ [] }
    requires room { length gates.old.items ≤ vec_capacity workers.old }
    ensures workers { states_of workers.new.items ≡ new_workers N.pool.config N.pool.limits serve 0
        (told_by G.Gate G.Conn.Source.own G.Conn.Sink.own gates.old.items) }
    ensures gates { ArePassedOn gates.old.items gates.new.items workers.new.items }
    ensures passes { passes.new.items ≡ new_passes (length gates.old.items)
        (N.pool.config.passes - length gates.old.items) }
    ensures room { (vec_capacity gates.new ≡ vec_capacity gates.old) × (vec_capacity passes.new ≡ vec_capacity passes.old) }
{
    while !gates.is_empty() {
        let gate = gates.remove(0);
        let client = Client {
            engine,
            pass: passes.remove(0),
            rt,
            alloc,
        };
        let worker = Worker {
            gate,
            client,
            http: serve.http,
            left: serve.connections,
            fault: false,
            memory: false,
        };
        // There is room for each.
        if workers.push(worker).is_err() {
            unreachable!()
        }
    }
}

/// Why a serve ends, where its workers ended so.
fn why_of_workers<N: PoolName, R: Wait, G: Gate>(workers: &[Worker<G, N, R>]) -> Why
    ensures { result ≡ (if list_any (λ worker. worker.state.fault) workers.now then Why.GateFault
        else (if list_any (λ worker. worker.state.memory) workers.now then Why.Memory else Why.Done)) }
{
    if any_gate_failed(workers) {
        Why::GateFault
    } else if any_found_no_memory(workers) {
        Why::Memory
    } else {
        Why::Done
    }
}

fn any_gate_failed<N: PoolName, R: Wait, G: Gate>(workers: &[Worker<G, N, R>]) -> bool
    ensures { result ≡ list_any (λ worker. worker.state.fault) workers.now }
{
    workers.iter().any(
        |worker: &Worker<G, N, R>|
            ensures { result ≡ worker.now.state.fault }
        { worker.fault },
    )
}

fn any_found_no_memory<N: PoolName, R: Wait, G: Gate>(workers: &[Worker<G, N, R>]) -> bool
    ensures { result ≡ list_any (λ worker. worker.state.memory) workers.now }
{
    workers.iter().any(
        |worker: &Worker<G, N, R>|
            ensures { result ≡ worker.now.state.memory }
        { worker.memory },
    )
}

/// Takes the gates and the passes of the workers back.
fn take_back<N: PoolName, R: Wait, G: Gate + Drop>(
    workers: Vec<Worker<'_, G, N, R>>,
    gates: &mut Vec<G>,
    passes: &mut Vec<Pass<N>>,
)
    requires room_of_gates { length gates.old.items + length workers.items ≤ vec_capacity gates.old }
    requires room_of_passes { length passes.old.items + length workers.items ≤ vec_capacity passes.old }
    ensures gates { gates.new.items ≡ gates.old.items ++ gates_of workers.entry.items }
    ensures told { let told = told_by G.Gate G.Conn.Source.own G.Conn.Sink.own in
        told gates.new.items ≡ told gates.old.items ++ map (λ worker. worker.gate) (states_of workers.entry.items) }
    ensures passes { passes.new.items ≡ passes.old.items ++ map pass_of_worker (states_of workers.entry.items) }
{
    for worker in workers {
        let Worker { gate, client, .. } = worker;
        let Client { pass, .. } = client;
        // The room of those that were taken out is still there.
        if gates.push(gate).is_err() || passes.push(pass).is_err() {
            unreachable!()
        }
    }
}
