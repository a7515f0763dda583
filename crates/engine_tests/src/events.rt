//! The events that calls make, as the contract of each call tells them.
ghost use Rattle.std.specs.Prelude.{◌≡◌, ℕ, Err, true, [], ◌∷◌, IfOk};
ghost use Rattle.engine_tests.specs.Events.{EndsWith, EndsWithAdd, FindsBetween, Makes, MakesTwo};
ghost use Rattle.funnel_model.specs.declared.call.Call.TheVariants as call;
ghost use Rattle.funnel_model.specs.declared.event.Event.TheVariants as event;

use crate::caller::Caller;
use crate::setting::{Case, expect_in_a_slice};
use engine::{AddFault, Engine, FindFault, Pass, PoolName, Recycled};
use funnel_model::Ids;
use std::alloc::Global;
use std::sync::Wait;
use std::test::*;

#[test]
fn calls_make_their_events(rt: HostRuntime) {
    expect_in_a_slice(&rt, rt.alloc(), &Events)
}

struct Events;

impl Case for Events {
    fn holds<N: PoolName, R: Wait>(
        &self,
        caller: &mut Caller<'_, N, R>,
        _: &mut Vec<Caller<'_, N, R>>,
    ) -> bool {
        let (rt, alloc, engine) = (caller.rt, caller.alloc, caller.engine);
        let added = add(rt, alloc, engine, &mut caller.pass, 1, "x").is_ok();
        let found = find(rt, alloc, engine, &mut caller.pass, "x").is_ok();
        added && found && recycle(rt, engine, &mut caller.pass) == Recycled::NoneRetired
    }
}

/// The last event of an add that found no room is its refusal, and it makes no other where no column is to be kept free. One
/// that found no memory makes none then. The last event of one that was answered by its place has the document, with exactly
/// its bits.
fn add<N: PoolName, R: Wait>(
    rt: &R,
    alloc: Global,
    engine: &Engine<N>,
    pass: &mut Pass<N>,
    id: u64,
    text: &str,
) -> Result<u64, AddFault>
    ensures full { (blocks : _) → result ≡ Err (AddFault.Full blocks) → EndsWith (event.No pass.old.number (call.Add id text.now)) pass.new.front }
    ensures full_at_once { (blocks : _) → N.pool.config.reserve ≡ 0 → result ≡ Err (AddFault.Full blocks) →
        Makes pass.old.number pass.old.front pass.new.front (event.No pass.old.number (call.Add id text.now) ∷ []) }
    ensures memory { N.pool.config.reserve ≡ 0 → result ≡ Err AddFault.Memory → Makes pass.old.number pass.old.front pass.new.front [] }
    ensures added { IfOk result (λ _. EndsWithAdd N.pool.config N.pool.limits pass.old.number id text.now pass.new.front) }
{
    engine.add(rt, alloc, pass, id, text)
}

/// A find makes two events, and between them there are only those of other passes.
fn find<N: PoolName, R: Wait>(
    rt: &R,
    alloc: Global,
    engine: &Engine<N>,
    pass: &mut Pass<N>,
    query: &str,
) -> Result<Ids, FindFault>
    ensures found { IfOk result (FindsBetween pass.old.number pass.old.front pass.new.front query.now) }
{
    engine.find(rt, alloc, pass, query)
}

/// So does a recycle that clears a slice; where none is retired it makes its refusal.
fn recycle<N: PoolName, R: Wait>(rt: &R, engine: &Engine<N>, pass: &mut Pass<N>) -> Recycled
    ensures done { (slice : ℕ) → result ≡ Recycled.Done slice →
        MakesTwo pass.old.number pass.old.front pass.new.front (event.Clear pass.old.number slice) (event.Opened pass.old.number slice true) }
    ensures none { result ≡ Recycled.NoneRetired →
        Makes pass.old.number pass.old.front pass.new.front (event.No pass.old.number call.Recycle ∷ []) }
{
    engine.recycle(rt, pass)
}
