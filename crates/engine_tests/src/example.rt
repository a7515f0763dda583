//! The program at the head of the crate `engine`, which docs/library.md shows whole. All that it needs comes from that crate.

use engine::{
    ConfigFault, Engine, Pass, PoolName, Search, ShareEngine, UseEngine, parse_config,
    share_engine, use_engine,
};
use std::alloc::Global;
use std::sync::Wait;
use std::test::*;
use std::thread::Threads;

/// Uses an engine that is its own, and then one that two threads share. Their other sizes are the defaults.
fn run<R: Threads + Wait + Sync>(rt: &R, alloc: Global) -> Result<bool, ConfigFault> {
    let config = parse_config(alloc, b"{\"passes\": 2}")?;
    let alone = use_engine(rt, alloc, &config, PutAndFind)?;
    let (closed, found) = share_engine(rt, alloc, &config, &PutAndFind)?;
    Ok(alone && found.as_slice() == [true, true].as_slice() && closed.commits.len() == 2)
}

/// Puts a document, and finds it.
#[derive(Drop)]
struct PutAndFind;

impl<R: Wait> UseEngine<R> for PutAndFind {
    /// Whether it was found.
    type Output = bool;

    fn run<N: PoolName>(
        self,
        rt: &R,
        alloc: Global,
        engine: Engine<N>,
        mut passes: Vec<Pass<N>>,
    ) -> bool {
        put_and_find(rt, alloc, &engine, &mut passes[0], 7)
    }
}

impl<R: Wait> ShareEngine<R> for PutAndFind {
    type Output = bool;

    fn work<N: PoolName>(
        &self,
        rt: &R,
        alloc: Global,
        engine: &Engine<N>,
        pass: &mut Pass<N>,
    ) -> bool {
        let id = u64::from(pass.number());
        put_and_find(rt, alloc, engine, pass, id)
    }
}

/// Other passes may add and delete beside it.
fn put_and_find<N: PoolName, R: Wait>(
    rt: &R,
    alloc: Global,
    engine: &Engine<N>,
    pass: &mut Pass<N>,
    id: u64,
) -> bool {
    let put = engine.put(rt, alloc, pass, id, "The cat sat").is_ok();
    let found = match engine.query(rt, alloc, pass, "CAT -dog") {
        Ok(ids) => ids.as_slice().contains(&id),
        Err(_) => false,
    };
    // Of the documents that have the word, the ten that were added last.
    match engine.newest(rt, alloc, pass, 10, Search::Words("cat")) {
        Ok(newest) => put && found && newest.ids.as_slice().contains(&id),
        Err(_) => false,
    }
}

#[test]
fn documents_are_found_by_one_thread_and_by_two(rt: HostRuntime) -> Result<(), Fail> {
    assert!(rt; run(&rt, rt.alloc())?);
    Ok(())
}
