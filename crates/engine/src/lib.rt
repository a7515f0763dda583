//! The engine: one index that many threads use at once.
//!
//! An engine has a fixed number of passes. A pass is a client's place in the history: it makes one call after another, and each
//! call is answered by all that the pass has seen, and by what others did before the call's event. Threads that have a pass each
//! call the same engine beside each other. Each call gives one step of one legal history, which the contracts say by `Step`: the
//! two calls of an open find give one together (`open_finds_are_finds`), and a tuning that is too wide gives none. After `close`
//! the calls of all passes stand in that history, each once.
//!
//! A program reads a valid configuration (`parse_config`), and has `use_engine` open an engine with it, which hands it to the
//! program's own `UseEngine::run`; or `share_engine`, which has a thread for each pass call `ShareEngine::work`. The type of an
//! engine, and of what it hands out, has the name of its pool: so a pass is one of the engine with the same name, and rests whenever
//! a caller has it. So no call of an engine asks for anything but the arguments that its types say, save `retune`, to which
//! `read_tuning` gives a configuration. A program that proves more of what it does makes a `Blank` and names its pool itself, in a
//! function over `N: PoolName`: so `Blank::new` asks for a valid configuration, and `open` for the one that its blank was made with
//! and for the name of that blank's pool.
//!
//! ```text
//! use engine::{
//!     ConfigFault, Engine, Pass, PoolName, Search, ShareEngine, UseEngine, parse_config,
//!     share_engine, use_engine,
//! };
//! use std::alloc::Global;
//! use std::sync::Wait;
//! use std::thread::Threads;
//!
//! /// Uses an engine that is its own, and then one that two threads share. Their other sizes are the defaults.
//! fn run<R: Threads + Wait + Sync>(rt: &R, alloc: Global) -> Result<bool, ConfigFault> {
//!     let config = parse_config(alloc, b"{\"passes\": 2}")?;
//!     let alone = use_engine(rt, alloc, &config, PutAndFind)?;
//!     let (closed, found) = share_engine(rt, alloc, &config, &PutAndFind)?;
//!     Ok(alone && found.as_slice() == [true, true].as_slice() && closed.commits.len() == 2)
//! }
//!
//! /// Puts a document, and finds it.
//! #[derive(Drop)]
//! struct PutAndFind;
//!
//! impl<R: Wait> UseEngine<R> for PutAndFind {
//!     /// Whether it was found.
//!     type Output = bool;
//!
//!     fn run<N: PoolName>(
//!         self,
//!         rt: &R,
//!         alloc: Global,
//!         engine: Engine<N>,
//!         mut passes: Vec<Pass<N>>,
//!     ) -> bool {
//!         put_and_find(rt, alloc, &engine, &mut passes[0], 7)
//!     }
//! }
//!
//! impl<R: Wait> ShareEngine<R> for PutAndFind {
//!     type Output = bool;
//!
//!     fn work<N: PoolName>(
//!         &self,
//!         rt: &R,
//!         alloc: Global,
//!         engine: &Engine<N>,
//!         pass: &mut Pass<N>,
//!     ) -> bool {
//!         let id = u64::from(pass.number());
//!         put_and_find(rt, alloc, engine, pass, id)
//!     }
//! }
//!
//! /// Other passes may add and delete beside it.
//! fn put_and_find<N: PoolName, R: Wait>(
//!     rt: &R,
//!     alloc: Global,
//!     engine: &Engine<N>,
//!     pass: &mut Pass<N>,
//!     id: u64,
//! ) -> bool {
//!     let put = engine.put(rt, alloc, pass, id, "The cat sat").is_ok();
//!     let found = match engine.query(rt, alloc, pass, "CAT -dog") {
//!         Ok(ids) => ids.as_slice().contains(&id),
//!         Err(_) => false,
//!     };
//!     // Of the documents that have the word, the ten that were added last.
//!     match engine.newest(rt, alloc, pass, 10, Search::Words("cat")) {
//!         Ok(newest) => put && found && newest.ids.as_slice().contains(&id),
//!         Err(_) => false,
//!     }
//! }
//! ```
//!
//! This program is a proved test (`example.rt` of the crate `engine_tests`); docs/library.md has it whole, with its `main`, and a
//! table of the calls.
//!
//! A program that uses an index by itself may have a `Solo`: an engine with one pass, which makes the same calls without a lock. It needs
//! neither a name nor the runtime.
//!
//! What a user should know:
//!
//! - An engine has as many passes as its configuration says, at most 64. A pass makes one call at a time; a find that is open
//!   (`begin_find`, `finish_find`) has its pass, and may be ended on another thread than that which began it.
//! - The calls that make events wait for the lock. No column is written, no slice is scanned and none is cleared under it. A find
//!   verifies its candidates there in turns, each of which ends after 4,096 look-ups, or with the document at which it has looked
//!   for 256 words; where a query looks for more than words, each document counts as 8 words at least. It sorts its answer
//!   afterwards. What else is done there takes the longer the more there is of it: a journal copies its commits, an add that is
//!   refused as full looks through the slices, and one that moves a document copies it. `Blank::new`, `open`, `read_tuning`, `note`,
//!   `meet` and `close` wait for nobody, and no call of a `Solo` does.
//! - `use_engine`, `share_engine`, `Blank::new`, `open`, `add`, `put`, `find` and `query` (and their `.._by`), `get`, `count`, `newest`,
//!   `oldest`, `begin_find`, `finish_find`, `journal`, `read_tuning` and `retune` take memory, and answer so where there is none; the others take none.
//! - A deleted document keeps its column until all columns of its slice are done with, and the slice is cleared. So one live
//!   document keeps its whole slice, unless the configuration has a `reserve`, for which adds move documents.
//! - The text and the words of a deleted, replaced or moved document are dropped by the call, when the lock is free again, unless an open
//!   find may ask for them: one that began after the document came and before it left. Then they wait for such finds to end, and calls after
//!   that drop up to 64 of them each, in one more turn of the lock.
//! - `AddFault::Full` tells what keeps documents out of each slice. It may pass without a delete: where another pass writes a column or
//!   has a find open, an add that is made again later may find room. Where one clears a slice, an add waits for it before it is refused,
//!   as often as there are passes.
//! - A put of a live number replaces its document by one event, so no find misses it. The journal tells it as an add of a number that is
//!   live: who follows a journal replaces.
//! - The journal keeps the last `commits` of the configuration. A reader that comes later is told how many are no longer kept.
#![tactic(auto)]

mod adding;
mod blank;
mod client;
mod closed;
mod doubt;
mod engine;
mod engine_pool;
mod finding;
mod getting;
pub mod laws;
mod locked;
mod lone;
mod moving;
mod open_find;
mod pass;
mod putting;
mod querying;
mod reading;
mod retuning;
mod scanning;
mod search;
mod solo;
mod taking;
mod turns;
mod using;
mod work;

pub use blank::Blank;
pub use client::Client;
pub use closed::Closed;
pub use column_writer::write_column;
pub use commit_desk::{AddFault, DeleteFault, FindFault, JournalFault, Put, Spent};
pub use document_store::Doc;
pub use engine::Engine;
pub use funnel_model::{
    Block, Blocked, Candidates, Claim, ClearJob, Commit, Commits, Config, Ids, Listed, Memory,
    Stats, Text, WordSet,
};
pub use funnel_stats::{ConfigFault, parse_config};
pub use getting::GetFault;
pub use line_proto::Search;
pub use open_find::OpenFind;
pub use pass::{Note, Pass};
pub use putting::PutFault;
pub use querying::{SearchFault, SomeFound};
pub use rank_matcher::{Hits, scan_search};
pub use retuning::TuneFault;
pub use row_layout::{Bits, Layout, Plan, SearchPlan};
pub use row_read::Shared;
pub use slice_recycler::{Clearer, Recycled, clear_slice};
pub use slice_rule::{PassSeat, Pool, PoolName};
pub use solo::Solo;
pub use using::{ShareEngine, UseEngine, share_engine, use_engine};
pub use work::{Direct, Work};
