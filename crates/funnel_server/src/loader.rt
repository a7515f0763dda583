//! A worker of a load.
ghost use Rattle.std.specs.Prelude.{◌≡◌, ◌<◌, ℕ, slice_index_or};
ghost use Rattle.load_gen.specs.Jobs.{adds_of, deletes_of};
ghost use Rattle.funnel_server.specs.Parts.{EndsDeletes, EndsLastPart, EndsPart, Meets};

use crate::share::{add_share, delete_share, find_share};
use engine::{Client, Engine, Note, PoolName};
use load_gen::Load;
use std::marker::Model;
use std::sync::Wait;

/// What puts one share of a load to an engine, by a pass of its own.
#[derive(Drop)]
pub(crate) struct Loader<'a, N: PoolName, R: Wait> {
    pub(crate) client: Client<'a, N, R>,
    /// The results of its queries, each at the place of the query.
    pub(crate) results: [(u64, u64); 8],
    /// Whether its adds, or its queries where it came to them, ended early for want of memory.
    pub(crate) stopped: bool,
}

impl<'a, N: PoolName, R: Wait> Model for Loader<'a, N, R> {
    ghost use Rattle.funnel_server.specs.Parts.{LoaderState};
    ghost use Rattle.std.specs.Coded.{codes};
    ghost use Rattle.funnel_model.specs.contracts.expr.Expr as expr;

    ghost Value = { LoaderState };

    ghost coded = { Prim.hlevel (codes, expr.the_row.coded) };

    ghost view = { λ l. record {
      pass = l.client;
      results = l.results;
      stopped = l.stopped;
    } };
}

impl<'a, N: PoolName, R: Wait> Loader<'a, N, R> {
    /// Adds its documents.
    pub(crate) fn add(&mut self, load: &Load, workers: u32, worker: u32)
        requires one_of_them { worker < workers }
        ensures { EndsPart N.pool.config N.pool.limits (adds_of load.now workers worker) self.old self.new }
    {
        let alloc = self.client.alloc;
        self.stopped = match add_share(alloc, &mut self.client, load, workers, worker) {
            Ok(()) => false,
            Err(_) => true,
        };
    }

    /// Deletes those of its documents that are to be deleted.
    pub(crate) fn delete(&mut self, load: &Load, workers: u32, worker: u32)
        requires one_of_them { worker < workers }
        ensures { EndsDeletes N.pool.config N.pool.limits (deletes_of load.now workers worker) self.old self.new }
    {
        delete_share(&mut self.client, load, workers, worker);
    }

    /// Runs its queries, and keeps their results.
    pub(crate) fn find(&mut self, workers: u32, worker: u32)
        requires one_of_them { worker < workers }
        ensures { EndsLastPart N.pool.config N.pool.limits workers worker self.old self.new }
    {
        self.stopped = match find_share(&mut self.client, workers, worker, &mut self.results) {
            Ok(()) => false,
            Err(_) => true,
        };
    }

    /// What its pass has seen, for others to meet.
    pub(crate) fn note(&mut self, engine: &Engine<N>) -> Note<N>
        ensures same { self.new ≡ self.old }
        ensures front { result ≡ self.old.pass.front }
    {
        engine.note(&mut self.client.pass)
    }

    /// Its pass sees what the note has seen.
    pub(crate) fn meet(&mut self, engine: &Engine<N>, note: Note<N>)
        ensures { Meets note self.old self.new }
    {
        engine.meet(&mut self.client.pass, note);
    }

    /// What it has for the result of the query at this place.
    pub(crate) fn result(&self, place: usize) -> (u64, u64)
        requires { place < 8 }
        ensures { result ≡ slice_index_or self.now.results place (0, 0) }
    {
        self.results[place]
    }
}
