//! The meeting of the workers of a load after a part.
ghost use Rattle.std.specs.Prelude.{◌≡◌, ◌-◌, ◌<◌, ◌≤◌, ℕ, length};
ghost use Rattle.funnel_server.specs.Parts.{LoadersHaveMet, LastHasMet, MetLast};

use crate::loader::Loader;
use engine::{Engine, PoolName};
use std::sync::Wait;

/// Each worker sees what every one has seen. No thread runs, and no memory is taken: the last one meets each other one, and
/// then each other one meets the last.
pub(crate) fn meet_all<N: PoolName, R: Wait>(engine: &Engine<N>, loaders: &mut [Loader<'_, N, R>])
    requires some { 1 ≤ length loaders.old }
    ensures { LoadersHaveMet loaders.old loaders.new }
{
    meet_others(engine, loaders);
    meet_last(engine, loaders);
}

/// The last one sees what each other one has seen.
fn meet_others<N: PoolName, R: Wait>(engine: &Engine<N>, loaders: &mut [Loader<'_, N, R>])
    requires some { 1 ≤ length loaders.old }
    ensures { LastHasMet (length loaders.old - 1) (length loaders.old - 1) loaders.old loaders.new }
{
    let last = loaders.len() - 1;
    for place in 0..last {
        let note = loaders[place].note(engine);
        loaders[last].meet(engine, note);
    }
}

/// Each other one sees what the last one has seen.
fn meet_last<N: PoolName, R: Wait>(engine: &Engine<N>, loaders: &mut [Loader<'_, N, R>])
    requires some { 1 ≤ length loaders.old }
    ensures { MetLast (length loaders.old - 1) (length loaders.old - 1) loaders.old loaders.new }
{
    let last = loaders.len() - 1;
    for place in 0..last {
        let note = loaders[last].note(engine);
        loaders[place].meet(engine, note);
    }
}
