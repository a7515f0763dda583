//! Tables of calls, each with what it has to be answered.
use crate::caller::{Caller, Refused, has};
use crate::hooked::{Hook, Hooked};
use crate::setting::Case;
use engine::{DeleteFault, JournalFault, PoolName, Recycled};
use funnel_model::Commit;
use std::sync::Wait;

/// A call, or one after another, and how they are answered. Numbers from one up to another are in order.
pub(crate) enum Step {
    Add(u64, &'static str, Result<u64, Refused>),
    /// Adds of documents with these numbers and the word `x`, by the places after this one.
    AddAll((u64, u64), u64),
    Delete(u64, Result<u64, DeleteFault>),
    /// Deletes of documents with these numbers, by the places after this one.
    DeleteAll((u64, u64), u64),
    /// A find that has these numbers.
    Find(&'static str, &'static [u64]),
    /// A find that has the numbers from one up to another.
    FindAll(&'static str, (u64, u64)),
    Recycle(Recycled),
    /// A journal from this place on that has these commits.
    Journal(u64, &'static [Commit]),
    /// A journal from this place on that has the adds of these numbers.
    JournalAdds(u64, (u64, u64)),
    /// A journal from this place on, so many of whose commits are no longer kept.
    Trimmed(u64, u64),
}

/// Whether the pass is answered as the step says.
fn is_answered<N: PoolName, R: Wait>(caller: &mut Caller<'_, N, R>, step: &Step) -> bool {
    match step {
        Step::Add(id, text, told) => caller.add(*id, text) == *told,
        Step::AddAll(ids, before) => caller.add_all(*ids, *before),
        Step::Delete(id, told) => caller.delete(*id) == *told,
        Step::DeleteAll(ids, before) => caller.delete_all(*ids, *before),
        Step::Find(query, ids) => finds(caller, query, ids),
        Step::FindAll(query, ids) => caller.finds(query, *ids),
        Step::Recycle(told) => caller.recycle() == *told,
        Step::Journal(from, commits) => tells(caller, *from, commits),
        Step::JournalAdds(from, ids) => tells_adds(caller, *from, *ids),
        Step::Trimmed(from, base) => is_trimmed(caller, *from, *base),
    }
}

fn finds<N: PoolName, R: Wait>(caller: &mut Caller<'_, N, R>, query: &str, ids: &[u64]) -> bool {
    match caller.find(query) {
        Ok(found) => found.as_slice() == ids,
        Err(_) => false,
    }
}

fn tells<N: PoolName, R: Wait>(
    caller: &mut Caller<'_, N, R>,
    from: u64,
    commits: &[Commit],
) -> bool {
    match caller.journal(from) {
        Ok(told) => told.as_slice() == commits,
        Err(_) => false,
    }
}

fn tells_adds<N: PoolName, R: Wait>(
    caller: &mut Caller<'_, N, R>,
    from: u64,
    ids: (u64, u64),
) -> bool {
    match caller.journal(from) {
        Ok(told) => are_adds(told.as_slice(), ids),
        Err(_) => false,
    }
}

/// Whether these are the adds of the numbers from the first up to the second, in order.
fn are_adds(commits: &[Commit], ids: (u64, u64)) -> bool {
    let mut next = ids.0;
    for commit in commits {
        if !commit.add || commit.id != next {
            return false;
        }
        next = next.wrapping_add(1);
    }
    next == ids.1
}

fn is_trimmed<N: PoolName, R: Wait>(caller: &mut Caller<'_, N, R>, from: u64, base: u64) -> bool {
    match caller.journal(from) {
        Ok(_) => false,
        Err(fault) => fault == JournalFault::Trimmed(base),
    }
}

/// Whether the pass is answered as each step says.
pub(crate) fn plays<N: PoolName, R: Wait>(caller: &mut Caller<'_, N, R>, steps: &[Step]) -> bool {
    let mut as_wanted = true;
    for step in steps {
        as_wanted = as_wanted && is_answered(caller, step);
    }
    as_wanted
}

/// Steps of one pass.
pub(crate) struct Alone(pub &'static [Step]);

impl Case for Alone {
    fn holds<N: PoolName, R: Wait>(
        &self,
        caller: &mut Caller<'_, N, R>,
        _: &mut Vec<Caller<'_, N, R>>,
    ) -> bool {
        plays(caller, self.0)
    }
}

/// Steps of two passes in turns.
pub(crate) struct InTurns(pub &'static [Step]);

impl Case for InTurns {
    fn holds<N: PoolName, R: Wait>(
        &self,
        caller: &mut Caller<'_, N, R>,
        others: &mut Vec<Caller<'_, N, R>>,
    ) -> bool {
        match others.first_mut() {
            Some(other) => play_in_turns(caller, other, self.0),
            None => false,
        }
    }
}

fn play_in_turns<N: PoolName, R: Wait>(
    caller: &mut Caller<'_, N, R>,
    other: &mut Caller<'_, N, R>,
    steps: &[Step],
) -> bool {
    let mut as_wanted = true;
    let mut is_own = false;
    for step in steps {
        is_own = !is_own;
        as_wanted = as_wanted
            && if is_own {
                is_answered(caller, step)
            } else {
                is_answered(other, step)
            };
    }
    as_wanted
}

/// Steps of the last pass before a find of `x` by pass 0, beside it, and after it. The find has the numbers from one up to another.
pub(crate) struct BesideFind {
    pub before: &'static [Step],
    pub beside: &'static [Step],
    pub found: (u64, u64),
    pub after: &'static [Step],
}

impl Case for BesideFind {
    fn holds<N: PoolName, R: Wait>(
        &self,
        caller: &mut Caller<'_, N, R>,
        others: &mut Vec<Caller<'_, N, R>>,
    ) -> bool {
        let Some(other) = others.pop() else {
            return false;
        };
        plays(caller, self.before) && play_beside(caller, other, self) && plays(caller, self.after)
    }
}

fn play_beside<N: PoolName, R: Wait>(
    caller: &mut Caller<'_, N, R>,
    other: Caller<'_, N, R>,
    steps: &BesideFind,
) -> bool {
    let find = other.begin("x");
    let beside = plays(caller, steps.beside);
    has(find, steps.found) && beside
}

/// Steps of the last pass before an add, of pass 0 before the first column is written for it, and of the last pass after it.
pub(crate) struct Meanwhile {
    pub before: &'static [Step],
    pub add: (u64, &'static str, Result<u64, Refused>),
    pub meanwhile: &'static [Step],
    pub after: &'static [Step],
}

impl Case for Meanwhile {
    fn holds<N: PoolName, R: Wait>(
        &self,
        caller: &mut Caller<'_, N, R>,
        others: &mut Vec<Caller<'_, N, R>>,
    ) -> bool {
        let Some(other) = others.pop() else {
            return false;
        };
        plays(caller, self.before)
            && add_meanwhile(caller, other, self)
            && plays(caller, self.after)
    }
}

fn add_meanwhile<N: PoolName, R: Wait>(
    caller: &mut Caller<'_, N, R>,
    other: Caller<'_, N, R>,
    steps: &Meanwhile,
) -> bool {
    let hook = Interrupted {
        other,
        steps: steps.meanwhile,
        as_wanted: None,
    };
    let mut work = Hooked { hook };
    let (id, text, told) = steps.add;
    let added = caller.add_by(id, text, &mut work) == told;
    added && work.hook.as_wanted == Some(true)
}

/// Has another pass make its steps before a column is written first.
#[derive(Drop)]
struct Interrupted<'e, N: PoolName, R: Wait> {
    other: Caller<'e, N, R>,
    steps: &'static [Step],
    /// Whether it was answered as they say, once it was.
    as_wanted: Option<bool>,
}

impl<'e, N: PoolName, R: Wait> Hook for Interrupted<'e, N, R> {
    fn clears(&mut self) {}

    fn writes(&mut self) {
        if self.as_wanted.is_none() {
            self.as_wanted = Some(plays(&mut self.other, self.steps));
        }
    }

    fn scans(&mut self) {}

    fn scanned(&mut self, _: &[(u32, u32)]) {}
}
