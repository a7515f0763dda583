//! Adds, and two of them of one number.
use crate::caller::{Caller, Claiming, Written};
use crate::setting::{Case, Setting, Two, run};
use commit_desk::{CommitFault, Spent};
use document_store::Found;
use funnel_model::{Commit, Commits};
use slice_rule::PoolName;
use std::test::*;

/// The column of an add, its place, and whether the slice was cleared for it. None where it is refused or dropped.
pub(crate) type Added = Option<(u32, u64, bool)>;

/// The columns of two adds, and what their commits answer.
pub(crate) type Both = (
    [(u32, u32); 2],
    Result<u64, CommitFault>,
    Result<u64, CommitFault>,
);

impl<N: PoolName> Written<N> {
    pub fn at(&self) -> (u32, u32) {
        (self.claim.slice, self.claim.column)
    }
}

impl<N: PoolName> Setting<N> {
    /// Adds a document with this number.
    pub fn add(&mut self, caller: Caller<N>, id: u64) -> (Caller<N>, Added) {
        match self.claim(caller, id) {
            Ok(claiming) => {
                let cleared = claiming.cleared;
                let written = self.write(claiming);
                let (_, column) = written.at();
                let (caller, place) = self.commit(written);
                match place {
                    Ok(place) => (caller, Some((column, place, cleared))),
                    Err(_) => (caller, None),
                }
            }
            Err((caller, _)) => (caller, None),
        }
    }

    /// Two passes claim a column for documents of number 4, write both, and commit both: the columns, and what the commits
    /// answer.
    pub fn add_both(
        &mut self,
        first: Caller<N>,
        second: Caller<N>,
    ) -> Result<(Caller<N>, Caller<N>, Both), Fail> {
        let Ok(early) = self.claim(first, 4) else {
            return Err(Fail::new("a column"));
        };
        let late = self.claim_and_write(second, 4);
        let early = self.write(early);
        let columns = early.at();
        let (first, placed) = self.commit(early);
        let Some(late) = late else {
            return Err(Fail::new("a second column"));
        };
        let columns = [columns, late.at()];
        let (second, dropped) = self.commit(late);
        Ok((first, second, (columns, placed, dropped)))
    }

    fn claim_and_write(&mut self, caller: Caller<N>, id: u64) -> Option<Written<N>> {
        match self.claim(caller, id) {
            Ok(claiming) => Some(self.write(claiming)),
            Err(_) => None,
        }
    }
}

/// Two passes add a document of one number. Both write theirs before the first commit. The later commit drops its document,
/// and all is as before it.
#[test]
fn the_later_of_two_adds_of_a_number_is_dropped(rt: HostRuntime) -> Result<(), Fail> {
    let ((both, place, live, read), kept) = run::<SameNumber, _>(&rt, rt.alloc(), 1 << 62)?;
    let wanted = [Commit { add: true, id: 4 }];
    assert_eq!(rt;
        both,
        ([(0, 0), (0, 1)], Ok(1), Err(CommitFault::Present(1)))
    );
    assert_eq!(rt; place, Ok(1));
    assert_eq!(rt; live.as_slice(), [(1, 4)].as_slice());
    assert_eq!(rt; read.as_slice(), wanted.as_slice());
    assert_eq!(rt; kept.as_slice(), wanted.as_slice());
    Ok(())
}

struct SameNumber;

impl Case for SameNumber {
    type Seen = (Both, Result<u64, Spent>, Found, Commits);

    fn run<N: PoolName>(setting: &mut Setting<N>, passes: Two<N>) -> Result<Self::Seen, Fail> {
        let (first, second) = passes;
        let (mut first, second, both) = setting.add_both(first, second)?;
        let place = setting.place(&mut first);
        let (_, _, live) = setting.find_all(second)?;
        Ok((both, place, live, setting.journal(&mut first)?))
    }
}
