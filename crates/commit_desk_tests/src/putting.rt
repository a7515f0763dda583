//! Puts, and what is read after them.
use crate::caller::{Caller, Claiming};
use crate::setting::{Case, Setting, Two, run};
use commit_desk::{AddFault, Put, Spent, TextRead};
use document_store::Found;
use funnel_model::{Commit, Stats};
use slice_rule::PoolName;
use std::test::*;

/// The column of a put, and what it did. None where it is refused.
type Putting = Option<(u32, Put)>;

impl<N: PoolName> Setting<N> {
    /// Claims a column for a document that is put, with another text than an add has.
    fn claim_put(
        &mut self,
        caller: Caller<N>,
        id: u64,
    ) -> Result<Claiming<N>, (Caller<N>, AddFault)> {
        let Ok(draft) = self.draft_put(id) else {
            return Err((caller, AddFault::Memory));
        };
        self.claim_for(caller, draft, true)
    }

    /// Puts a document with this number.
    fn put(&mut self, caller: Caller<N>, id: u64) -> (Caller<N>, Putting) {
        match self.claim_put(caller, id) {
            Ok(claiming) => {
                let written = self.write(claiming);
                let (_, column) = written.at();
                let (caller, did) = self.replace(written);
                (caller, Some((column, did)))
            }
            Err((caller, _)) => (caller, None),
        }
    }

    /// What a get is told, and whether the text is that of a put.
    fn get(&mut self, caller: &mut Caller<N>, id: u64) -> Option<(TextRead, bool)> {
        let Ok(mut room) = String::with_capacity(self.alloc, 3) else {
            return None;
        };
        let read = self.read_text(caller, id, &mut room);
        Some((read, room.as_str() == "dog"))
    }
}

/// A put takes the place of the live document with its number, and else adds one. The new text is read, the document is found once, and
/// the column of the old one is not free.
#[test]
fn a_put_takes_the_place_of_a_live_document(rt: HostRuntime) -> Result<(), Fail> {
    let ((puts, read, stats, live), kept) = run::<Replacing, _>(&rt, rt.alloc(), 1 << 62)?;
    assert_eq!(rt;
        puts,
        (Some((1, Put::Replaced(2))), Some((2, Put::Added(3))))
    );
    assert_eq!(rt; read, Some((TextRead::Read(2), true)));
    assert_eq!(rt; stats, Ok(THREE_CLAIMED));
    assert_eq!(rt; live.as_slice(), [(2, 4), (3, 7)].as_slice());
    let wanted = [added(4), added(4), added(7)];
    assert_eq!(rt; kept.as_slice(), wanted.as_slice());
    Ok(())
}

fn added(id: u64) -> Commit {
    Commit { add: true, id }
}

/// Two documents are live, in two of three columns that were claimed.
const THREE_CLAIMED: Stats = Stats {
    documents: 2,
    place: 3,
    base: 0,
    columns: 64,
    free: 61,
    retired: 0,
    finds: 0,
};

struct Replacing;

impl Case for Replacing {
    type Seen = (
        (Putting, Putting),
        Option<(TextRead, bool)>,
        Result<Stats, Spent>,
        Found,
    );

    fn run<N: PoolName>(setting: &mut Setting<N>, passes: Two<N>) -> Result<Self::Seen, Fail> {
        let (first, _) = passes;
        let (first, _) = setting.add(first, 4);
        let (first, over_live) = setting.put(first, 4);
        let (mut first, over_none) = setting.put(first, 7);
        let read = setting.get(&mut first, 4);
        let stats = setting.stats(&mut first);
        let (_, _, live) = setting.find_all(first)?;
        Ok(((over_live, over_none), read, stats, live))
    }
}
