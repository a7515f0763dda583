//! A slice that is full.
use crate::caller::Caller;
use crate::setting::{Case, Setting, Two, run};
use commit_desk::{AddFault, ClearRefusal, CommitFault};
use funnel_model::Block;
use slice_rule::PoolName;
use std::test::*;

impl<N: PoolName> Setting<N> {
    /// Adds documents to the columns from this one on, up to the last of the slice. Their numbers rise from the second of the
    /// pair. Whether each got its column and the next of the places after `before`.
    pub fn fill(
        &mut self,
        mut caller: Caller<N>,
        from: (u32, u64),
        before: u64,
    ) -> (Caller<N>, bool) {
        let mut right = true;
        let (first, mut id) = from;
        let mut place = before;
        for column in first..64 {
            place = place.wrapping_add(1);
            let (next, added) = self.add(caller, id);
            caller = next;
            right = right && added == Some((column, place, false));
            id = id.wrapping_add(1);
        }
        (caller, right)
    }

    /// Deletes these documents. Whether each got the next of the places after `before`.
    pub fn empty(&mut self, caller: &mut Caller<N>, from: (u32, u64), before: u64) -> bool {
        let mut right = true;
        let (first, mut id) = from;
        let mut place = before;
        for _column in first..64 {
            place = place.wrapping_add(1);
            right = self.delete(caller, id) == Ok(place) && right;
            id = id.wrapping_add(1);
        }
        right
    }

    /// What keeps a document out of the one slice, where its add is refused for want of room.
    pub fn block(&mut self, caller: Caller<N>) -> (Caller<N>, Option<Block>) {
        match self.claim(caller, 500) {
            Ok(claiming) => {
                let written = self.write(claiming);
                (self.commit(written).0, None)
            }
            Err((caller, fault)) => (caller, only_block(&fault)),
        }
    }

    /// Clears a slice as a recycle does: its number.
    pub fn recycle(&mut self, caller: Caller<N>) -> (Caller<N>, Result<u32, ClearRefusal>) {
        match self.start(caller) {
            Ok(clearing) => {
                let (caller, slice) = self.open(clearing);
                (caller, Ok(slice))
            }
            Err((caller, refusal)) => (caller, Err(refusal)),
        }
    }
}

/// What keeps a document out, where it is want of room and one slice is told.
fn only_block(fault: &AddFault) -> Option<Block> {
    let AddFault::Full(blocks) = fault else {
        return None;
    };
    match blocks.as_slice() {
        [block] => Some(*block),
        _ => None,
    }
}

/// A column that a pass holds keeps documents out, even while all others are deleted.
#[test]
fn a_pending_column_keeps_documents_out(rt: HostRuntime) -> Result<(), Fail> {
    let ((kept_out, placed), _) = run::<Pending, _>(&rt, rt.alloc(), 1 << 62)?;
    let pending = Some(Block::Pending { column: 0, pass: 0 });
    assert_eq!(rt; kept_out, (true, pending, true, pending));
    assert_eq!(rt; placed, Ok(127));
    Ok(())
}

struct Pending;

impl Case for Pending {
    type Seen = (
        (bool, Option<Block>, bool, Option<Block>),
        Result<u64, CommitFault>,
    );

    fn run<N: PoolName>(setting: &mut Setting<N>, passes: Two<N>) -> Result<Self::Seen, Fail> {
        let (first, second) = passes;
        let Ok(claiming) = setting.claim(first, 1) else {
            return Err(Fail::new("a column"));
        };
        let (second, filled) = setting.fill(second, (1, 2), 0);
        let (mut second, full) = setting.block(second);
        let emptied = setting.empty(&mut second, (1, 2), 63);
        let (_, still) = setting.block(second);
        let written = setting.write(claiming);
        let (_, placed) = setting.commit(written);
        Ok(((filled, full, emptied, still), placed))
    }
}
