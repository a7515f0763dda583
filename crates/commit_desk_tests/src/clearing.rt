//! A slice that is cleared and used again.
use crate::adding::{Added, Both};
use crate::finding::are_in_order;
use crate::setting::{Case, Setting, Two, run};
use commit_desk::{ClearRefusal, CommitFault, DeleteFault};
use document_store::Found;
use funnel_model::Block;
use slice_rule::PoolName;
use std::test::*;

/// A slice with a dropped column is filled, and is cleared for the next add once its other documents are deleted. The dropped
/// column itself keeps nothing out.
#[test]
fn a_dropped_column_counts_when_a_slice_retires(rt: HostRuntime) -> Result<(), Fail> {
    let ((both, blocks, turned, added), _) = run::<Dropped, _>(&rt, rt.alloc(), 1 << 62)?;
    let (first, third) = (Block::Live { column: 0 }, Block::Live { column: 2 });
    assert_eq!(rt;
        both,
        ([(0, 0), (0, 1)], Ok(1), Err(CommitFault::Present(1)))
    );
    assert_eq!(rt; blocks, (Some(first), Some(third)));
    assert_eq!(rt; turned, (true, Ok(64), true));
    assert_eq!(rt; added, Some((0, 127, true)));
    Ok(())
}

/// What keeps a document out, before the document of column 0 is deleted and after that.
type Blocks = (Option<Block>, Option<Block>);

struct Dropped;

impl Case for Dropped {
    type Seen = (Both, Blocks, (bool, Result<u64, DeleteFault>, bool), Added);

    fn run<N: PoolName>(setting: &mut Setting<N>, passes: Two<N>) -> Result<Self::Seen, Fail> {
        let (first, second) = passes;
        let (first, second, both) = setting.add_both(first, second)?;
        let (mut first, filled) = setting.fill(first, (2, 101), 1);
        let (second, full) = setting.block(second);
        let deleted = setting.delete(&mut first, 4);
        let (_, still) = setting.block(second);
        let emptied = setting.empty(&mut first, (2, 101), 64);
        let (_, added) = setting.add(first, 7);
        Ok((both, (full, still), (filled, deleted, emptied), added))
    }
}

/// While a pass clears the slice, another gets no column of it and can't clear it too.
#[test]
fn a_slice_is_cleared_by_one_pass(rt: HostRuntime) -> Result<(), Fail> {
    let ((retired, refused, opened, added), _) = run::<Alone, _>(&rt, rt.alloc(), 1 << 62)?;
    let clearing = Some(Block::Clearing { pass: 0 });
    assert!(rt; retired);
    assert_eq!(rt; refused, (clearing, Err(ClearRefusal::NoneRetired)));
    assert_eq!(rt; (opened, added), (0, Some((0, 129, false))));
    Ok(())
}

/// What keeps a document out, and what a recycle is answered.
type Refused = (Option<Block>, Result<u32, ClearRefusal>);

struct Alone;

impl Case for Alone {
    type Seen = (bool, Refused, u32, Added);

    fn run<N: PoolName>(setting: &mut Setting<N>, passes: Two<N>) -> Result<Self::Seen, Fail> {
        let (first, second) = passes;
        let (mut second, filled) = setting.fill(second, (0, 1), 0);
        let emptied = setting.empty(&mut second, (0, 1), 64);
        let Ok(clearing) = setting.start(first) else {
            return Err(Fail::new("a slice to clear"));
        };
        let (second, block) = setting.block(second);
        let (_, refused) = setting.recycle(second);
        let (first, opened) = setting.open(clearing);
        let (_, added) = setting.add(first, 7);
        Ok((filled && emptied, (block, refused), opened, added))
    }
}

/// A slice of 64 columns is full, and a find gives its documents. Once all are deleted a recycle clears it, and the next add gets its first
/// column: then a find gives that document alone.
#[test]
fn a_cleared_slice_is_used_from_its_first_column(rt: HostRuntime) -> Result<(), Fail> {
    let ((before, retired, recycled, added, after), _) = run::<Again, _>(&rt, rt.alloc(), 1 << 62)?;
    assert_eq!(rt; (before.len(), are_in_order(&before)), (64, true));
    assert_eq!(rt; (retired, recycled), (true, Ok(0)));
    assert_eq!(rt; added, Some((0, 129, false)));
    assert_eq!(rt; after.as_slice(), [(129, 500)].as_slice());
    Ok(())
}

struct Again;

impl Case for Again {
    type Seen = (Found, bool, Result<u32, ClearRefusal>, Added, Found);

    fn run<N: PoolName>(setting: &mut Setting<N>, passes: Two<N>) -> Result<Self::Seen, Fail> {
        let (first, second) = passes;
        let (mut second, filled) = setting.fill(second, (0, 1), 0);
        let (first, _, before) = setting.find_all(first)?;
        let emptied = setting.empty(&mut second, (0, 1), 64);
        let (first, recycled) = setting.recycle(first);
        let (_, added) = setting.add(second, 500);
        let (_, _, after) = setting.find_all(first)?;
        Ok((before, filled && emptied, recycled, added, after))
    }
}

/// A slice that retires while a find may read it is cleared by nobody until the find ends.
#[test]
fn a_find_guards_its_slice(rt: HostRuntime) -> Result<(), Fail> {
    let ((opened_at, retired, refused, started), _) = run::<Guarded, _>(&rt, rt.alloc(), 1 << 62)?;
    let (slice, pass) = (0, 0);
    let guarded = ClearRefusal::Guarded {
        slice,
        pass,
        opened_at,
    };
    assert_eq!(rt; (opened_at, retired), (129, true));
    assert_eq!(rt;
        refused,
        (Some(Block::Guarded { pass, opened_at }), Err(guarded))
    );
    assert_eq!(rt; started, Ok(0));
    Ok(())
}

struct Guarded;

impl Case for Guarded {
    type Seen = (u64, bool, Refused, Result<u32, ClearRefusal>);

    fn run<N: PoolName>(setting: &mut Setting<N>, passes: Two<N>) -> Result<Self::Seen, Fail> {
        let (first, second) = passes;
        let (mut second, filled) = setting.fill(second, (0, 1), 0);
        let finding = setting.begin(first)?;
        let opened_at = finding.token.opened_at;
        let emptied = setting.empty(&mut second, (0, 1), 64);
        let (second, block) = setting.block(second);
        let (second, refused) = setting.recycle(second);
        let _ = setting.drop_find(finding);
        let (_, started) = setting.recycle(second);
        let retired = filled && emptied;
        Ok((opened_at, retired, (block, refused), started))
    }
}
