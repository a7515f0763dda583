//! An engine that is given other statistics.
ghost use Rattle.std.specs.Prelude.{◌≤◌};
ghost use Rattle.funnel_model.specs.Configuration.{IsInRange, IsTuning};
ghost use Rattle.funnel_model.specs.declared.config.TheConstants.{MOST_TAIL};

use crate::adding::Added;
use crate::caller::Caller;
use crate::setting::{Case, Setting, Two, no_words, run, run_two};
use commit_desk::{ClearRefusal, SharedLayout};
use document_store::Found;
use funnel_model::Config;
use row_layout::Layout;
use slice_rule::PoolName;
use std::alloc::Global;
use std::test::*;

/// The configuration with another tail and no listed word.
fn with_tail(alloc: Global, base: &Config, tail: u64) -> Config
    requires in_range { IsInRange base.now }
    requires tail { tail ≤ MOST_TAIL }
    ensures { IsTuning base.now result }
{
    Config {
        passes: base.passes,
        slices: base.slices,
        blocks: base.blocks,
        max_rank: base.max_rank,
        commits: base.commits,
        reserve: base.reserve,
        one_in: base.one_in,
        snr: base.snr,
        documents: base.documents,
        tail,
        max_rows: base.max_rows,
        private: base.private,
        words: no_words(alloc),
    }
}

/// How many tunings there were, and whether a layout was handed back that no slice had. None where there is no memory, or no call is taken
/// any more.
type Tuning = Option<(u64, bool)>;

impl<N: PoolName> Setting<N> {
    /// Tunes the engine so that a document has 5 unlisted words.
    pub fn tune(&mut self, caller: &mut Caller<N>) -> Tuning {
        let config = with_tail(self.alloc, &self.base, 5);
        let (_, room) = self.layout.slice_range(0);
        let Ok(layout) = Layout::within(self.alloc, &config, room) else {
            return None;
        };
        let Ok(shared) = SharedLayout::new(self.alloc, layout) else {
            return None;
        };
        let mut layout = Some(shared);
        let tunings = self
            .desk
            .tune(&self.pool, &mut caller.seat, &config, &mut layout)
            .ok()?;
        Some((tunings, layout.is_some()))
    }

    /// Fills the slice, deletes its documents and clears it, all after so many adds and deletes: whether the layout that it had was handed
    /// back.
    fn renew(&mut self, caller: Caller<N>, before: u64) -> Result<(Caller<N>, bool), Fail> {
        let (mut caller, filled) = self.fill(caller, (0, 1), before);
        let emptied = self.empty(&mut caller, (0, 1), before.wrapping_add(64));
        if !filled || !emptied {
            return Err(Fail::new("a slice that is retired"));
        }
        let Ok(clearing) = self.start(caller) else {
            return Err(Fail::new("a slice to clear"));
        };
        let handed_back = clearing.to_clear.old_layout.is_some();
        let (caller, _) = self.open(clearing);
        Ok((caller, handed_back))
    }
}

/// Two treatments are in use: a slice that was cleared after the tuning has the new layout, and the other one its old. A find reads each by
/// its own.
#[test]
fn slices_of_two_treatments_are_read(rt: HostRuntime) -> Result<(), Fail> {
    let ((tunings, added, turned, again, found), _) = run_two::<Tuned, _>(&rt, rt.alloc())?;
    assert_eq!(rt; tunings, (Some((1, false)), Some((2, false))));
    assert_eq!(rt; added, Some((0, 65, false)));
    assert_eq!(rt; turned, (true, Ok(0)));
    assert_eq!(rt; again, Some((0, 130, false)));
    let (old, new) = found;
    assert_eq!(rt; old.as_slice(), [(65, 65)].as_slice());
    assert_eq!(rt; new.as_slice(), [(130, 500)].as_slice());
    Ok(())
}

struct Tuned;

impl Case for Tuned {
    type Seen = (
        (Tuning, Tuning),
        Added,
        (bool, Result<u32, ClearRefusal>),
        Added,
        (Found, Found),
    );

    fn run<N: PoolName>(setting: &mut Setting<N>, passes: Two<N>) -> Result<Self::Seen, Fail> {
        let (first, mut second) = passes;
        let (first, filled) = setting.fill(first, (0, 1), 0);
        let (mut first, added) = setting.add(first, 65);
        let one = setting.tune(&mut second);
        let emptied = setting.empty(&mut first, (0, 1), 65);
        let (mut second, recycled) = setting.recycle(second);
        let (first, again) = setting.add(first, 500);
        let found = setting.find_two(first)?;
        let two = setting.tune(&mut second);
        Ok((
            (one, two),
            added,
            (filled && emptied, recycled),
            again,
            found,
        ))
    }
}

/// No slice is cleared between two tunings: the later hands the layout of the earlier back. Then one is cleared, so a third hands none
/// back.
#[test]
fn a_layout_that_no_slice_got_is_handed_back(rt: HostRuntime) -> Result<(), Fail> {
    let ((earlier, later, old, third), _) = run::<TunedTwice, _>(&rt, rt.alloc(), 1 << 62)?;
    assert_eq!(rt; (earlier, later), (Some((1, false)), Some((2, true))));
    assert_eq!(rt; (old, third), (true, Some((3, false))));
    Ok(())
}

struct TunedTwice;

impl Case for TunedTwice {
    type Seen = (Tuning, Tuning, bool, Tuning);

    fn run<N: PoolName>(setting: &mut Setting<N>, passes: Two<N>) -> Result<Self::Seen, Fail> {
        let (first, mut second) = passes;
        let earlier = setting.tune(&mut second);
        let later = setting.tune(&mut second);
        let (_, old) = setting.renew(first, 0)?;
        let third = setting.tune(&mut second);
        Ok((earlier, later, old, third))
    }
}

/// A slice that is cleared twice after a tuning gets the new layout once, and keeps it at the second time.
#[test]
fn a_slice_keeps_a_treatment_that_is_current(rt: HostRuntime) -> Result<(), Fail> {
    let ((tuned, renewed, added, found), _) = run::<ClearedTwice, _>(&rt, rt.alloc(), 1 << 62)?;
    assert_eq!(rt; tuned, Some((1, false)));
    assert_eq!(rt; renewed, (true, false));
    assert_eq!(rt; added, Some((0, 257, false)));
    assert_eq!(rt; found.as_slice(), [(257, 500)].as_slice());
    Ok(())
}

struct ClearedTwice;

impl Case for ClearedTwice {
    type Seen = (Tuning, (bool, bool), Added, Found);

    fn run<N: PoolName>(setting: &mut Setting<N>, passes: Two<N>) -> Result<Self::Seen, Fail> {
        let (first, mut second) = passes;
        let tuned = setting.tune(&mut second);
        let (first, once) = setting.renew(first, 0)?;
        let (first, twice) = setting.renew(first, 128)?;
        let (first, added) = setting.add(first, 500);
        let (_, _, found) = setting.find_all(first)?;
        Ok((tuned, (once, twice), added, found))
    }
}
