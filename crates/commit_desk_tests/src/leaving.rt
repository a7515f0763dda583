//! Documents that leave their columns.
ghost use Rattle.std.specs.Prelude.{◌≡◌, []};

use crate::caller::Caller;
use crate::setting::{Case, Setting, Two, run};
use commit_desk::Gone;
use document_store::Doc;
use slice_rule::PoolName;
use std::test::*;

impl<N: PoolName> Setting<N> {
    /// Deletes the document with this number, which comes back unless an open find may ask for it.
    pub fn delete_from(&mut self, caller: &mut Caller<N>, id: u64) -> Option<Doc> {
        let did = self.desk.delete(&self.pool, &mut caller.seat, id);
        let (_, old) = did;
        old
    }

    /// Frees some of the documents that wait for it, and tells whether there were such, and whether there still are.
    pub fn free(&mut self, gone: &mut Gone) -> (bool, bool)
        requires { gone.old ≡ [] }
        ensures { gone.new ≡ [] }
    {
        let before = self.desk.has_to_free();
        self.desk.free_some(gone);
        gone.drop_all();
        (before, self.desk.has_to_free())
    }
}

/// A document for which no find may ask comes back from its delete. One for which a find may ask is kept until that ends, and is to be
/// freed then.
#[test]
fn a_document_goes_once_no_find_may_ask_for_it(rt: HostRuntime) -> Result<(), Fail> {
    let ((back, during, after, late), _) = run::<Beside, _>(&rt, rt.alloc(), 1 << 62)?;
    assert_eq!(rt; back, [Some(5), None, None]);
    assert_eq!(rt; during, (false, false));
    assert_eq!(rt; after, (true, false));
    assert_eq!(rt; late, Some(8));
    Ok(())
}

/// The number of the document, where one comes back.
fn number(doc: Option<Doc>) -> Option<u64> {
    match doc {
        Some(doc) => Some(doc.id()),
        None => None,
    }
}

struct Beside;

impl Case for Beside {
    type Seen = ([Option<u64>; 3], (bool, bool), (bool, bool), Option<u64>);

    fn run<N: PoolName>(setting: &mut Setting<N>, passes: Two<N>) -> Result<Self::Seen, Fail> {
        let (first, second) = passes;
        let mut gone = Gone::new(setting.alloc)?;
        let (mut second, _) = setting.fill(second, (60, 5), 0);
        let alone = number(setting.delete_from(&mut second, 5));
        let finding = setting.begin(first)?;
        let asked = number(setting.delete_from(&mut second, 6));
        let asked_too = number(setting.delete_from(&mut second, 7));
        let during = setting.free(&mut gone);
        let _ = setting.drop_find(finding);
        let after = setting.free(&mut gone);
        let late = number(setting.delete_from(&mut second, 8));
        Ok(([alone, asked, asked_too], during, after, late))
    }
}
