ghost use Rattle.std.specs.Prelude.{◌≡◌, ◌<◌, [], ◌∷◌, ◌++◌, length, IfOk};
ghost use Rattle.commit_desk.specs.declared.gone.TheConstants.{MOST_FREED};

use document_store::Doc;
use funnel_model::Memory;
use std::alloc::Global;
use std::marker::Model;

/// A turn takes so many columns off those whose documents are to be freed at most.
pub const MOST_FREED: usize = 64;

/// Documents that have gone from the records, for their owner to drop where the desk is free. There is room for as many as a turn hands over.
/// Contracts see them.
#[derive(Debug, Drop)]
pub struct Gone {
    docs: Vec<Doc>,
}

impl Model for Gone {
    ghost use Rattle.std.specs.Prelude.{◌≤◌, List, vec_capacity};
    ghost use Rattle.document_store.specs.Documents.{Parts};
    ghost use Rattle.commit_desk.specs.declared.gone.TheConstants.{MOST_FREED};

    ghost Value = { List Parts };

    ghost view = { λ g. g.docs.items };

    ghost invariant = { λ g. MOST_FREED ≤ vec_capacity g.docs };
}

impl Gone {
    /// None. Only this takes memory.
    pub fn new(alloc: Global) -> Result<Gone, Memory>
        ensures { IfOk result (λ gone. gone ≡ []) }
    {
        Ok(Gone {
            docs: Vec::with_capacity(alloc, MOST_FREED)?,
        })
    }

    // One more.
    pub(crate) fn push(&mut self, doc: Doc)
        requires { length self.old < MOST_FREED }
        ensures { self.new ≡ self.old ++ doc ∷ [] }
    {
        self.docs.push_reserved(doc);
    }

    /// Drops them.
    pub fn drop_all(&mut self)
        ensures { self.new ≡ [] }
    {
        self.docs.clear();
    }
}
