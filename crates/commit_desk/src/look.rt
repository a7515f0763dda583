ghost use Rattle.std.specs.Prelude.{◌≡◌, IfOk, None, Some, replicate};
ghost use Rattle.commit_desk.specs.Moving.{is_named, names, with_look};

use document_store::Doc;
use funnel_model::Memory;
use std::alloc::Global;
use std::marker::Model;

/// A document that a pass has looked at, to move it: its column, the place of its add, the number of the event that put it
/// there, and a copy of it. It must be spent, since the look that it has open must be.
#[derive(Debug)]
pub struct Look {
    pub slice: u32,
    pub column: u32,
    pub place: u64,
    pub since: u64,
    pub doc: Doc,
    pub opened: OpenLook,
}

/// That a pass has a look open. Nobody else can make one or take it apart, so it ends where the desk ends the move, or in `Looks::end`.
/// Contracts see the pass.
#[derive(Debug)]
pub struct OpenLook {
    pub(crate) pass: u32,
}

impl Model for OpenLook {
    ghost use Rattle.std.specs.Prelude.{ℕ};

    ghost Value = { ℕ };

    ghost view = { λ look. look.pass };
}

/// The column that each pass's last look names, while that is open, so that passes move documents of different columns while there are
/// some. Only `Desk::new` makes them, with their desk. They take no memory later.
#[derive(Debug, Drop)]
pub struct Looks {
    columns: Vec<Option<(u32, u32)>>,
}

impl Model for Looks {
    ghost use Rattle.commit_desk.specs.Moving.{LooksState};

    ghost Value = { LooksState };

    ghost view = { λ l. l.columns.items };
}

impl Looks {
    // No look, of so many passes.
    pub(crate) fn new(alloc: Global, passes: u32) -> Result<Looks, Memory>
        ensures { IfOk result (λ looks. looks ≡ replicate passes None) }
    {
        Ok(Looks {
            columns: vec![in alloc; None; passes as usize]?,
        })
    }

    /// Ends a look without a move, and gives its document back, for its owner to drop where the desk is free. Other passes' looks stay
    /// as they are.
    pub fn end(&mut self, look: Look) -> Doc
        ensures looks { self.new ≡ with_look self.old look.opened None }
        ensures doc { result ≡ look.doc }
    {
        let Look {
            slice: _,
            column: _,
            place: _,
            since: _,
            doc,
            opened,
        } = look;
        self.close(opened);
        doc
    }

    // The look names no column any more.
    pub(crate) fn close(&mut self, opened: OpenLook)
        ensures { self.new ≡ with_look self.old opened None }
    {
        let OpenLook { pass } = opened;
        self.forget(pass);
    }

    // The pass names no column any more.
    pub(crate) fn forget(&mut self, pass: u32)
        ensures { self.new ≡ with_look self.old pass None }
    {
        if let Some(column) = self.columns.get_mut(pass as usize) {
            *column = None;
        }
    }

    // Whether an open look names the column.
    pub(crate) fn is_named(&self, slice: u32, column: u32) -> bool
        ensures { result ≡ is_named self.now slice column }
    {
        self.columns
            .iter()
            .any(|named| names(*named, slice, column))
    }

    // The look names its column.
    pub(crate) fn name(&mut self, look: &Look)
        ensures { self.new ≡ with_look self.old look.now.opened (Some (look.now.slice, look.now.column)) }
    {
        if let Some(column) = self.columns.get_mut(look.opened.pass as usize) {
            *column = Some((look.slice, look.column));
        }
    }
}

// Whether it is this column that is named.
fn names(named: Option<(u32, u32)>, slice: u32, column: u32) -> bool
    ensures { result ≡ names slice column named }
{
    match named {
        Some((of, at)) => of == slice && at == column,
        None => false,
    }
}
