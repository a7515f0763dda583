//! Two passes that look at one document, to move it.
use crate::caller::{Caller, Looked, Moving};
use crate::setting::{Case, Setting, Two, run_two};
use commit_desk::{EndedMove, NotTaken, TakenMove};
use row_layout::Bits;
use slice_rule::PoolName;
use std::test::*;

/// What a pass looked at, and whether the document was moved. None where no column was claimed.
pub(crate) type Moved = ((u32, u32), Option<bool>);

impl<N: PoolName> Looked<N> {
    fn at(&self) -> (u32, u32) {
        (self.look.slice, self.look.column)
    }
}

/// Drops the document of a look that is over.
fn drop_document(fault: NotTaken) {
    match fault {
        NotTaken::NoColumn(doc) | NotTaken::Memory(doc) => drop(doc),
    }
}

impl<N: PoolName> Setting<N> {
    /// Looks at the next document that is to be moved, where 65 columns are to be kept free.
    pub fn look(&mut self, caller: Caller<N>) -> Result<Looked<N>, Caller<N>> {
        let Caller { mut seat, of } = caller;
        let Ok(Some(look)) = self.desk.look(
            self.alloc,
            &self.pool,
            &mut seat,
            &mut self.looks,
            65,
            false,
            500,
        )
        else {
            return Err(Caller { seat, of });
        };
        match Bits::for_words(self.alloc, look.doc.words()) {
            Ok(bits) => Ok(Looked {
                seat,
                look,
                bits,
                of,
            }),
            Err(_) => {
                drop(self.looks.end(look));
                Err(Caller { seat, of })
            }
        }
    }

    /// Ends a look without a move.
    pub fn drop_look(&mut self, looked: Looked<N>) -> Caller<N> {
        let Looked {
            seat,
            look,
            bits: _,
            of,
        } = looked;
        drop(self.looks.end(look));
        Caller { seat, of }
    }

    /// Claims a column for the document, and moves it.
    pub fn move_looked(&mut self, looked: Looked<N>) -> (Caller<N>, Option<bool>) {
        match self.take_move(looked) {
            Ok(moving) => {
                let (caller, moved) = self.end_move(moving);
                (caller, Some(moved))
            }
            Err(caller) => (caller, None),
        }
    }

    fn take_move(&mut self, looked: Looked<N>) -> Result<Moving<N>, Caller<N>> {
        let Looked {
            mut seat,
            look,
            bits,
            of,
        } = looked;
        match self
            .desk
            .take_move(&self.pool, &mut seat, &mut self.looks, look)
        {
            Ok(taken) => Ok(Moving {
                seat,
                taken,
                bits,
                of,
            }),
            Err(fault) => {
                drop_document(fault);
                Err(Caller { seat, of })
            }
        }
    }

    fn end_move(&mut self, moving: Moving<N>) -> (Caller<N>, bool) {
        let Moving {
            mut seat,
            taken,
            mut bits,
            of,
        } = moving;
        let TakenMove {
            claim,
            look,
            layout,
        } = taken;
        self.set_bits(&mut seat, &claim, &layout, look.doc.words(), &mut bits);
        let ended = self
            .desk
            .end_move(&self.pool, &mut seat, &mut self.looks, claim, look, &bits);
        (Caller { seat, of }, is_moved(ended))
    }

    /// Two passes look at the next document. Then the first moves it, and after that the second would.
    pub fn look_both(&mut self, first: Caller<N>, second: Caller<N>) -> Option<(Moved, Moved)> {
        let Ok(early) = self.look(first) else {
            return None;
        };
        let Ok(late) = self.look(second) else {
            self.drop_look(early);
            return None;
        };
        let (one, other) = (early.at(), late.at());
        let (_, moved) = self.move_looked(early);
        let (_, again) = self.move_looked(late);
        Some(((one, moved), (other, again)))
    }
}

/// The last live document of a filled slice is looked at by two passes. The first moves it. The second finds it gone, and takes no column.
#[test]
fn a_document_that_was_moved_takes_no_second_column(rt: HostRuntime) -> Result<(), Fail> {
    let ((filled, emptied, seen), _) = run_two::<LastDocument, _>(&rt, rt.alloc())?;
    assert_eq!(rt; (filled, emptied), (true, true));
    assert_eq!(rt; seen, Some((((0, 0), Some(true)), ((0, 0), None))));
    Ok(())
}

struct LastDocument;

impl Case for LastDocument {
    type Seen = (bool, bool, Option<(Moved, Moved)>);

    fn run<N: PoolName>(setting: &mut Setting<N>, passes: Two<N>) -> Result<Self::Seen, Fail> {
        let (first, second) = passes;
        let (mut first, filled) = setting.fill(first, (0, 1), 0);
        let emptied = setting.empty(&mut first, (1, 2), 64);
        Ok((filled, emptied, setting.look_both(first, second)))
    }
}

fn is_moved(ended: EndedMove) -> bool {
    match ended {
        EndedMove::Moved(_) => true,
        EndedMove::Void(_) => false,
    }
}
