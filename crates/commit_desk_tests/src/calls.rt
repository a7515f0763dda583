//! The calls of the desk, each by a pass that may make it.
ghost use Rattle.std.specs.Prelude.{◌≡◌, [], string_bytes};
ghost use Rattle.commit_desk.specs.Passes.{HasWritten, IsToWrite};
ghost use Rattle.commit_desk_tests.specs.Tested.{IsDraft};

use crate::caller::{Caller, Claiming, Clearing, Finding, Reusing, Written};
use crate::draft::Draft;
use crate::setting::Setting;
use column_writer::write_column;
use commit_desk::{
    AddFault, ClearRefusal, CommitFault, DeleteFault, FindFault, FindLayouts, JournalFault, Put,
    SharedLayout, Spent, Taken, TextRead, ToClear,
};
use funnel_model::{Claim, Commits, Stats, WordSet};
use row_layout::{Bits, fill_bits};
use slice_recycler::clear_slice;
use slice_rule::{PassSeat, PoolName};

impl<N: PoolName> Setting<N> {
    pub fn delete(&mut self, caller: &mut Caller<N>, id: u64) -> Result<u64, DeleteFault> {
        let did = self.desk.delete(&self.pool, &mut caller.seat, id);
        let (answer, old) = did;
        drop(old);
        answer
    }

    pub fn place(&mut self, caller: &mut Caller<N>) -> Result<u64, Spent> {
        self.desk.read_place(&self.pool, &mut caller.seat)
    }

    /// Copies the text of the live document with this number into the room.
    pub fn read_text(&mut self, caller: &mut Caller<N>, id: u64, room: &mut String) -> TextRead
        requires { string_bytes room.old ≡ [] }
    {
        self.desk.read_text(&self.pool, &mut caller.seat, id, room)
    }

    pub fn stats(&mut self, caller: &mut Caller<N>) -> Result<Stats, Spent> {
        self.desk.read_stats(&self.pool, &mut caller.seat)
    }

    /// The commits so far.
    pub fn journal(&mut self, caller: &mut Caller<N>) -> Result<Commits, JournalFault> {
        self.desk
            .read_journal(self.alloc, &self.pool, &mut caller.seat, 0)
    }

    /// The commits, once the desk is closed.
    pub fn into_commits(self) -> Commits {
        let Setting { desk, .. } = self;
        let (_home, _base, commits) = desk.into_parts();
        commits
    }

    /// Claims a column for a document with this number that is added. A slice that is to be cleared for it is cleared and opened first.
    pub fn claim(
        &mut self,
        caller: Caller<N>,
        id: u64,
    ) -> Result<Claiming<N>, (Caller<N>, AddFault)> {
        let Ok(draft) = self.draft(id) else {
            return Err((caller, AddFault::Memory));
        };
        self.claim_for(caller, draft, false)
    }

    /// Claims a column for the document, which is put where it `replaces`.
    pub fn claim_for(
        &mut self,
        caller: Caller<N>,
        draft: Draft<N>,
        replaces: bool,
    ) -> Result<Claiming<N>, (Caller<N>, AddFault)> {
        let Ok(room) = Vec::with_capacity(self.alloc, 2) else {
            return Err((caller, AddFault::Memory));
        };
        let mut room = Some(room);
        let Caller { mut seat, of } = caller;
        let cleared = false;
        match self.desk.take(&self.pool, &mut seat, &draft.doc, replaces, &mut room, true) {
            Taken::Claim(claim, layout) => Ok(Claiming {
                seat,
                claim,
                layout,
                draft,
                cleared,
            }),
            Taken::Clear(to_clear, layout) => {
                let reusing = Reusing {
                    seat,
                    to_clear,
                    layout,
                    of,
                };
                Ok(self.open_and_claim(reusing, draft))
            }
            Taken::Wait(_) => unreachable!(),
            Taken::Refused(fault) => Err((Caller { seat, of }, fault)),
        }
    }

    // Clears a slice for an add, opens it, and claims its first column.
    fn open_and_claim(&mut self, reusing: Reusing<N>, draft: Draft<N>) -> Claiming<N> {
        let Reusing {
            mut seat,
            to_clear,
            layout,
            of: _,
        } = reusing;
        let ToClear {
            job,
            slots,
            old_layout,
        } = to_clear;
        drop(old_layout);
        let (_, room) = self.layout.slice_range(0);
        clear_slice(&self.pool, &mut seat, room, &job);
        let claim = self
            .desk
            .opened_take(&self.pool, &mut seat, job, slots.empty());
        let cleared = true;
        Claiming {
            seat,
            claim,
            layout,
            draft,
            cleared,
        }
    }

    /// Writes the document into its column.
    pub fn write(&self, claiming: Claiming<N>) -> Written<N> {
        let _ = &self.pool;
        let Claiming {
            mut seat,
            claim,
            layout,
            draft,
            cleared: _,
        } = claiming;
        let Draft { doc, mut bits, of } = draft;
        self.set_bits(&mut seat, &claim, &layout, doc.words(), &mut bits);
        Written {
            seat,
            claim,
            doc,
            bits,
            of,
        }
    }

    /// Sets the bits of a document with these words in a column that the pass has claimed.
    pub fn set_bits(
        &self,
        seat: &mut PassSeat,
        claim: &Claim,
        layout: &SharedLayout,
        words: &WordSet,
        bits: &mut Bits,
    )
        requires claimed { IsToWrite N.pool claim.now layout.now seat.old }
        requires draft { IsDraft words.now bits.old }
        ensures written { HasWritten N.pool claim.now words.now bits.new.bits seat.new }
        ensures seat { seat.new ≡ record seat.old { own = seat.new.own } }
    {
        let _ = &self.pool;
        fill_bits(layout.layout(), words, claim.slice, claim.column, bits);
        write_column(&self.pool, seat, claim, bits);
    }

    /// Commits the document, or drops it.
    pub fn commit(&mut self, written: Written<N>) -> (Caller<N>, Result<u64, CommitFault>) {
        let Written {
            mut seat,
            claim,
            doc,
            bits,
            of,
        } = written;
        let answer = self.desk.commit(&self.pool, &mut seat, claim, doc, &bits);
        (Caller { seat, of }, answer)
    }

    /// Commits the document in the place of the live one with its number, where there is one.
    pub fn replace(&mut self, written: Written<N>) -> (Caller<N>, Put) {
        let Written {
            mut seat,
            claim,
            doc,
            bits,
            of,
        } = written;
        let put = self.desk.put(&self.pool, &mut seat, claim, doc, &bits);
        let (did, old) = put;
        drop(old);
        (Caller { seat, of }, did)
    }

    /// Begins a find of no words.
    pub fn begin(&mut self, caller: Caller<N>) -> Result<Finding<N>, FindFault> {
        let Caller { mut seat, of } = caller;
        let mut layouts = FindLayouts::new(self.alloc);
        let token = self
            .desk
            .open_find(&self.pool, &mut seat, "", &mut layouts)?;
        let Some(entry) = layouts.entries.pop() else {
            self.desk.end_find(&self.pool, &mut seat, token);
            return Err(FindFault::Memory);
        };
        Ok(Finding {
            seat,
            token,
            entry,
            layouts,
            of,
        })
    }

    /// Ends a find without its candidates.
    pub fn drop_find(&mut self, finding: Finding<N>) -> Caller<N> {
        let Finding {
            mut seat,
            token,
            entry: _,
            layouts: _,
            of,
        } = finding;
        self.desk.end_find(&self.pool, &mut seat, token);
        Caller { seat, of }
    }

    /// Begins to clear a slice for a recycle.
    pub fn start(&mut self, caller: Caller<N>) -> Result<Clearing<N>, (Caller<N>, ClearRefusal)> {
        let Caller { mut seat, of } = caller;
        match self.desk.start_clear(&self.pool, &mut seat) {
            Ok(to_clear) => Ok(Clearing { seat, to_clear, of }),
            Err(refusal) => Err((Caller { seat, of }, refusal)),
        }
    }

    /// Clears each word of the slice, empties its slots, and opens it for a recycle: its number.
    pub fn open(&mut self, clearing: Clearing<N>) -> (Caller<N>, u32) {
        let Clearing {
            mut seat,
            to_clear,
            of,
        } = clearing;
        let ToClear {
            job,
            slots,
            old_layout,
        } = to_clear;
        drop(old_layout);
        let (_, room) = self.layout.slice_range(0);
        clear_slice(&self.pool, &mut seat, room, &job);
        let slice = self.desk.opened(&self.pool, &mut seat, job, slots.empty());
        (Caller { seat, of }, slice)
    }
}
