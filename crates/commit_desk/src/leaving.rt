//! Documents that left their columns: they go where no open find may ask for them.
ghost use Rattle.std.specs.Prelude.{◌≡◌, ◌⊎◌, ◌*◌, ◌<◌, ◌^◌, true, [], ◌∷◌, ◌++◌, All, length};
ghost use Rattle.document_store.specs.Documents.{Parts};
ghost use Rattle.document_store.specs.Slots.{IsColumn, is_over, slot_at};
ghost use Rattle.commit_desk.specs.Leaving.{LetsGo, MayGo};
ghost use Rattle.commit_desk.specs.declared.gone.TheConstants.{MOST_FREED};

use crate::desk::Desk;
use crate::gone::{Gone, MOST_FREED};
use document_store::{Column, Doc, Leaving, Records};
use token_manager::Tokens;

// A column that is over, of so many in its slice: the event that had put its document there, and the one that took it off.
#[derive(Clone, Copy)]
pub(crate) struct Ended {
    pub slice: u32,
    pub column: u32,
    pub columns: u32,
    pub since: u64,
    pub until: u64,
}

impl Desk {
    /// Takes columns off those whose documents are to be freed, 64 at most. Of these it hands the documents over for which no open find may
    /// ask, to be dropped where the desk is free, and keeps each other one for the newest of the finds that may. It makes no event, and takes
    /// no memory.
    pub fn free_some(&mut self, gone: &mut Gone)
        requires { gone.old ≡ [] }
        ensures gone { All (MayGo self.old.history) gone.new }
        ensures same { self.new ≡ self.old }
    {
        let _ = &self.home;
        for _ in 0..MOST_FREED {
            if !self.free_one(gone) {
                return;
            }
        }
    }

    /// Whether columns are left whose documents are to be freed.
    pub fn has_to_free(&self) -> bool {
        self.leaving.has_more()
    }

    // Takes the first column off those whose documents are to be freed, and tells whether there was one.
    fn free_one(&mut self, gone: &mut Gone) -> bool
        requires { length gone.old < MOST_FREED }
        ensures gone { (gone.new ≡ gone.old) ⊎ ((doc : Parts) × MayGo self.old.history doc × (gone.new ≡ gone.old ++ doc ∷ [])) }
        ensures same { self.new ≡ self.old }
    {
        let _ = &self.home;
        let Some(number) = self.leaving.take_first() else {
            return false;
        };
        let columns = self.columns;
        let slice = number / columns;
        let column = number % columns;
        let Column::Over { since, until, .. } = self.records.state(slice, column) else {
            return true;
        };
        let ended = Ended {
            slice,
            column,
            columns,
            since,
            until,
        };
        let Some(doc) = let_go(&self.tokens, &mut self.leaving, &mut self.records, ended) else {
            return true;
        };
        gone.push(doc);
        true
    }
}

// The document of a column that is over goes, unless an open find may ask for it: then it is kept for the newest of these.
pub(crate) fn let_go(
    tokens: &Tokens,
    leaving: &mut Leaving,
    records: &mut Records,
    ended: Ended,
) -> Option<Doc>
    requires in_range { IsColumn records.old ended.slice ended.column }
    requires over { is_over (slot_at records.old ended.slice ended.column) ≡ true }
    requires columns { ended.columns ≡ records.old.columns }
    requires each { leaving.old.columns ≡ records.old.slices * records.old.columns }
    requires few { records.old.slices * records.old.columns < 2 ^ 32 }
    requires passes { length leaving.old.asked ≡ length tokens.now }
    ensures { LetsGo tokens.now ended.slice ended.column ended.since ended.until leaving.old leaving.new records.old records.new result }
{
    let Ended {
        slice,
        column,
        columns,
        since,
        until,
    } = ended;
    let Some(pass) = tokens.asker(since, until) else {
        return records.take_doc(slice, column);
    };
    let number = slice * columns + column;
    if leaving.has(number) {
        return None;
    }
    leaving.keep_for(pass, number);
    None
}
