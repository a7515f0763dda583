//! Moves: an add or a put first moves documents out of the slice that is to be emptied. Each call of the desk is a turn of its own.
ghost use Rattle.std.specs.Prelude.{◌≡◌};
ghost use Rattle.commit_desk.specs.Passes.{IsResting};
ghost use Rattle.engine.specs.Moves.{EndsMove, MovesAll};

use crate::engine_pool::EnginePool;
use crate::turns::Turns;
use crate::work::Work;
use commit_desk::{NotTaken, TakenMove};
use funnel_model::{MOST_MOVES, Memory};
use row_layout::Bits;
use slice_rule::PassSeat;
use std::alloc::Global;

impl EnginePool {
    // Moves documents before one with this number is added, or put where it replaces, until none is to be moved, or `MOST_MOVES` were.
    pub(crate) fn move_some<T: Turns, W: Work>(
        &self,
        turns: &mut T,
        alloc: Global,
        pass: &mut PassSeat,
        replaces: bool,
        id: u64,
        work: &mut W,
    )
        requires at { T.made_at turns.old ≡ self.now }
        requires rests { IsResting self.now pass.old }
        ensures moves { MovesAll self.now.config self.now.limits pass.old.number replaces id pass.old.front pass.new.front }
        ensures rests { IsResting self.now pass.new }
        ensures number { pass.new.number ≡ pass.old.number }
        ensures at { T.made_at turns.new ≡ self.now }
    {
        if self.reserve == 0 {
            return;
        }
        for _ in 0..MOST_MOVES {
            match self.move_one(turns, alloc, pass, replaces, id, work) {
                Ok(true) => {}
                Ok(false) => return,
                Err(Memory) => return,
            }
        }
    }

    // Moves the next document, and tells whether there was one that is to be moved, and a column for it. The document of the old column, or the
    // copy of one that wasn't moved, is dropped when the turn is over.
    fn move_one<T: Turns, W: Work>(
        &self,
        turns: &mut T,
        alloc: Global,
        pass: &mut PassSeat,
        replaces: bool,
        id: u64,
        work: &mut W,
    ) -> Result<bool, Memory>
        requires at { T.made_at turns.old ≡ self.now }
        requires rests { IsResting self.now pass.old }
        ensures moved { EndsMove self.now.config self.now.limits pass.old.number replaces id pass.old.front pass.new.front result }
        ensures rests { IsResting self.now pass.new }
        ensures number { pass.new.number ≡ pass.old.number }
        ensures at { T.made_at turns.new ≡ self.now }
    {
        let look = match turns.look(alloc, self, pass, replaces, id) {
            Ok(Some(look)) => look,
            Ok(None) => return Ok(false),
            Err(Memory) => return Err(Memory),
        };
        let Ok(mut bits) = Bits::for_words(alloc, look.doc.words()) else {
            drop(turns.drop_look(look));
            return Err(Memory);
        };
        let taken = match turns.take_move(self, pass, look) {
            Ok(taken) => taken,
            Err(NotTaken::NoColumn(doc)) => {
                drop(doc);
                return Ok(false);
            }
            Err(NotTaken::Memory(doc)) => {
                drop(doc);
                return Err(Memory);
            }
        };
        let TakenMove {
            claim,
            look,
            layout,
        } = taken;
        self.write(pass, &claim, &layout, look.doc.words(), &mut bits, work);
        drop(turns.end_move(self, pass, claim, look, &bits));
        Ok(true)
    }
}
