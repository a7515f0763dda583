//! Gets, and the numbers of the engine.
ghost use Rattle.std.specs.Prelude.{◌≡◌, [], string_bytes};
ghost use Rattle.funnel_model.specs.declared.call.Call.TheVariants as call;
ghost use Rattle.funnel_model.specs.Legal.{IsLegal};
ghost use Rattle.commit_desk.specs.Passes.{IsResting};
ghost use Rattle.engine.specs.Gets.{GetTurn, answer_of_read};
ghost use Rattle.engine.specs.Passes.{MakesCall, view_of};
ghost use Rattle.engine.specs.Replies.{reply_of_get, reply_of_stats};
ghost use Rattle.engine.specs.Turns.{StatsTurn};

use crate::engine::Engine;
use crate::engine_pool::EnginePool;
use crate::pass::Pass;
use crate::turns::Turns;
use commit_desk::{Spent, TextRead};
use funnel_model::{Stats, Text};
use slice_rule::{PassSeat, PoolName};
use std::alloc::Global;
use std::sync::Wait;

/// Why no text was got.
#[derive(Clone, Copy, Debug, PartialEq, Eq)]
pub enum GetFault {
    /// The number is not live.
    Absent,
    /// The history has this many events, and no call is taken any more.
    Spent(u64),
    /// No memory was found for the text, or others put a longer one in its place each time that there was room for it.
    Memory,
}

impl<N: PoolName> Engine<N> {
    /// The place and the text of the live document with this number. It takes memory for a copy of the text while the lock is free: it
    /// waits for the lock to see how long the text is, and again with as much room, at most as often again as there are passes.
    pub fn get<R: Wait>(
        &self,
        rt: &R,
        alloc: Global,
        pass: &mut Pass<N>,
        id: u64,
    ) -> Result<(u64, Text), GetFault>
        ensures call { MakesCall N.pool.limits (call.Get id) (reply_of_get result) pass.old pass.new }
        ensures turn { GetTurn N.pool.limits pass.old.number id pass.old.front pass.new.front result }
    {
        let mut turns = self.locked(rt);
        self.pool.get(&mut turns, alloc, &mut pass.seat, id)
    }

    /// How full the engine is. It waits for the lock once, and takes no memory.
    pub fn stats<R: Wait>(&self, rt: &R, pass: &mut Pass<N>) -> Result<Stats, Spent>
        ensures call { MakesCall N.pool.limits call.Stats (reply_of_stats result) pass.old pass.new }
        ensures turn { StatsTurn N.pool.limits result pass.old pass.new }
    {
        let mut turns = self.locked(rt);
        self.pool.stats(&mut turns, &mut pass.seat)
    }
}

impl EnginePool {
    pub(crate) fn get<T: Turns>(
        &self,
        turns: &mut T,
        alloc: Global,
        pass: &mut PassSeat,
        id: u64,
    ) -> Result<(u64, Text), GetFault>
        requires at { T.made_at turns.old ≡ self.now }
        requires rests { IsResting self.now pass.old }
        ensures call { MakesCall self.now.limits (call.Get id) (reply_of_get result) (view_of pass.old) (view_of pass.new) }
        ensures turn { GetTurn self.now.limits pass.old.number id pass.old.front pass.new.front result }
        ensures rests { IsResting self.now pass.new }
        ensures at { T.made_at turns.new ≡ self.now }
    {
        self.read_text(turns, alloc, pass, id)
    }

    // The turns of a get, of which all but the last make no event.
    fn read_text<T: Turns>(
        &self,
        turns: &mut T,
        alloc: Global,
        pass: &mut PassSeat,
        id: u64,
    ) -> Result<(u64, Text), GetFault>
        requires at { T.made_at turns.old ≡ self.now }
        requires rests { IsResting self.now pass.old }
        ensures turn { GetTurn self.now.limits pass.old.number id pass.old.front pass.new.front result }
        ensures rests { IsResting self.now pass.new }
        ensures number { pass.new.number ≡ pass.old.number }
        ensures legal { IsLegal self.now.limits pass.new.front }
        ensures at { T.made_at turns.new ≡ self.now }
    {
        let mut room = String::new(alloc);
        for _ in 0..self.base.passes {
            match turns.look_for_text(self, pass, id, &mut room) {
                TextRead::Short(bytes) => {
                    let Ok(more) = String::with_capacity(alloc, bytes) else {
                        return Err(GetFault::Memory);
                    };
                    room = more;
                }
                read => return text_read(read, room),
            }
        }
        let read = turns.look_for_text(self, pass, id, &mut room);
        text_read(read, room)
    }
}

// What a get is answered after its last look, by the text that was copied. Where there was no room for it once more, memory is wanting.
fn text_read(read: TextRead, text: String) -> Result<(u64, Text), GetFault>
    ensures { result ≡ answer_of_read read (string_bytes text) }
{
    match read {
        TextRead::Read(place) => Ok((place, Text::new(text))),
        TextRead::Absent => Err(GetFault::Absent),
        TextRead::Short(_) => Err(GetFault::Memory),
        TextRead::Spent(events) => Err(GetFault::Spent(events)),
    }
}
