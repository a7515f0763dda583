//! What is not legal, is no reply, is no step and is not in range.
ghost use Rattle.std.specs.Prelude.{◌≡◌, ◌<◌, ◌≤◌, ◌⊎◌, ℕ, true, false, List, [], ◌∷◌, ◌++◌, length, codes};
ghost use Rattle.funnel_model.specs.Configuration.{IsInRange};
ghost use Rattle.funnel_model.specs.declared.bit_list.Bit.{Bit};
ghost use Rattle.funnel_model.specs.declared.call.Call.{Call};
ghost use Rattle.funnel_model.specs.declared.call.Call.TheVariants as call;
ghost use Rattle.funnel_model.specs.declared.config.Config.{Config};
ghost use Rattle.funnel_model.specs.declared.event.Event.{Event};
ghost use Rattle.funnel_model.specs.declared.event.Event.TheVariants as event;
ghost use Rattle.funnel_model.specs.declared.reply.Reply.{Reply};
ghost use Rattle.funnel_model.specs.declared.reply.Reply.TheVariants as reply;
ghost use Rattle.funnel_model.specs.Example.{first_added, small};
ghost use Rattle.funnel_model.specs.Legal.{IsIdle, IsLegal, Limits};
ghost use Rattle.funnel_model.specs.MoveExample.{moved};
ghost use Rattle.funnel_model.specs.History.{MovesAreCaused};
ghost use Rattle.funnel_model.specs.PutExample.{replaced};
ghost use Rattle.funnel_model.specs.RecycleExample.{guarded, paired, slices_filled, unguarded};
ghost use Rattle.funnel_model.specs.Steps.{AddsNone, AnswersLast, FindsNoMemory, IsReply, Step};
ghost use Rattle.funnel_model.specs.Tokens.{MayRead};

/// Not legal are a take of slice 1 while slice 0 has an unclaimed column, the clear of slice 1 while slice 0 can be cleared,
/// that of a slice that isn't retired, that of one under a token that may read it, a refused recycle while a retired slice is
/// unguarded, and an opening of a slice that wasn't cleared.
pub fn slices_out_of_turn()
    ensures take { IsLegal paired (event.Take 0 1 0 ∷ []) → ⊥ }
    ensures clear { IsLegal paired (unguarded ++ event.Clear 0 1 ∷ []) → ⊥ }
    ensures live { IsLegal paired (slices_filled ++ event.Clear 0 0 ∷ []) → ⊥ }
    ensures reader { IsLegal paired (guarded ++ event.Clear 0 0 ∷ []) → ⊥ }
    ensures recycle { IsLegal paired (unguarded ++ event.No 0 call.Recycle ∷ []) → ⊥ }
    ensures opened { IsLegal paired (event.Opened 0 0 true ∷ []) → ⊥ }
{}

/// Not legal are an event of a pass that isn't there, a take after the pass's own take, one in the middle of its find, an end
/// without a find and one of another pass's find, and an event of another pass between an opening for an add and its take. The
/// pass that opened a slice for an add is in the middle of its call.
pub fn passes_out_of_turn()
    ensures unknown { IsLegal paired (event.Find 2 [] ∷ []) → ⊥ }
    ensures twice { IsLegal paired (event.Take 0 0 0 ∷ event.Take 0 1 0 ∷ []) → ⊥ }
    ensures finding { IsLegal paired (event.Find 0 [] ∷ event.Take 0 0 0 ∷ []) → ⊥ }
    ensures unbegun { IsLegal paired (event.End 0 ∷ []) → ⊥ }
    ensures other_end { IsLegal paired (event.Find 1 [] ∷ event.End 0 ∷ []) → ⊥ }
    ensures opening { IsIdle 0 (event.Opened 0 0 false ∷ []) → ⊥ }
    ensures between { IsLegal paired (unguarded ++ event.Clear 0 0 ∷ event.Opened 0 0 false ∷ event.Find 1 [] ∷ []) → ⊥ }
{}

/// Not legal are an add of bits outside its slice or past the 64 of a word, and one on another column than the one that was taken, a drop of a document that can be added, and a delete of a number that isn't live.
pub fn adds_out_of_place()
    ensures bits { IsLegal paired (event.Take 0 0 0 ∷ event.Add 0 9 [] 0 0 (record { word = 4; bit = 0 } ∷ []) ∷ []) → ⊥ }
    ensures below { IsLegal paired (first_added ++ event.Take 0 1 0 ∷ event.Add 0 7 [] 1 0 (record { word = 3; bit = 0 } ∷ []) ∷ []) → ⊥ }
    ensures wide { IsLegal paired (event.Take 0 0 0 ∷ event.Add 0 9 [] 0 0 (record { word = 0; bit = 64 } ∷ []) ∷ []) → ⊥ }
    ensures column { IsLegal paired (event.Take 0 0 0 ∷ event.Add 0 9 [] 1 0 [] ∷ []) → ⊥ }
    ensures dropped { IsLegal paired (event.Take 0 0 0 ∷ event.Drop 0 9 [] 0 0 ∷ []) → ⊥ }
    ensures absent { IsLegal paired (first_added ++ event.Del 0 7 ∷ []) → ⊥ }
{}

/// Not legal are a move of a document that isn't live, or not any more, one without a take, after the take of another pass or of
/// another column, one with bits outside its new slice or past the 64 of a word, and a void without a take.
pub fn moves_out_of_place()
    ensures absent { IsLegal paired (event.Take 0 0 0 ∷ event.Move 0 9 0 0 [] ∷ []) → ⊥ }
    ensures deleted { IsLegal paired (first_added ++ event.Del 0 9 ∷ event.Take 0 1 0 ∷ event.Move 0 9 1 0 [] ∷ []) → ⊥ }
    ensures untaken { IsLegal paired (first_added ++ event.Move 0 9 1 0 [] ∷ []) → ⊥ }
    ensures other_pass { IsLegal paired (first_added ++ event.Take 1 1 0 ∷ event.Move 0 9 1 0 [] ∷ []) → ⊥ }
    ensures other_column { IsLegal paired (first_added ++ event.Take 0 1 0 ∷ event.Move 0 9 0 0 [] ∷ []) → ⊥ }
    ensures below { IsLegal paired (first_added ++ event.Take 0 1 0 ∷ event.Move 0 9 1 0 (record { word = 3; bit = 0 } ∷ []) ∷ []) → ⊥ }
    ensures wide { IsLegal paired (first_added ++ event.Take 0 1 0 ∷ event.Move 0 9 1 0 (record { word = 4; bit = 64 } ∷ []) ∷ []) → ⊥ }
    ensures void { IsLegal paired (first_added ++ event.Void 0 1 0 ∷ []) → ⊥ }
{}

/// A move and a void have no reply.
pub fn moves_have_no_reply()
    ensures { (limits : Limits) (history : List Event) (pass id slice column : ℕ) (bits : List Bit) (given : Reply) →
        IsReply limits history (event.Move pass id slice column bits) given
        ⊎ IsReply limits history (event.Void pass slice column) given → ⊥ }
{}

/// Not legal is a put that is refused while a column is left, also where its number is live. No put is a delete and an add, and none is
/// told that it added a document where it replaced one.
pub fn puts_out_of_place()
    ensures refused { IsLegal paired (event.No 0 (call.Put 9 []) ∷ []) → ⊥ }
    ensures present { IsLegal small (first_added ++ event.No 0 (call.Put 9 []) ∷ []) → ⊥ }
    ensures two_turns { (given : Reply) → Step small 0 first_added
        (first_added ++ event.Del 0 9 ∷ event.Take 0 0 1 ∷ event.Add 0 9 (codes "b") 0 1 [] ∷ []) (call.Put 9 (codes "b")) given → ⊥ }
    ensures told_as_added { Step small 0 first_added replaced (call.Put 9 (codes "b")) (reply.Added 2) → ⊥ }
{}

/// A move without a delete, a drop or a replacement before it has no cause. Each is one; an add of a number that isn't live is none.
pub fn moves_without_a_cause()
    ensures deleted { MovesAreCaused (event.Del 0 5 ∷ event.Void 0 0 0 ∷ []) }
    ensures dropped { MovesAreCaused (event.Drop 0 5 [] 0 0 ∷ event.Void 0 0 0 ∷ []) }
    ensures replaced { MovesAreCaused (replaced ++ event.Void 0 0 0 ∷ []) }
    ensures moved { MovesAreCaused moved → ⊥ }
{}

/// Not legal are a refusal of an add that has room, of a delete of a live number, and of a call that only reads, and the reading
/// of a call that doesn't.
pub fn calls_refused_for_no_cause()
    ensures add { IsLegal paired (event.No 0 (call.Add 9 []) ∷ []) → ⊥ }
    ensures delete { IsLegal paired (first_added ++ event.No 0 (call.Delete 9) ∷ []) → ⊥ }
    ensures place { IsLegal paired (event.No 0 call.Place ∷ []) → ⊥ }
    ensures read { IsLegal paired (event.Read 0 (call.Delete 9) ∷ []) → ⊥ }
{}

/// Not legal are a tuning in the middle of a call and a tuning that is refused or only read.
pub fn tunings_out_of_turn()
    ensures taken { (config : Config) → IsLegal paired (event.Take 0 0 0 ∷ event.Tune 0 config ∷ []) → ⊥ }
    ensures refused { (config : Config) → IsLegal paired (event.No 0 (call.Tune config) ∷ []) → ⊥ }
    ensures read { (config : Config) → IsLegal paired (event.Read 0 (call.Tune config) ∷ []) → ⊥ }
{}

/// A configuration may keep 4,194,304 columns free. One that would keep 4,194,305 free is not in range.
pub fn reserves_out_of_range()
    ensures most { (config : Config) → IsInRange config → IsInRange (record config { reserve = 4194304 }) }
    ensures more { (config : Config) → IsInRange (record config { reserve = 4194305 }) → ⊥ }
{}

/// A find may not read a slice that was being cleared when it began.
pub fn slices_being_cleared_are_not_read()
    ensures { MayRead paired.columns (unguarded ++ event.Clear 0 0 ∷ event.Find 1 [] ∷ []) 1 0 → ⊥ }
{}

/// A recycle that is refused while both slices are guarded is answered by the lower one alone.
pub fn the_lowest_guarded_slice_is_told()
    ensures { IsReply paired guarded (event.No 0 call.Recycle) (reply.Guarded 1 1) → ⊥ }
{}

/// The last call of a pass is one call, and its event gives one reply. By that a call which is made is answered, and not by the
/// reply of an earlier one.
pub fn steps_answer_their_call()
    ensures call { (limits : Limits) (pass : ℕ) (history : List Event) (asked other : Call) (given also : Reply) →
        AnswersLast limits pass history asked given → AnswersLast limits pass history other also → asked ≡ other }
    ensures reply { (limits : Limits) (pass : ℕ) (history : List Event) (asked other : Call) (given also : Reply) →
        AnswersLast limits pass history asked given → AnswersLast limits pass history other also → given ≡ also }
{}

/// A step is made between calls of the pass. Only a history with so many events is answered Spent, and then the call isn't made;
/// and only an add, a put and a tuning, which aren't made then, a find, a call that searches by an expression, a journal and a get are
/// answered by want of memory.
pub fn steps_have_their_cause()
    ensures spent { (limits : Limits) (pass : ℕ) (before after : List Event) (asked : Call) →
        Step limits pass before after asked reply.Spent → (limits.events ≤ length after) × AddsNone pass before after }
    ensures memory { (limits : Limits) (pass : ℕ) (before after : List Event) (asked : Call) →
        Step limits pass before after asked reply.Memory → FindsNoMemory pass before after asked }
    ensures idle { (limits : Limits) (pass : ℕ) (before after : List Event) (asked : Call) (given : Reply) →
        Step limits pass before after asked given → IsIdle pass before × IsIdle pass after }
    ensures add { (limits : Limits) (pass id : ℕ) (text : List ℕ) (before after : List Event) →
        Step limits pass before after (call.Add id text) reply.Memory → AddsNone pass before after }
    ensures put { (limits : Limits) (pass id : ℕ) (text : List ℕ) (before after : List Event) →
        Step limits pass before after (call.Put id text) reply.Memory → AddsNone pass before after }
    ensures tune { (limits : Limits) (pass : ℕ) (config : Config) (before after : List Event) →
        Step limits pass before after (call.Tune config) reply.Memory → AddsNone pass before after }
    ensures delete { (limits : Limits) (pass id : ℕ) (before after : List Event) →
        Step limits pass before after (call.Delete id) reply.Memory → ⊥ }
    ensures place { (limits : Limits) (pass : ℕ) (before after : List Event) → Step limits pass before after call.Place reply.Memory → ⊥ }
    ensures recycle { (limits : Limits) (pass : ℕ) (before after : List Event) →
        Step limits pass before after call.Recycle reply.Memory → ⊥ }
    ensures stats { (limits : Limits) (pass : ℕ) (before after : List Event) → Step limits pass before after call.Stats reply.Memory → ⊥ }
{}

/// No step is answered as a malformed or a too long line, as a tuning that has a fault or is too wide, or as a text that is no
/// query, no place that is read by Spent, and no call by Spent where nothing was done yet. The second add of a number is not
/// answered by the reply to the first, and no step makes both adds.
pub fn steps_have_no_other_reply()
    ensures unread { (limits : Limits) (pass : ℕ) (before after : List Event) (asked : Call) →
        Step limits pass before after asked reply.Line ⊎ Step limits pass before after asked reply.Long → ⊥ }
    ensures untuned { (limits : Limits) (pass fault needed room : ℕ) (before after : List Event) (asked : Call) →
        Step limits pass before after asked (reply.Tuning fault) ⊎ Step limits pass before after asked (reply.Wide needed room) → ⊥ }
    ensures unasked { (limits : Limits) (pass at : ℕ) (before after : List Event) (asked : Call) →
        Step limits pass before after asked (reply.Query at) ⊎ Step limits pass before after asked (reply.Deep at) → ⊥ }
    ensures read { (before : List Event) → IsReply paired before (event.Read 0 call.Place) reply.Spent → ⊥ }
    ensures older { Step small 0 first_added (first_added ++ event.No 0 (call.Add 9 []) ∷ []) (call.Add 9 []) (reply.Added 1) → ⊥ }
    ensures twice { Step small 0 [] (first_added ++ event.No 0 (call.Add 9 []) ∷ []) (call.Add 9 []) (reply.Present 1) → ⊥ }
    ensures empty { (asked : Call) → Step paired 0 [] [] asked reply.Spent → ⊥ }
{}
