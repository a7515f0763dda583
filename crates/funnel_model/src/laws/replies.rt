//! What events are answered: each call has one reply, and each refusal has its cause.
ghost use Rattle.std.specs.Prelude.{◌≡◌, ◌+◌, ◌<◌, ◌≤◌, ◌↔◌, ◌⊎◌, ℕ, true, false, List, [], ◌∷◌, ◌++◌, length, Some};
ghost use mathlib.Core.List.{IsPrefix};
ghost use Rattle.funnel_model.specs.Blocks.{AreBlocks, IsBlock};
ghost use Rattle.funnel_model.specs.declared.bit_list.Bit.{Bit};
ghost use Rattle.funnel_model.specs.declared.block.Block.{Block};
ghost use Rattle.funnel_model.specs.declared.call.Call.{Call};
ghost use Rattle.funnel_model.specs.declared.call.Call.TheVariants as call;
ghost use Rattle.funnel_model.specs.declared.config.Config.{Config};
ghost use Rattle.funnel_model.specs.declared.event.Event.{Event};
ghost use Rattle.funnel_model.specs.declared.event.Event.TheVariants as event;
ghost use Rattle.funnel_model.specs.declared.reply.Reply.{Reply};
ghost use Rattle.funnel_model.specs.declared.reply.Reply.TheVariants as reply;
ghost use Rattle.funnel_model.specs.Events.{call_of};
ghost use Rattle.funnel_model.specs.History.{base, commits_after, is_live, live_place, place};
ghost use Rattle.funnel_model.specs.Legal.{IsFull, IsLegal, Limits};
ghost use Rattle.funnel_model.specs.Slices.{IsRetired};
ghost use Rattle.funnel_model.specs.Steps.{IsLowestGuarded, IsPut, IsReply, IsReplyAt, Linear, NoneRetired, Step};
ghost use Rattle.funnel_model.specs.Tokens.{IsGuarded};
ghost use Rattle.funnel_model.specs.Tunings.{tunings};

/// The reply that the event with a number gives is its reply after the events before it. No event has number 0.
pub fn replies_by_number()
    ensures reply { (limits : Limits) (before : List Event) (e : Event) (later : List Event) (given : Reply) →
        IsReplyAt limits (before ++ e ∷ later) (length before + 1) given ↔ IsReply limits before e given }
    ensures none { (limits : Limits) (history : List Event) (given : Reply) → IsReplyAt limits history 0 given → ⊥ }
{}

/// In a legal history each event that answers a call has a reply, and one alone; no other event has any.
pub fn each_call_has_one_reply()
    ensures some { (limits : Limits) (before later : List Event) (e : Event) (asked : Call) → IsLegal limits (before ++ e ∷ later) →
        call_of e ≡ Some asked → (given : Reply) × IsReply limits before e given }
    ensures one { (limits : Limits) (before : List Event) (e : Event) (given other : Reply) →
        IsReply limits before e given → IsReply limits before e other → given ≡ other }
    ensures calls_alone { (limits : Limits) (before : List Event) (e : Event) (given : Reply) → IsReply limits before e given →
        (asked : Call) × (call_of e ≡ Some asked) }
{}

/// In a legal history a refusal tells what was so right before its event: Present the place of the live document's add, Full that
/// the engine was, Absent that the number wasn't live, Trimmed how many commits the journal no longer kept, one of which was asked
/// for, and of a recycle that no slice was retired, or that each retired one was guarded, the lowest of them by this pass and none
/// below it.
pub fn refusals_have_their_cause()
    ensures present { (limits : Limits) (before : List Event) (e : Event) (place : ℕ) → IsReply limits before e (reply.Present place) →
        (id : ℕ) × (text : List ℕ) × (call_of e ≡ Some (call.Add id text)) × (live_place id before ≡ Some place) }
    ensures trimmed { (limits : Limits) (before : List Event) (e : Event) (n : ℕ) → IsReply limits before e (reply.Trimmed n) →
        (pass : ℕ) × (from : ℕ) × (e ≡ event.Read pass (call.Journal from)) × (from < n) × (n ≡ base limits.commits before) }
    ensures full { (limits : Limits) (before later : List Event) (e : Event) → IsLegal limits (before ++ e ∷ later) →
        IsReply limits before e reply.Full → IsFull limits before }
    ensures absent { (limits : Limits) (before later : List Event) (e : Event) → IsLegal limits (before ++ e ∷ later) →
        IsReply limits before e reply.Absent → (pass : ℕ) × (id : ℕ)
        × ((e ≡ event.No pass (call.Delete id)) ⊎ (e ≡ event.Read pass (call.Get id))) × (is_live id before ≡ false) }
    ensures none_retired { (limits : Limits) (before : List Event) (e : Event) → IsReply limits before e reply.NothingRetired →
        NoneRetired limits before }
    ensures guarded { (limits : Limits) (before later : List Event) (e : Event) (slice pass : ℕ) → IsLegal limits (before ++ e ∷ later) →
        IsReply limits before e (reply.Guarded slice pass) → IsLowestGuarded limits before slice pass
        × ((other : ℕ) → other < limits.slices → IsRetired limits.columns other before → IsGuarded limits.columns before other) }
{}

/// An add is told that it replaced a document exactly where its number was live; its reply tells the place that it got.
pub fn adds_are_told_what_they_replace()
    ensures replaced { (limits : Limits) (before : List Event) (pass id : ℕ) (text : List ℕ) (slice column : ℕ) (bits : List Bit) →
        is_live id before ≡ true →
        IsReply limits before (event.Add pass id text slice column bits) (reply.Replaced (place before + 1)) }
    ensures added { (limits : Limits) (before : List Event) (pass id : ℕ) (text : List ℕ) (slice column : ℕ) (bits : List Bit) →
        is_live id before ≡ false →
        IsReply limits before (event.Add pass id text slice column bits) (reply.Added (place before + 1)) }
{}

/// The step of an add is never told that a document was replaced. A put is done, or it is refused for want of room, lacks memory or
/// comes to a spent history; it is never told that its number is present.
pub fn adds_replace_nothing_and_puts_are_never_present()
    ensures adds { (limits : Limits) (pass : ℕ) (before after : List Event) (id place : ℕ) (text : List ℕ) →
        Step limits pass before after (call.Add id text) (reply.Replaced place) → ⊥ }
    ensures puts { (limits : Limits) (pass : ℕ) (before after : List Event) (id : ℕ) (text : List ℕ) (given : Reply) →
        Step limits pass before after (call.Put id text) given →
        IsPut limits pass before after (call.Put id text) given ⊎ (given ≡ reply.Full) ⊎ (given ≡ reply.Memory) ⊎ (given ≡ reply.Spent) }
    ensures never_present { (limits : Limits) (pass : ℕ) (before after : List Event) (id place : ℕ) (text : List ℕ) →
        Step limits pass before after (call.Put id text) (reply.Present place) → ⊥ }
{}

/// A tuning is answered by how many there were, with it, and no other event is.
pub fn tunings_are_counted()
    ensures { (limits : Limits) (before : List Event) (e : Event) (n : ℕ) → IsReply limits before e (reply.Tuned n) →
        (pass : ℕ) × (config : Config) × (e ≡ event.Tune pass config) × (n ≡ length (tunings (before ++ e ∷ []))) }
{}

/// The commits that a journal keeps are the last ones: with those before them they are all, they are no more than it keeps, and
/// no fewer while there are so many.
pub fn journals_keep_the_last_commits()
    ensures all { (kept : ℕ) (history : List Event) →
        place history ≡ base kept history + length (commits_after history (base kept history)) }
    ensures few { (kept : ℕ) (history : List Event) → length (commits_after history (base kept history)) ≤ kept }
    ensures many { (kept : ℕ) (history : List Event) → kept ≤ place history → length (commits_after history (base kept history)) ≡ kept }
{}

/// In a legal history one thing at most keeps documents out of a slice, so the blocks of a full engine are determined.
pub fn blocks_are_determined()
    ensures one { (limits : Limits) (history : List Event) (slice : ℕ) (block other : Block) → IsLegal limits history →
        IsBlock limits.columns history slice block → IsBlock limits.columns history slice other → block ≡ other }
    ensures all { (limits : Limits) (history : List Event) (blocks others : List Block) → IsLegal limits history →
        AreBlocks limits history blocks → AreBlocks limits history others → blocks ≡ others }
{}

/// Calls lead to a front that their start is a prefix of and that is legal where the start is, with one reply for each; where
/// there are no calls it is the start.
pub fn calls_lead_on()
    ensures grows { (limits : Limits) (pass : ℕ) (before after : List Event) (calls : List Call) (replies : List Reply) →
        Linear limits pass before after calls replies → IsPrefix before after }
    ensures legal { (limits : Limits) (pass : ℕ) (before after : List Event) (calls : List Call) (replies : List Reply) →
        IsLegal limits before → Linear limits pass before after calls replies → IsLegal limits after }
    ensures answered { (limits : Limits) (pass : ℕ) (before after : List Event) (calls : List Call) (replies : List Reply) →
        Linear limits pass before after calls replies → length calls ≡ length replies }
    ensures none { (limits : Limits) (pass : ℕ) (before after : List Event) → Linear limits pass before after [] [] → before ≡ after }
{}
