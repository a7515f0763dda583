//! Histories, most of them shown to be legal, with their replies, steps and blocks, and what row words owe them. What is not
//! legal, no reply and no step stands in `counter_examples`.
ghost use Rattle.std.specs.Prelude.{◌≡◌, ℕ, true, false, [], ◌∷◌, ◌++◌, Some, None, codes};
ghost use Rattle.funnel_model.specs.Blocks.{AreBlocks};
ghost use Rattle.funnel_model.specs.declared.block.Block.TheVariants as block;
ghost use Rattle.funnel_model.specs.declared.call.Call.TheVariants as call;
ghost use Rattle.funnel_model.specs.declared.config.Config.{Config};
ghost use Rattle.funnel_model.specs.declared.event.Event.TheVariants as event;
ghost use Rattle.funnel_model.specs.Example.{AreReplies, episode, episode_calls, episode_replies, filling_and_deleting, first_added, forgetful, later_added, reuse, reuse_replies, same_number, same_number_replies, shared, small, trimmed, trimmed_replies};
ghost use Rattle.funnel_model.specs.History.{has_cause, own};
ghost use Rattle.funnel_model.specs.Legal.{IsFull, IsLegal};
ghost use Rattle.funnel_model.specs.MoveExample.{added_again, cat, found_again, half_deleted, moved, moved_again, moved_again_replies, new_cat, voided};
ghost use Rattle.funnel_model.specs.PutExample.{new_document, old_document, put_replies, refused_after, replaced};
ghost use Rattle.funnel_model.specs.RecycleExample.{both_clearing, both_recycled, covering, first_set, guarded, held, high_bit, low_bit, not_covering, paired, recycled, second_set, together, together_replies, unguarded};
ghost use Rattle.funnel_model.specs.Reserve.{HasReadyColumns, IsSource, HasSpareColumns};
ghost use Rattle.funnel_model.specs.RowWords.{AreFresh, Covers, IsCommitted};
ghost use Rattle.funnel_model.specs.Slices.{Deleted, Dropped, Live, IsInState, IsRetiredAt};
ghost use Rattle.funnel_model.specs.declared.reply.Reply.TheVariants as reply;
ghost use Rattle.funnel_model.specs.Steps.{Linear, Step};
ghost use Rattle.funnel_model.specs.Tokens.{Guards, MayRead, seen_by};
ghost use Rattle.funnel_model.specs.TuneExample.{tuned_once, tuned_replies, tuned_twice};
ghost use Rattle.funnel_model.specs.Tunings.{current, treat};

/// There is a legal history with two adds, a find, a refused add of a number that is live and a refused add where no column is
/// left, and these are its replies. The calls lead to it from the empty history, one step for each.
pub fn example()
    ensures legal { IsLegal small episode }
    ensures replies { AreReplies small episode episode_replies }
    ensures steps { Linear small 0 [] episode episode_calls episode_replies }
{}

/// There is a legal history that fills a slice, retires it under an open token, clears it, opens it and uses it again. It has
/// deletes, a call that only reads, and refused adds and deletes, and these are its replies. The open token may still read
/// the slice once both documents are deleted.
pub fn reuse_example()
    ensures legal { IsLegal shared reuse }
    ensures replies { AreReplies shared reuse reuse_replies }
    ensures still_read { MayRead shared.columns filling_and_deleting 1 0 }
{}

/// There is a legal history in which two passes add the same number at once, and the later one is dropped. These are its
/// replies, and the dropped add is the later pass's own call.
pub fn drop_example()
    ensures legal { IsLegal shared same_number }
    ensures replies { AreReplies shared same_number same_number_replies }
    ensures own { own 1 same_number ≡ call.Add 4 [] ∷ [] }
{}

/// There is a legal history of five commits, of which the journal keeps one. A journal from before it is told how many commits are
/// no longer kept, one from there on has it, and one from past it has none.
pub fn trimmed_example()
    ensures legal { IsLegal forgetful trimmed }
    ensures replies { AreReplies forgetful trimmed trimmed_replies }
{}

/// There is a legal history of two slices with a recycle that is refused where nothing is retired, one that is refused with its
/// guard, two that are made, and journals from the first commit on, from the second and after the last; in its last events both
/// passes are inside calls at once. These are its replies. Each of the two calls in the last events is a step, with an event of
/// the other in its midst.
pub fn recycle_example()
    ensures legal { IsLegal paired together }
    ensures replies { AreReplies paired together together_replies }
    ensures recycles { Step paired 1 recycled both_recycled call.Recycle (reply.Recycled 1) }
    ensures adds { Step paired 0 (recycled ++ event.Clear 1 1 ∷ []) together (call.Add 5 []) (reply.Added 5) }
{}

/// A call that finds no memory, and one that comes to a history with so many events, can be steps without an event.
pub fn steps_without_events()
    ensures memory { Step small 0 [] [] (call.Add 9 []) reply.Memory }
    ensures spent { Step (record small { events = 0 }) 0 [] [] call.Place reply.Spent }
{}

/// These are the blocks of full engines: a live and a pending column of two slices, the lower of a pending and a live one of one
/// slice, the lower of two live ones, two slices under the token of pass 1, and two that are being cleared.
pub fn blocks_example()
    ensures held { IsFull paired held × AreBlocks paired held (block.Live 0 ∷ block.Pending 0 1 ∷ []) }
    ensures mixed { IsFull shared later_added × AreBlocks shared later_added (block.Pending 0 0 ∷ []) }
    ensures lowest { IsFull small episode × AreBlocks small episode (block.Live 0 ∷ []) }
    ensures guarded { IsFull paired guarded × AreBlocks paired guarded (block.Guarded 1 6 ∷ block.Guarded 1 6 ∷ []) }
    ensures clearing { IsFull paired both_clearing × AreBlocks paired both_clearing (block.Clearing 0 ∷ block.Clearing 1 ∷ []) }
{}

/// Row words cover the history where both deleted documents' bits are set, and not with another bit in place of one.
/// Words of a slice without a claimed column have to be zero, whichever slice it is and also once it was opened again, and
/// others not.
pub fn row_words_example()
    ensures covers { Covers covering guarded }
    ensures other_bit { Covers not_covering guarded → ⊥ }
    ensures claimed { AreFresh paired covering guarded }
    ensures unclaimed { AreFresh paired covering [] → ⊥ }
    ensures second { AreFresh paired second_set [] → ⊥ }
    ensures opened { AreFresh paired covering recycled → ⊥ }
    ensures beside { AreFresh paired first_set (event.Take 0 0 0 ∷ []) }
{}

/// The bits of a deleted document stay committed until its slice is cleared.
pub fn deleted_bits_stay_committed()
    ensures deleted { IsCommitted guarded 0 low_bit }
    ensures cleared { IsCommitted (unguarded ++ event.Clear 0 0 ∷ []) 0 low_bit → ⊥ }
{}

/// There is a legal history in which a document moves under an open find, moves again after its number was deleted and added anew,
/// and a column is left void between; moves and voids have no replies. The find still sees the document in the column that it had,
/// and not in the new one, and may read both slices; a find that begins later sees it in the new column alone.
pub fn move_example()
    ensures legal { IsLegal paired moved_again }
    ensures replies { AreReplies paired moved_again moved_again_replies }
    ensures old { IsInState moved 0 0 (Deleted cat 2 5) × (seen_by 3 (Deleted cat 2 5) ≡ Some cat) × (seen_by 8 (Deleted cat 2 5) ≡ None) }
    ensures new { IsInState moved 1 0 (Live cat 5) × (seen_by 3 (Live cat 5) ≡ None) × (seen_by 8 (Live cat 5) ≡ Some cat) }
    ensures read { MayRead paired.columns moved 1 0 × MayRead paired.columns moved 1 1 }
{}

/// In the same history the old slice retires by the move, and the find guards it; it retires by the void too. Once its number is
/// deleted, the document has left the column to which it moved; and the new document has left its first column at the end. What
/// moved has its bits in both slices.
pub fn moves_retire_their_slice()
    ensures retired { IsRetiredAt paired.columns 0 moved 5 × Guards paired.columns moved 0 1 3 }
    ensures gone { IsInState added_again 1 0 (Deleted cat 5 16) }
    ensures voided { IsInState voided 0 0 Dropped × IsRetiredAt paired.columns 0 voided 13 }
    ensures again { IsInState moved_again 1 0 (Live new_cat 22) × IsInState moved_again 0 0 (Deleted new_cat 18 22) }
    ensures committed { IsCommitted moved 0 low_bit × IsCommitted moved 1 high_bit }
{}

/// There is a legal history in which a document is put in the place of a live one with its number. Its old column is over from that event
/// on, and its new one is live; a find, a get and the numbers of the engine tell of the new one alone. The put is a step, told that it
/// replaced one. Another put of the number, for which no column is left, is refused for want of room. These are the replies.
pub fn put_example()
    ensures legal { IsLegal small refused_after }
    ensures replies { AreReplies small refused_after put_replies }
    ensures old { IsInState replaced 0 0 (Deleted old_document 2 4) }
    ensures new { IsInState replaced 0 1 (Live new_document 4) }
    ensures step { Step small 0 first_added replaced (call.Put 9 (codes "b")) (reply.Replaced 2) }
    ensures cause { has_cause replaced ≡ true }
{}

/// A slice that retired under a find has a spare column, which is ready once the find has ended. Documents are moved out of a filled
/// slice of two columns, one of which is live and one deleted, and out of none that has an unclaimed column, which is spare and ready.
pub fn reserve_example()
    ensures spare { HasSpareColumns paired moved 1 × HasReadyColumns paired moved 0 }
    ensures ready { HasSpareColumns paired found_again 1 × HasReadyColumns paired found_again 1 }
    ensures source { IsSource shared half_deleted 0 1 }
    ensures no_source { (slice held : ℕ) → IsSource paired moved slice held → ⊥ }
    ensures unfilled { (slice held : ℕ) → IsSource shared first_added slice held → ⊥ }
    ensures unclaimed { HasSpareColumns shared first_added 1 × HasReadyColumns shared first_added 1 }
    ensures new { HasSpareColumns shared [] 2 × HasReadyColumns shared [] 2 }
{}

/// There is a legal history with two tunings, whatever they give, the second of them while a slice is being cleared. A tuning changes
/// the treatment of no slice: each has the opening one until it is cleared, and then the one that was current at its clear. So both
/// slices are treated differently at the end, and no slice yet by the configuration that was given last.
pub fn tune_example()
    ensures legal { (second third : Config) → IsLegal paired (tuned_twice second third) }
    ensures replies { (second third : Config) → AreReplies paired (tuned_twice second third) tuned_replies }
    ensures before { (opening second : Config) →
        (treat opening 0 (tuned_once second) ≡ opening) × (current opening (tuned_once second) ≡ second) }
    ensures cleared { (opening second third : Config) → treat opening 0 (tuned_twice second third) ≡ second }
    ensures other { (opening second third : Config) → treat opening 1 (tuned_twice second third) ≡ opening }
    ensures last { (opening second third : Config) → current opening (tuned_twice second third) ≡ third }
    ensures step { (config : Config) → Step paired 1 [] (event.Tune 1 config ∷ []) (call.Tune config) (reply.Tuned 1) }
    ensures memory { (config : Config) → Step paired 1 [] [] (call.Tune config) reply.Memory }
{}
