//! What holds of the rule alone. Each is the contract of a function that does nothing.
ghost use Rattle.slice_rule.specs.Kept.{EachCanBeKept};
ghost use Rattle.slice_rule.specs.SeatedPasses.{PassesHaveOneSeatEach};

/// A legal history can be that of a pool where there are row words that fit it: words that have the committed bits, keep to their
/// owners, have no owned bit of a pending column, and are zero in slices without a claimed column, as those of a sound history
/// are. Then the rule holds of a pool whose passes have all seen the history. So it forbids no kind of event, and no pass to be
/// in the middle of a call.
pub fn legal_histories_can_be_kept()
    ensures { EachCanBeKept }
{}

/// Wherever the rule holds, each pass that is numbered has one seat, but for the last, which may be about to get its own; and
/// at most one event that a pass asked is missing in what it has seen.
pub fn passes_have_one_seat_each()
    ensures { PassesHaveOneSeatEach }
{}
