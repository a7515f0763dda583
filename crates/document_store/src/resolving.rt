ghost use Rattle.std.specs.Prelude.{◌≡◌, ℕ, ◌+◌, ◌-◌, ◌<◌, ◌≤◌, ◌++◌, [], length, filter_map, Contains};
ghost use Rattle.std.specs.List.{cons_option, slice_range};
ghost use Rattle.document_store.specs.Finding.{EndsTurn, kept_at, kept_in, looked_at, looked_in, place_if_live};
ghost use Rattle.document_store.specs.Slots.{IsColumn};

use crate::column::Column;
use crate::found::Found;
use crate::judging::Judge;
use crate::records::Records;
use crate::slots::Slot;
use funnel_model::Candidates;

/// A turn looks up so many candidates at most.
pub const MOST_LOOK_UPS: usize = 4096;

/// A turn ends with the document at which it has looked for so many words.
pub const MOST_LOOKED_FOR: usize = 256;

/// Looks at the candidates from this one on, until the turn is over or there are no more, and answers where the next turn goes
/// on. `out` gets those whose document was live in its column as the find with this number began and is kept by the judge. Each
/// document that was live then counts as `cost` words that the turn looks for, kept or not. It takes no memory.
pub fn resolve_part<J: Judge>(
    records: &Records,
    candidates: &Candidates,
    from: usize,
    judge: &J,
    cost: usize,
    opened_at: u64,
    out: &mut Found,
) -> usize
    requires from { from ≤ length candidates.now }
    requires room { length candidates.now ≤ out.old.room + from }
    requires in_range { (slice column : ℕ) → Contains candidates.now (slice, column) → IsColumn records.now slice column }
    requires cost { J.cost judge.now ≤ cost }
    ensures found { out.new.found ≡ out.old.found ++ filter_map (kept_at records.now (J.test judge.now) opened_at) (slice_range candidates.now from result) }
    ensures turn { EndsTurn candidates.now (looked_at records.now cost opened_at) from result }
    ensures enough { length candidates.now ≤ out.new.room + result }
    ensures room { out.new.room + length out.new.found ≡ out.old.room + length out.old.found }
{
    let end = from + (candidates.len() - from).min(MOST_LOOK_UPS);
    let mut left = MOST_LOOKED_FOR;
    for at in from..end {
        let (slice, column) = candidates.as_slice()[at];
        left = look_up(
            records.slot(slice, column),
            judge,
            cost,
            opened_at,
            left,
            out,
        );
        if left == 0 {
            return at + 1;
        }
    }
    end
}

/// Looks at one candidate, and answers how many more words the turn may look for.
fn look_up<J: Judge>(
    slot: &Slot,
    judge: &J,
    cost: usize,
    opened_at: u64,
    left: usize,
    out: &mut Found,
) -> usize
    requires room { 1 ≤ out.old.room }
    ensures found { out.new.found ≡ out.old.found ++ cons_option (kept_in slot.now (J.test judge.now) opened_at) [] }
    ensures left { result ≡ left - looked_in slot.now cost opened_at }
    ensures room { out.new.room + length out.new.found ≡ out.old.room + length out.old.found }
{
    let Some(place) = place_if_live(slot.column, opened_at) else {
        return left;
    };
    let Some(doc) = slot.doc.as_ref() else {
        return left;
    };
    if judge.keeps(doc) {
        out.push(place, doc.id());
    }
    left.saturating_sub(cost)
}

/// The place of the add, where the column's document was live in it as the find with this number began.
fn place_if_live(column: Column, opened_at: u64) -> Option<u64>
    ensures { result ≡ place_if_live column opened_at }
{
    match column {
        Column::Live { place, since } if since < opened_at => Some(place),
        Column::Over {
            place,
            since,
            until,
        } if since < opened_at && opened_at < until => Some(place),
        _ => None,
    }
}
