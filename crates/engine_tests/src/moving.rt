//! Moves: an add moves documents out of the slice that has the fewest, so that it retires and can be cleared.
ghost use Rattle.std.specs.Prelude.{◌≡◌, []};
ghost use Rattle.funnel_model.specs.Configuration.{IsBetween, IsInRange};

use crate::caller::Caller;
use crate::setting::{Case, config, expect};
use crate::steps::{BesideFind, Meanwhile, Step};
use engine::{PoolName, Recycled};
use funnel_model::Config;
use std::alloc::Global;
use std::process::Abort;
use std::sync::Wait;
use std::test::*;

/// Two passes and so many slices. As many columns as one of them has are to be kept free.
fn with_reserve(alloc: Global, slices: u32) -> Config
    requires slices { IsBetween 1 1024 slices }
    ensures in_range { IsInRange result }
    ensures no_words { result.words ≡ [] }
{
    let mut config = config(alloc, 2, slices, 1, 1024);
    config.reserve = 64;
    config
}

/// Expects a case to hold at a new engine with so many slices and a reserve.
fn expect_with_reserve<C: Case, R: Wait + Abort>(rt: &R, alloc: Global, slices: u32, case: &C)
    requires slices { IsBetween 1 1024 slices }
{
    expect(rt, alloc, with_reserve(alloc, slices), case)
}

/// Two slices are filled, and half of the documents of each are deleted: 33 to 64 are left in the first, and 65 to 96 in the second.
/// A third slice has one document, with another word.
const HALF_LEFT: &[Step] = &[
    Step::AddAll((1, 129), 0),
    Step::Add(300, "w", Ok(129)),
    Step::DeleteAll((1, 33), 129),
    Step::DeleteAll((97, 129), 161),
];

/// A find that began before guards the first slice.
static MOVED: BesideFind = BesideFind {
    before: HALF_LEFT,
    beside: &[
        Step::Add(200, "y", Ok(194)),
        Step::Add(201, "y", Ok(195)),
        Step::Recycle(Recycled::Guarded {
            slice: 0,
            pass: 0,
            opened_at: 323,
        }),
    ],
    found: (33, 97),
    after: &[
        Step::Recycle(Recycled::Done(0)),
        Step::FindAll("x", (33, 97)),
        Step::FindAll("y", (200, 202)),
    ],
};

/// Two adds move what is left in the first slice. The find, and one after it, have the documents that were moved, in the order of
/// their adds.
#[test]
fn adds_move_documents_so_that_a_slice_retires(rt: HostRuntime) {
    expect_with_reserve(&rt, rt.alloc(), 3, &MOVED)
}

/// Pass 0 adds while the last pass moves its first document.
static BOTH_MOVE: Meanwhile = Meanwhile {
    before: HALF_LEFT,
    add: (201, "y", Ok(195)),
    meanwhile: &[Step::Add(200, "y", Ok(194))],
    after: &[
        Step::Recycle(Recycled::Done(0)),
        Step::FindAll("x", (33, 97)),
        Step::FindAll("y", (200, 202)),
    ],
};

/// Two adds move at the same time, each other documents. Both together move all that is left in the first slice.
#[test]
fn two_passes_move_at_the_same_time(rt: HostRuntime) {
    expect_with_reserve(&rt, rt.alloc(), 3, &BOTH_MOVE)
}

/// Pass 0 deletes the first document and adds it anew, with another word, while the last pass moves it.
static TOO_LATE: Meanwhile = Meanwhile {
    before: HALF_LEFT,
    add: (200, "y", Ok(196)),
    meanwhile: &[Step::Delete(33, Ok(194)), Step::Add(33, "z", Ok(195))],
    after: &[
        Step::Recycle(Recycled::Done(0)),
        Step::FindAll("x", (34, 97)),
        Step::FindAll("z", (33, 34)),
    ],
};

/// A document is deleted and added anew by one pass while another one moves it. The move comes too late: the new document
/// stays, and has its own word alone. Both adds together move the others out of the slice.
#[test]
fn a_document_that_is_replaced_meanwhile_is_not_moved(rt: HostRuntime) {
    expect_with_reserve(&rt, rt.alloc(), 3, &TOO_LATE)
}

/// Of five slices one is kept free. The others, less a column each, have room for the documents and a sixteenth more: these
/// are replaced in an order that looks random, and no add is refused. Without a reserve the engine is full after some time.
#[test]
fn documents_are_replaced_in_any_order(rt: HostRuntime) {
    let alloc = rt.alloc();
    expect_with_reserve(&rt, alloc, 5, &AnyOrder { all: true });
    expect(
        &rt,
        alloc,
        config(alloc, 2, 5, 1, 1024),
        &AnyOrder { all: false },
    )
}

/// The documents that are replaced: 4 * 63 * 16 / 17.
const DOCUMENTS: u64 = 237;

/// Whether all can be replaced.
struct AnyOrder {
    all: bool,
}

impl Case for AnyOrder {
    fn holds<N: PoolName, R: Wait>(
        &self,
        caller: &mut Caller<'_, N, R>,
        _: &mut Vec<Caller<'_, N, R>>,
    ) -> bool {
        caller.add_all((0, DOCUMENTS), 0) && (replace_often(caller) && has_all(caller)) == self.all
    }
}

fn has_all<N: PoolName, R: Wait>(caller: &mut Caller<'_, N, R>) -> bool {
    match caller.find("x") {
        Ok(ids) => ids.len() == DOCUMENTS as usize,
        Err(_) => false,
    }
}

/// Replaces one document after another. Whether each was.
fn replace_often<N: PoolName, R: Wait>(caller: &mut Caller<'_, N, R>) -> bool {
    let mut random: u64 = 1;
    for _ in 0..5000 {
        random = random
            .wrapping_mul(6_364_136_223_846_793_005)
            .wrapping_add(1_442_695_040_888_963_407);
        let id = (random >> 33) % DOCUMENTS;
        if caller.delete(id).is_err() || caller.add(id, "x").is_err() {
            return false;
        }
    }
    true
}
