//! Answers of thousands: where there is memory, no call invents the want of it.
use crate::setting::{config, expect};
use crate::steps::{Alone, Step};
use std::test::*;

static THOUSANDS: Alone = Alone(&[
    Step::AddAll((1, 5001), 0),
    Step::FindAll("x", (1, 5001)),
    Step::JournalAdds(0, (1, 5001)),
    Step::JournalAdds(7, (8, 5001)),
]);

/// An engine of 128 slices, of which 5,000 documents fill 78.
#[test]
fn thousands_of_documents_are_found_and_told(rt: HostRuntime) {
    let alloc = rt.alloc();
    expect(&rt, alloc, config(alloc, 2, 128, 1, 8192), &THOUSANDS)
}
