//! The text of a fault.
use funnel_model::Memory;
use std::alloc::{AllocError, Global};
use std::test::Fail;

fn has_text(alloc: Global, wanted: &str) -> Result<bool, AllocError> {
    let text = Memory.to_string(alloc)?;
    Ok(text.as_str() == wanted)
}

#[test]
fn want_of_memory_has_a_text(rt: HostRuntime) -> Result<(), Fail> {
    assert!(rt; has_text(rt.alloc(), "out of memory")?);
    Ok(())
}
