//! The tokens of running finds, by pass. A find holds its token from its first event to its last, and a slice that
//! retired meanwhile is not cleared: the token guards it. The layer above asks here for the lowest pass that guards a
//! slice which retired at a given event.
#![tactic(auto)]

mod tokens;

pub use tokens::Tokens;
