//! What the engine's contracts speak of: words, events, histories of events, what a query is answered in them,
//! and configurations and what they give each word. It has data and definitions, and no code of the engine.
#![tactic(auto)]

mod bit_list;
mod block;
mod blocked;
mod call;
mod candidates;
mod claim;
mod commit;
mod config;
mod event;
mod expr;
mod ids;
pub mod laws;
mod listed;
mod memory;
mod reply;
mod slice_set;
mod stats;
mod text;
pub mod treatment_laws;
mod word_expr;
mod word_set;

pub use bit_list::{Bit, BitList};
pub use block::Block;
pub use blocked::Blocked;
pub use call::{Call, MOST_MOVES};
pub use candidates::Candidates;
pub use claim::{Claim, ClearJob, Token};
pub use commit::{Commit, Commits};
pub use config::{
    Config, LEAST_ONE_IN, MOST_BLOCKS, MOST_COLUMNS, MOST_COMMITS, MOST_DOCUMENTS, MOST_MAX_ROWS,
    MOST_ONE_IN, MOST_PASSES, MOST_PRIVATE, MOST_RANK, MOST_RESERVE, MOST_ROW_WORDS, MOST_SLICES,
    MOST_SNR, MOST_TAIL, MOST_WORDS,
};
pub use event::Event;
pub use expr::{Expr, Exprs, MOST_OPEN};
pub use ids::Ids;
pub use listed::Listed;
pub use memory::Memory;
pub use reply::Reply;
pub use slice_set::SliceSet;
pub use stats::Stats;
pub use text::Text;
pub use word_expr::WordExpr;
pub use word_set::{WordSet, Words};
