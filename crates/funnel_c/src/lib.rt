//! The engine for programs in C, and through C for those in other languages: an index of one owner behind a handle, which is one pointer that C
//! zeroes. `funnel.h` says what each call does, and what C owes. What is proved of a call is what `engine::Solo` promises of it, of the index
//! that the handle has; the code that is returned and the numbers at C's pointers tell the answer. A handle without an index is told so, and
//! stays as it is.
#![tactic(auto)]

mod changing;
mod code;
mod exports;
mod fitting;
mod handle;
mod index;
mod numbers;
mod reading;
mod searching;

pub use code::Code;
pub use handle::Handle;
pub use index::Index;
pub use numbers::Numbers;
