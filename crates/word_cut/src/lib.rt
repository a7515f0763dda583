//! The words of a text: it is cut by the word boundaries of Unicode (UAX 29), and each word is then folded, so that
//! words that differ in case alone are one word. Documents and queries are both cut here.
#![tactic(auto)]

mod ascii_words;
mod cut;
mod fault;
mod folding;
mod found_words;
mod keyed_word;
mod kind;

pub use cut::words;
pub use fault::WordFault;
