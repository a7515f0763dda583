//! Texts and their words.
use funnel_model::WordSet;
use std::alloc::Global;
use std::test::Fail;
use word_cut::{WordFault, words};

/// Each text with its words, in byte order.
static TEXTS: [(&str, &[&str]); 15] = [
    ("", &[]),
    (" ,.!? 👍🏽 🎉", &[]),
    ("The cat sat", &["cat", "sat", "the"]),
    ("cat cat the", &["cat", "the"]),
    ("don't stop: 3.14", &["3.14", "don't", "stop"]),
    ("Straße", &["strasse"]),
    ("STRASSE", &["strasse"]),
    ("ΣΊΣΥΦΟΣ", &["σίσυφοσ"]),
    ("Σίσυφος", &["σίσυφοσ"]),
    ("İ", &["i\u{307}"]),
    ("צה\"ל", &["צה\"ל"]),
    ("漢字", &["字", "漢"]),
    ("カタカナ", &["カタカナ"]),
    ("ภาษา", &["ภ", "ษ", "า"]),
    // One word, which its fold would be cut in two: the text is cut before it is folded.
    ("漢\u{345}", &["漢ι"]),
];

fn are_words(found: &WordSet, wanted: &[&str]) -> bool {
    let mut same = found.len() == wanted.len();
    for (word, want) in found.iter().zip(wanted) {
        same &= word == want.as_bytes();
    }
    same
}

/// Whether a text has these words.
fn has_words(alloc: Global, text: &str, wanted: &[&str]) -> Result<bool, WordFault> {
    let found = words(alloc, text)?;
    Ok(are_words(&found, wanted))
}

#[test]
fn texts_have_their_words(rt: HostRuntime) -> Result<(), Fail> {
    for (text, wanted) in &TEXTS {
        assert!(rt; has_words(rt.alloc(), text, wanted)?, "the words of {text}");
    }
    Ok(())
}
