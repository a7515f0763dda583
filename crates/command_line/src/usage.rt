//! What is wrong with words that are no command.
ghost use Rattle.std.specs.Prelude.{◌≡◌, IfOk, IsSome, MatchOption, None, map};
ghost use Rattle.command_line.specs.Commands.{command_of};

use crate::command::{MOST_CONNECTIONS, MOST_FITTED, MOST_IDLE, MOST_PORT, call_words, funnel_app};
use clap::error::ErrorKind;
use funnel_model::{MOST_PASSES, Memory};
use load_gen::{MOST_DOCS, MOST_WORDS};
use std::alloc::Global;
use std::fmt;

/// What is wrong with words that are no command. It is shown as one line, without its end.
#[derive(Debug, Drop)]
pub enum UsageFault {
    /// Help or the version is asked for among other words.
    NotAlone,
    /// `clap` refuses the words, and this is all that it says.
    Refused(String),
    /// So it is with the value of an option, which takes the numbers from `least` to `greatest`.
    NoNumber {
        text: String,
        least: u64,
        greatest: u64,
    },
}

/// What `clap` has against the words: one that isn't understood, an option that is missing, or the numbers that it takes. None
/// where it has nothing against them.
pub fn usage_fault(alloc: Global, words: &[&str]) -> Result<Option<UsageFault>, Memory>
    ensures { IfOk result (λ fault. MatchOption fault
        (IsSome (command_of (map (λ word. word.now) words.now)))
        (λ _. command_of (map (λ word. word.now) words.now) ≡ None)) }
{
    let words = call_words(alloc, words)?;
    let error = match funnel_app(alloc)?.try_get_matches_from(words.as_slice()) {
        Ok(_) => return Ok(None),
        Err(error) => error,
    };
    match error.kind() {
        ErrorKind::OutOfMemory => Err(Memory),
        ErrorKind::DisplayHelp | ErrorKind::DisplayVersion => Ok(Some(UsageFault::NotAlone)),
        _ => Ok(Some(refusal(error.kind(), format!(in alloc; "{error}")?))),
    }
}

// The refusal that this text tells, with the numbers that an option takes where it doesn't tell them.
fn refusal(kind: ErrorKind, text: String) -> UsageFault {
    let numbers = match kind {
        ErrorKind::ValueValidation => numbers_untold(text.as_str()),
        _ => None,
    };
    match numbers {
        Some((least, greatest)) => UsageFault::NoNumber {
            text,
            least,
            greatest,
        },
        None => UsageFault::Refused(text),
    }
}

/// The options that take numbers, each with the least and the greatest of them.
static NUMBERS: [(&str, u64, u64); 8] = [
    ("port", 1, MOST_PORT as u64),
    ("workers", 1, MOST_PASSES as u64),
    ("connections", 1, MOST_CONNECTIONS),
    ("idle", 0, MOST_IDLE as u64),
    ("docs", 1, MOST_DOCS as u64),
    ("words", 0, MOST_WORDS as u64),
    ("seed", 0, u64::MAX),
    ("documents", 1, MOST_FITTED as u64),
];

// The numbers that the option of a refused value takes, unless the text tells them behind its name.
fn numbers_untold(text: &str) -> Option<(u64, u64)> {
    let (_, told) = text.rsplit_once(" for '--")?;
    let (name, cause) = told.split_once(" <")?;
    if cause.contains(" is not in ") {
        return None;
    }
    for (option, least, greatest) in &NUMBERS {
        if *option == name {
            return Some((*least, *greatest));
        }
    }
    None
}

impl fmt::Display for UsageFault {
    fn fmt<W: fmt::Write>(&self, f: &mut fmt::Formatter<W>) -> fmt::Result {
        match self {
            UsageFault::NotAlone => f.write_str("help and the version are asked for alone"),
            UsageFault::Refused(text) => write_cause(text.as_str(), f),
            UsageFault::NoNumber {
                text,
                least,
                greatest,
            } => {
                write_cause(text.as_str(), f)?;
                write!(
                    f,
                    ": it has to be a whole number from {least} to {greatest}"
                )
            }
        }
    }
}

// The first part of the text, which tells the cause, in one line. A word in it may have an empty line, as there is one before each other
// part.
fn write_cause<W: fmt::Write>(text: &str, f: &mut fmt::Formatter<W>) -> fmt::Result {
    let text = text.strip_prefix("error: ").unwrap_or(text);
    let cause = up_to(text, "\n\n  tip:");
    let cause = up_to(cause, "\n\nUsage:");
    let cause = up_to(cause, "\n\nFor more information");
    for (at, line) in cause.lines().enumerate() {
        if at > 0 {
            f.write_str(" ")?;
        }
        f.write_str(line.trim())?;
    }
    Ok(())
}

// The text before the first such mark, or all of it where there is none.
fn up_to<'t>(text: &'t str, mark: &str) -> &'t str {
    match text.split_once(mark) {
        Some((before, _)) => before,
        None => text,
    }
}
