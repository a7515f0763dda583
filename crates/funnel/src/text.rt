//! What the program tells of itself.
ghost use Rattle.std.specs.Prelude.{◌≡◌, ℕ, List, IsSome, None};
ghost use Rattle.command_line.specs.Commands.{command_of};
ghost use Rattle.funnel.specs.Texts.{IsTextWritten, text_asked, text_by, text_of};
ghost use Rattle.funnel.specs.Words.{words_in};

use crate::ends::Why;
use funnel_io::{Sink, write_all};

/// A text that words alone ask for.
#[derive(Clone, Copy, Debug, PartialEq, Eq)]
pub enum Text {
    /// The commands, and the keys of the configuration.
    Help,
    /// The version.
    Version,
}

/// The text of [`Text::Version`].
pub const VERSION: &str = "funnel 0.1.0\n";

/// The text of [`Text::Help`].
pub const HELP: &str = "\
funnel: indexes documents in memory, and finds those that have every word of a query, or that a boolean query keeps

Commands:
  run        answers the lines of standard input on standard output
  serve      answers the lines of TCP connections to 127.0.0.1
      --port P         1 to 65535: the port of the first worker; each other one has the next port
      --workers W      1 to 64: threads, each of which answers one connection at a time
      --one-port       all workers take connections at the port P
      --http           answers requests over HTTP/1.1 in place of lines
      --connections C  1 to 4294967296, default 4294967296: a worker stops after so many
      --idle S         0 to 86400, default 0: a connection is closed after waiting for so many seconds, with 0 never
  load       adds, deletes and finds generated documents, and prints what was found
      --docs D         1 to 4194304: documents
      --workers W      1 to 64, default 1: threads
      --words L        0 to 1000, default 80: words of a document
      --seed X         0 to 18446744073709551615, default 0: where the generator starts
  fit        prints a funnel.json that is fitted to the add lines of standard input
      --documents N    1 to 4194304: documents that there is to be room for
  --help     prints this, as do -h and help
  --version  prints the version, as does -V

Keys of funnel.json, a file with one JSON object in the folder where the program is started:
  passes     1 to 64, default 2: callers of the index; each worker needs one
  slices     1 to 1024, default 2: slices of 64 * 2^max_rank * blocks columns; a document takes a column
  blocks     1 to 64, default 1: words of 64 bits of a row of the highest rank in a slice
  max_rank   0 to 6, default 0: the highest rank of a row
  commits    1 to 16777216, default 1024: adds, puts and deletes that the journal keeps
  reserve    0 to 4194304, default 0: columns to be kept free
  one_in     2 to 20, default 10: one bit in so many is set in a shared row
  snr        1 to 1000, default 10: wanted ratio of documents with a word to others that its rows let pass
  documents  1 to 4294967296, default 1000: documents among which the listed words were counted
  tail       0 to 100000, default 10: words of a document that are not listed
  max_rows   1 to 1048576, default 65536: shared rows of one rank at most
  private    0 to 15, default 2: listed words up to this class have a row of their own
  words      at most 65536 words, default {}: the listed words, each with the documents that have it

Lines of run and serve, each with a reply:
  add N TEXT, put N TEXT       adds the document N; put also in the place of the live one
  del N, get N                 deletes it, tells its text
  find WORDS, query Q          the numbers of the documents
  count [Q]                    how many; without Q, of all documents
  newest M [Q], oldest M [Q]   that, and the numbers of at most M
  place, journal N, stats      commits, those after N, how full the index is
  recycle, tune JSON           empties a slice, gives statistics

Examples:
  printf 'add 7 The cat sat\\nfind CAT\\n' | funnel run
  printf 'add 7 The cat sat\\nquery (cat | dog) -bird\\n' | funnel run
  funnel serve --port 7000 --workers 2
  sed 's/^/add 1 /' sample.txt | funnel fit --documents 20000 >funnel.json
";

impl Text {
    /// All of it.
    pub fn as_str(self) -> &'static str
        ensures { result.now ≡ text_of self }
    {
        match self {
            Text::Help => HELP,
            Text::Version => VERSION,
        }
    }
}

/// The text that the words ask for: `--help`, `-h` and `help` are for the help, `--version` and `-V` for the version, each alone.
pub fn text_asked(words: &[&str]) -> Option<Text>
    ensures { result ≡ text_asked (words_in words.now) }
{
    match words {
        [word] => text_by(word),
        _ => None,
    }
}

fn text_by(word: &str) -> Option<Text>
    ensures { result ≡ text_by word.now }
{
    match word {
        "--help" | "-h" | "help" => Some(Text::Help),
        "--version" | "-V" => Some(Text::Version),
        _ => None,
    }
}

/// Writes the text on `output`, and gives how that ended: `Done`, or `WriteFault`. It takes no memory.
pub(crate) fn tell<K: Sink>(text: Text, output: &mut K) -> Why
    ensures told { IsTextWritten (text_of text) (K.outgoing output.old) (K.outgoing output.new) result }
    ensures borrowed { K.borrowed output.new ≡ K.borrowed output.old }
{
    match write_all(output, text.as_str().as_bytes()) {
        Ok(()) => Why::Done,
        Err(_) => Why::WriteFault,
    }
}

/// Words that ask for a text are no command.
pub fn words_for_a_text_are_no_command()
    ensures { (words : List (List ℕ)) → IsSome (text_asked words) → command_of words ≡ None }
{}
