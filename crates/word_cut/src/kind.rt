//! The kinds of bytes by which a text of ASCII is cut into words.
ghost use Rattle.std.specs.Prelude.{◌≡◌, ◌<◌};
ghost use Rattle.word_cut.specs.Kinds.{kind_of_byte, is_in_word, joins};

/// The kinds of bytes of ASCII by which words are cut: values of Unicode's property Word_Break, which calls an underscore ExtendNumLet.
#[derive(Clone, Copy, Debug, PartialEq, Eq)]
pub(crate) enum Kind {
    Letter,
    Digit,
    Underscore,
    MidLetter,
    MidNumber,
    /// Between letters as a MidLetter, and between digits as a MidNumber.
    MidBoth,
    Other,
}

use Kind::{
    Digit as N, Letter as L, MidBoth as M, MidLetter as C, MidNumber as D, Other as O,
    Underscore as U,
};

/// The kind of each byte of ASCII.
static KINDS: [Kind; 128] = [
    O, O, O, O, O, O, O, O, O, O, O, O, O, O, O, O, O, O, O, O, O, O, O, O, O, O, O, O, O, O, O, O,
    O, O, O, O, O, O, O, M, O, O, O, O, D, O, M, O, N, N, N, N, N, N, N, N, N, N, C, D, O, O, O, O,
    O, L, L, L, L, L, L, L, L, L, L, L, L, L, L, L, L, L, L, L, L, L, L, L, L, L, L, O, O, O, O, U,
    O, L, L, L, L, L, L, L, L, L, L, L, L, L, L, L, L, L, L, L, L, L, L, L, L, L, L, O, O, O, O, O,
];

/// The kind of a byte of ASCII.
pub(crate) fn kind_of(byte: u8) -> Kind
    requires { byte < 128 }
    ensures { result ≡ kind_of_byte byte }
{
    KINDS[byte as usize]
}

/// Whether the kind is one of those that words are made of.
pub(crate) fn is_in_word(kind: Kind) -> bool
    ensures { result ≡ is_in_word kind }
{
    matches!(kind, Kind::Letter | Kind::Digit | Kind::Underscore)
}

/// Whether a byte of the middle kind, between one of the left and one of the right, is a part of their word.
pub(crate) fn joins(left: Kind, middle: Kind, right: Kind) -> bool
    ensures { result ≡ joins left middle right }
{
    match middle {
        Kind::MidLetter => left == Kind::Letter && right == Kind::Letter,
        Kind::MidNumber => left == Kind::Digit && right == Kind::Digit,
        Kind::MidBoth => left == right && matches!(left, Kind::Letter | Kind::Digit),
        _ => false,
    }
}
