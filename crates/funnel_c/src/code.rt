ghost use Rattle.std.specs.Prelude.{◌≡◌};
ghost use Rattle.funnel_c.specs.Codes.{number_of};

/// What a call of C is answered: that it is done, or why not. `funnel.h` names their numbers.
#[derive(Clone, Copy)]
pub enum Code {
    /// The call is done.
    Done,
    /// The handle has no index: it was never opened, or is closed.
    Closed,
    /// The handle has an index already.
    Open,
    /// A text is not UTF-8.
    NotUtf8,
    /// The bytes are no configuration.
    NoConfig,
    /// The number is live.
    Present,
    /// No column is left for the document.
    Full,
    /// The number is not live.
    Absent,
    /// The journal no longer keeps a commit that was asked for.
    Trimmed,
    /// The text is no boolean query.
    Syntax,
    /// The query nests too deep.
    Deep,
    /// The history has so many events that no call is taken any more.
    Spent,
    /// No memory was found.
    Memory,
    /// No configuration fits the documents.
    Misfit,
}

impl Code {
    /// Its number in C.
    pub fn number(self) -> u32
        ensures { result ≡ number_of self }
    {
        match self {
            Code::Done => 0,
            Code::Closed => 1,
            Code::Open => 2,
            Code::NotUtf8 => 3,
            Code::NoConfig => 4,
            Code::Present => 5,
            Code::Full => 6,
            Code::Absent => 7,
            Code::Trimmed => 8,
            Code::Syntax => 9,
            Code::Deep => 10,
            Code::Spent => 11,
            Code::Memory => 12,
            Code::Misfit => 13,
        }
    }
}
