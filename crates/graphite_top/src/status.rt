//! How a call of the program ended.
ghost use Rattle.std.specs.Prelude.{◌≡◌};

/// How a call of the program ended.
#[derive(Clone, Copy, Debug, PartialEq, Eq)]
pub enum Status {
    /// The report was written.
    Done,
    /// The text is no graph text; a refusal was written.
    TextRefused,
    /// The words are no command; a refusal was written, and the source was not touched.
    WordsRefused,
    /// The text was accepted, and its graph has not the vertex that the words name, or ends before an instant
    /// that they give, or the window that they give holds no instant, or the vertex whose journey is to be told is not
    /// alive then; a refusal was written.
    QueryRefused,
    /// The values of a program of journeys are not settled within the supersteps allowed; a refusal was written.
    Budget,
    /// A read failed; nothing was written.
    ReadFault,
    /// A write failed; a prefix of what would have come was written.
    WriteFault,
    /// Out of memory; a prefix of what would have come was written.
    NoMemory,
}

impl Status {
    ghost use Rattle.graphite_top.specs.Status.{code_of};

    /// The exit code of the program.
    pub fn code(self) -> u8
        ensures { result ≡ code_of self }
    {
        match self {
            Status::Done => 0,
            Status::TextRefused => 1,
            Status::WordsRefused => 2,
            Status::QueryRefused => 3,
            Status::Budget => 4,
            Status::ReadFault => 5,
            Status::WriteFault => 6,
            Status::NoMemory => 7,
        }
    }
}
