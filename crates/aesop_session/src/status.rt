//! Statuses.

ghost use Rattle.std.specs.Prelude.{◌≡◌};
ghost use Rattle.aesop_session.specs.Statuses.{code_of};

/// How the program ended.
#[derive(Clone, Copy, Debug, PartialEq, Eq)]
pub enum Status {
    /// Every block is proved.
    AllProved,
    /// A block is stuck, and none is spent.
    SomeStuck,
    /// A block is spent.
    SomeSpent,
    /// The input is refused: it is no file, or one of its declarations is refused.
    FileRefused,
    /// The words are no command line.
    Usage,
    /// More bytes than the limit were read.
    TooLong,
    /// The source failed.
    ReadFault,
    /// The sink failed, or took nothing of a piece that isn't empty.
    WriteFault,
    /// Memory ran out.
    NoMemory,
    /// The document of answers isn't right for the file.
    AnswersRefused,
}

impl Status {
    /// The number that the program ends with.
    pub fn code(&self) -> u8
        ensures { result ≡ code_of self.now }
    {
        match self {
            Status::AllProved => 0,
            Status::SomeStuck => 1,
            Status::SomeSpent => 2,
            Status::FileRefused => 3,
            Status::Usage => 4,
            Status::TooLong => 5,
            Status::ReadFault => 6,
            Status::WriteFault => 7,
            Status::NoMemory => 8,
            Status::AnswersRefused => 9,
        }
    }
}
