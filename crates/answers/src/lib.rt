// The answers of document 01 ("Answers"), each by its name. One definition, `number_of`, gives the document's number.
#![tactic(auto)]

ghost use Rattle.std.specs.Prelude.{◌≡◌};
ghost use Rattle.answers.specs.Answers.{code_of, number_of, checked};

// Why a call was refused. A refusal changes no endpoint and no byte.
#[derive(Clone, Copy, PartialEq, Eq)]
pub enum Error {
    NoMep,
    NoSep,
    NoRep,
    ForeignEp,
    SendReplyEp,
    RecvGone,
    RecvNoSpace,
    RepliesDisabled,
    OutOfBounds,
    NoCredits,
    NoPerm,
    InvMsgOff,
    Abort,
    UnknownCmd,
    RecvOutOfBounds,
    RecvInvRplEps,
    SendInvCrdEp,
    SendInvMsgSz,
    TimeoutNoc,
    PageBoundary,
    MsgUnaligned,
    BadMachine,
    NoSuchTile,
    BadEp,
    BadConfig,
}

impl Error {
    // The document's number of a refusal.
    pub fn code(self) -> u32
        ensures { result ≡ code_of self }
    {
        match self {
            Error::NoMep => 1,
            Error::NoSep => 2,
            Error::NoRep => 3,
            Error::ForeignEp => 4,
            Error::SendReplyEp => 5,
            Error::RecvGone => 6,
            Error::RecvNoSpace => 7,
            Error::RepliesDisabled => 8,
            Error::OutOfBounds => 9,
            Error::NoCredits => 10,
            Error::NoPerm => 11,
            Error::InvMsgOff => 12,
            Error::Abort => 14,
            Error::UnknownCmd => 15,
            Error::RecvOutOfBounds => 16,
            Error::RecvInvRplEps => 17,
            Error::SendInvCrdEp => 18,
            Error::SendInvMsgSz => 19,
            Error::TimeoutNoc => 21,
            Error::PageBoundary => 22,
            Error::MsgUnaligned => 23,
            Error::BadMachine => 100,
            Error::NoSuchTile => 101,
            Error::BadEp => 102,
            Error::BadConfig => 103,
        }
    }
}

// The document's number of an answer: NONE, or a refusal.
// No `From`: the two types are the library's, and so is the trait.
pub fn number(answer: Result<(), Error>) -> u32
    ensures { result ≡ number_of answer }
{
    match answer {
        Ok(()) => 0,
        Err(e) => e.code(),
    }
}

// One check of a list: refuses by `error` where the test does not pass.
pub fn check(passes: bool, error: Error) -> Result<(), Error>
    ensures { result ≡ checked passes error }
{
    if passes { Ok(()) } else { Err(error) }
}
