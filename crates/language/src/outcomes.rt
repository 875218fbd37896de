// What a statement answers, each by its name.
ghost use Rattle.std.specs.Prelude.{◌≡◌, Some, None};
ghost use Rattle.answers.specs.Answers.{code_of};
ghost use Rattle.answers.specs.declared.Error.{Error};

use super::Named;
use answers::Error;

#[derive(Clone, Copy, PartialEq, Eq)]
pub enum Outcome {
    // NONE: nothing speaks against it.
    Done,
    Refused(Error),
    // Whether the wiring is sound.
    Yes,
    No,
}

impl Outcome {
    // The number that document 01 gives an answer; yes and no have none.
    pub fn number(self) -> Option<u32>
        ensures done { self ≡ Outcome.Done → result ≡ Some 0 }
        ensures refused { (error : Error) → self ≡ Outcome.Refused error → result ≡ Some (code_of error) }
    {
        match self {
            Outcome::Done => Some(0),
            Outcome::Refused(e) => Some(e.code()),
            Outcome::Yes | Outcome::No => None,
        }
    }
}

fn refusal(e: Error) -> &'static str {
    match e {
        Error::NoMep => "NO_MEP",
        Error::NoSep => "NO_SEP",
        Error::NoRep => "NO_REP",
        Error::ForeignEp => "FOREIGN_EP",
        Error::SendReplyEp => "SEND_REPLY_EP",
        Error::RecvGone => "RECV_GONE",
        Error::RecvNoSpace => "RECV_NO_SPACE",
        Error::RepliesDisabled => "REPLIES_DISABLED",
        Error::OutOfBounds => "OUT_OF_BOUNDS",
        Error::NoCredits => "NO_CREDITS",
        Error::NoPerm => "NO_PERM",
        Error::InvMsgOff => "INV_MSG_OFF",
        Error::Abort => "ABORT",
        Error::UnknownCmd => "UNKNOWN_CMD",
        Error::RecvOutOfBounds => "RECV_OUT_OF_BOUNDS",
        Error::RecvInvRplEps => "RECV_INV_RPL_EPS",
        Error::SendInvCrdEp => "SEND_INV_CRD_EP",
        Error::SendInvMsgSz => "SEND_INV_MSG_SZ",
        Error::TimeoutNoc => "TIMEOUT_NOC",
        Error::PageBoundary => "PAGE_BOUNDARY",
        Error::MsgUnaligned => "MSG_UNALIGNED",
        Error::BadMachine => "BAD_MACHINE",
        Error::NoSuchTile => "NO_SUCH_TILE",
        Error::BadEp => "BAD_EP",
        Error::BadConfig => "BAD_CONFIG",
    }
}

impl Named for Outcome {
    fn all() -> &'static [Outcome] {
        &[
            Outcome::Done,
            Outcome::Refused(Error::NoMep),
            Outcome::Refused(Error::NoSep),
            Outcome::Refused(Error::NoRep),
            Outcome::Refused(Error::ForeignEp),
            Outcome::Refused(Error::SendReplyEp),
            Outcome::Refused(Error::RecvGone),
            Outcome::Refused(Error::RecvNoSpace),
            Outcome::Refused(Error::RepliesDisabled),
            Outcome::Refused(Error::OutOfBounds),
            Outcome::Refused(Error::NoCredits),
            Outcome::Refused(Error::NoPerm),
            Outcome::Refused(Error::InvMsgOff),
            Outcome::Refused(Error::Abort),
            Outcome::Refused(Error::UnknownCmd),
            Outcome::Refused(Error::RecvOutOfBounds),
            Outcome::Refused(Error::RecvInvRplEps),
            Outcome::Refused(Error::SendInvCrdEp),
            Outcome::Refused(Error::SendInvMsgSz),
            Outcome::Refused(Error::TimeoutNoc),
            Outcome::Refused(Error::PageBoundary),
            Outcome::Refused(Error::MsgUnaligned),
            Outcome::Refused(Error::BadMachine),
            Outcome::Refused(Error::NoSuchTile),
            Outcome::Refused(Error::BadEp),
            Outcome::Refused(Error::BadConfig),
            Outcome::Yes,
            Outcome::No,
        ]
    }

    fn name(self) -> &'static str {
        match self {
            Outcome::Done => "NONE",
            Outcome::Refused(e) => refusal(e),
            Outcome::Yes => "yes",
            Outcome::No => "no",
        }
    }
}
