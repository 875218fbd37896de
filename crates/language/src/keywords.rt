// The words that statements start with, and the kinds of endpoints.
use super::Named;

// The commands that have a name, in the order of their opcodes.
#[derive(Clone, Copy, Debug, PartialEq, Eq)]
pub enum Opcode {
    Idle,
    Send,
    Reply,
    Read,
    Write,
    Fetch,
    AckMsg,
}

#[derive(Clone, Copy, Debug, PartialEq, Eq)]
pub enum Keyword {
    Board,
    Activity,
    Endpoint,
    Invalidate,
    Bytes,
    // A command by its name.
    Named(Opcode),
    // A command by its opcode's number.
    Command,
    // The privileged side of a tile.
    XchgAct,
    Privileged,
    Respond,
    Wiring,
    Expect,
    Show,
    Dump,
    Waiting,
    Sheet,
    Drawing,
}

#[derive(Clone, Copy, Debug, PartialEq, Eq)]
pub enum EndpointKind {
    Send,
    Receive,
    Memory,
    Words,
}

impl Opcode {
    pub fn number(self) -> u64 {
        self as u64
    }

    pub fn name(self) -> &'static str {
        match self {
            Opcode::Idle => "IDLE",
            Opcode::Send => "SEND",
            Opcode::Reply => "REPLY",
            Opcode::Read => "READ",
            Opcode::Write => "WRITE",
            Opcode::Fetch => "FETCH",
            Opcode::AckMsg => "ACK_MSG",
        }
    }
}

impl Named for Keyword {
    fn all() -> &'static [Keyword] {
        &[
            Keyword::Board,
            Keyword::Activity,
            Keyword::Endpoint,
            Keyword::Invalidate,
            Keyword::Bytes,
            Keyword::Named(Opcode::Idle),
            Keyword::Named(Opcode::Send),
            Keyword::Named(Opcode::Reply),
            Keyword::Named(Opcode::Read),
            Keyword::Named(Opcode::Write),
            Keyword::Named(Opcode::Fetch),
            Keyword::Named(Opcode::AckMsg),
            Keyword::Command,
            Keyword::XchgAct,
            Keyword::Privileged,
            Keyword::Respond,
            Keyword::Wiring,
            Keyword::Expect,
            Keyword::Show,
            Keyword::Dump,
            Keyword::Waiting,
            Keyword::Sheet,
            Keyword::Drawing,
        ]
    }

    fn name(self) -> &'static str {
        match self {
            Keyword::Board => "board",
            Keyword::Activity => "activity",
            Keyword::Endpoint => "endpoint",
            Keyword::Invalidate => "invalidate",
            Keyword::Bytes => "bytes",
            Keyword::Named(opcode) => opcode.name(),
            Keyword::Command => "COMMAND",
            Keyword::XchgAct => "XCHG_ACT",
            Keyword::Privileged => "PRIVILEGED",
            Keyword::Respond => "respond",
            Keyword::Wiring => "wiring",
            Keyword::Expect => "expect",
            Keyword::Show => "show",
            Keyword::Dump => "dump",
            Keyword::Waiting => "waiting",
            Keyword::Sheet => "sheet",
            Keyword::Drawing => "drawing",
        }
    }
}

impl Named for EndpointKind {
    fn all() -> &'static [EndpointKind] {
        &[
            EndpointKind::Send,
            EndpointKind::Receive,
            EndpointKind::Memory,
            EndpointKind::Words,
        ]
    }

    fn name(self) -> &'static str {
        match self {
            EndpointKind::Send => "send",
            EndpointKind::Receive => "receive",
            EndpointKind::Memory => "memory",
            EndpointKind::Words => "words",
        }
    }
}
