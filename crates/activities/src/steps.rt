// The calls of the session, in turn.
use crate::{GATE, LOGGER, SHARED, TO_LOGGER, TO_VAULT, VAULT};
use command::Registers;
use fixtures::host::Command;
use fixtures::opcode::Opcode;

// The opcodes of the privileged side; no privileged command has the last.
#[derive(Clone, Copy)]
pub enum Privileged {
    Idle = 0,
    XchgAct = 4,
    Other = 5,
}

#[derive(Clone, Copy)]
pub enum Call {
    Command(Command),
    // A privileged command of the shared tile.
    Privileged { opcode: Privileged, arg0: u64 },
    // The shared tile has seen its oldest request.
    Respond,
}

// A call, and its name in its line.
#[derive(Clone, Copy)]
pub struct Step {
    pub name: &'static str,
    pub call: Call,
}

// No bytes, and no reply is wanted. FETCH looks at no register, and ACK_MSG at arg0 alone.
const EMPTY: Registers = Registers {
    arg0: 65535,
    addr: 0,
    size: 0,
    arg1: 0,
};

const SEND_VAULT: Command = Command {
    tile: GATE,
    opcode: Opcode::Send,
    ep: TO_VAULT as u64,
    registers: EMPTY,
};

const SEND_LOGGER: Command = Command {
    ep: TO_LOGGER as u64,
    ..SEND_VAULT
};

const FETCH_VAULT: Command = Command {
    tile: SHARED,
    opcode: Opcode::Fetch,
    ep: TO_VAULT as u64,
    registers: EMPTY,
};

const FETCH_LOGGER: Command = Command {
    ep: TO_LOGGER as u64,
    ..FETCH_VAULT
};

// It frees slot 0.
const ACK_VAULT: Command = Command {
    opcode: Opcode::AckMsg,
    registers: Registers { arg0: 0, ..EMPTY },
    ..FETCH_VAULT
};

const ACK_LOGGER: Command = Command {
    ep: TO_LOGGER as u64,
    ..ACK_VAULT
};

const VAULT_FETCHES: Step = Step {
    name: "FETCH vault",
    call: Call::Command(FETCH_VAULT),
};

const LOGGER_FETCHES: Step = Step {
    name: "FETCH logger",
    call: Call::Command(FETCH_LOGGER),
};

const VAULT_FREES: Step = Step {
    name: "ACK_MSG vault",
    call: Call::Command(ACK_VAULT),
};

const LOGGER_FREES: Step = Step {
    name: "ACK_MSG logger",
    call: Call::Command(ACK_LOGGER),
};

const SEND_TO_VAULT: Step = Step {
    name: "SEND vault",
    call: Call::Command(SEND_VAULT),
};

pub const SEND_TO_LOGGER: Step = Step {
    name: "SEND logger",
    call: Call::Command(SEND_LOGGER),
};

const RESPONSE: Step = Step {
    name: "response",
    call: Call::Respond,
};

const XCHG_ACT: Call = Call::Privileged {
    opcode: Privileged::XchgAct,
    arg0: VAULT as u64,
};

// The vault's turn, with no unread message.
pub const VAULT_TURN: Step = Step {
    name: "XCHG_ACT vault",
    call: XCHG_ACT,
};

// Both get messages; only the vault, whose turn it is, has its own counted.
pub const VAULT_RUNS: [Step; 6] = [
    SEND_TO_VAULT,
    SEND_TO_LOGGER,
    SEND_TO_LOGGER,
    SEND_TO_LOGGER,
    VAULT_FETCHES,
    LOGGER_FETCHES,
];

// The logger's turn, with the two messages that it had; then the vault is the one that is told of.
pub const LOGGER_RUNS: [Step; 8] = [
    Step {
        name: "XCHG_ACT logger",
        call: Call::Privileged {
            opcode: Privileged::XchgAct,
            arg0: LOGGER as u64 + 2 * 65536,
        },
    },
    RESPONSE,
    LOGGER_FETCHES,
    LOGGER_FREES,
    SEND_TO_VAULT,
    RESPONSE,
    RESPONSE,
    RESPONSE,
];

// The count goes round at 65,536, both ways.
pub const COUNT_TURNS: [Step; 3] = [
    Step {
        name: "XCHG_ACT logger",
        call: Call::Privileged {
            opcode: Privileged::XchgAct,
            arg0: LOGGER as u64 + 65535 * 65536,
        },
    },
    SEND_TO_LOGGER,
    LOGGER_FETCHES,
];

// The logger frees both its slots in its turn, and gets a message in the vault's.
pub const ONE_MORE: [Call; 5] = [
    Call::Privileged {
        opcode: Privileged::XchgAct,
        arg0: LOGGER as u64,
    },
    Call::Command(ACK_LOGGER),
    Call::Command(Command {
        registers: Registers { arg0: 64, ..EMPTY },
        ..ACK_LOGGER
    }),
    XCHG_ACT,
    Call::Command(SEND_LOGGER),
];

// The queue is full: it takes no 65th until a response frees a place. A message for the vault, whose turn it is, needs none.
pub const QUEUE_FILLS: [Step; 5] = [
    SEND_TO_LOGGER,
    VAULT_FREES,
    SEND_TO_VAULT,
    RESPONSE,
    SEND_TO_LOGGER,
];

// A privileged command that does nothing, and one that there is not.
pub const UNKNOWN_PRIVILEGED: [Step; 2] = [
    Step {
        name: "privileged 0",
        call: Call::Privileged {
            opcode: Privileged::Idle,
            arg0: 0,
        },
    },
    Step {
        name: "privileged 5",
        call: Call::Privileged {
            opcode: Privileged::Other,
            arg0: 0,
        },
    },
];

// What is refused where a record claims 65 waiting.
pub const BAD_RECORD: [Step; 3] = [
    Step {
        name: "XCHG_ACT, 65",
        ..VAULT_TURN
    },
    Step {
        name: "response, 65",
        ..RESPONSE
    },
    Step {
        name: "SEND vault, 65",
        ..SEND_TO_VAULT
    },
];
