// Document 01's session program: two tiles, M 4096, activity 5 everywhere. Nine commands, and after each a line of five
// numbers: step, answer, ARG_1, cur_crd of tile 0's endpoint 4, occupied of tile 1's endpoint 7.
#![tactic(auto)]

use board::Board;
use command::Registers;
use fixtures::answered::Answered;
use fixtures::endpoints::SESSION;
use fixtures::host::{Command, Host};
use fixtures::opcode::Opcode;
use std::io::{self, Write};

// Two tiles, with a page each.
const BOARD: Board = Board {
    tiles: 2,
    pages: 0x01_01,
};

// Registers that a command does not look at.
const UNUSED: Registers = Registers {
    arg0: 0,
    addr: 0,
    size: 0,
    arg1: 0,
};

// 16 bytes, and no reply is wanted.
const MESSAGE: Registers = Registers {
    arg0: 65535,
    addr: 0,
    size: 16,
    arg1: 77,
};

const SEND: Command = Command {
    tile: 0,
    opcode: Opcode::Send,
    ep: 4,
    registers: MESSAGE,
};

// A SEND whose reply is to come to endpoint 6.
const REQUEST: Command = Command {
    registers: Registers { arg0: 6, ..MESSAGE },
    ..SEND
};

const FETCH: Command = Command {
    tile: 1,
    opcode: Opcode::Fetch,
    ep: 7,
    registers: UNUSED,
};

// 32 bytes to the message in slot 0.
const REPLY: Command = Command {
    opcode: Opcode::Reply,
    registers: Registers { size: 32, ..UNUSED },
    ..FETCH
};

// The same for slot 1.
const SECOND_REPLY: Command = Command {
    registers: Registers {
        arg0: 256,
        size: 32,
        ..UNUSED
    },
    ..REPLY
};

const SECOND_ACK_MSG: Command = Command {
    opcode: Opcode::AckMsg,
    registers: Registers {
        arg0: 256,
        ..UNUSED
    },
    ..FETCH
};

const FETCH_REPLY: Command = Command {
    tile: 0,
    ep: 6,
    ..FETCH
};

const STEPS: [Command; 9] = [
    REQUEST,
    SEND,
    SEND,
    FETCH,
    REPLY,
    SECOND_REPLY,
    SECOND_ACK_MSG,
    FETCH_REPLY,
    FETCH_REPLY,
];

// The line of step n, where `host` lends what it left.
fn line<W: Write>(out: &mut W, n: usize, answered: Answered, host: &Host<8192>) -> io::Result<()> {
    // No cur_crd is 64, and with two slots occupied is never 4: they would say that the endpoint is of another kind.
    let credits = host.sender(0, 4).map_or(64, |s| u32::from(s.cur_crd));
    let occupied = host.receiver(1, 7).map_or(4, |r| r.occupied);
    writeln!(out, "{n} {answered} {credits} {occupied}")
}

fn main(rt: HostRuntime) -> io::Result<()> {
    let mut out = io::writer(&rt);
    let mut host = Host::new(BOARD, [5, 5]);
    host.set_up(&SESSION)?;
    for (i, step) in STEPS.iter().enumerate() {
        let done = host.command(*step);
        line(
            &mut out,
            i + 1,
            Answered::of(step.registers.arg1, done),
            &host,
        )?;
    }
    out.flush()
}
