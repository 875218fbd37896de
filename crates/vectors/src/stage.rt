// The machine on which every case runs, made anew for each: two tiles, M 8192, activity 5 on both. The commands are those of
// tile 0 on its endpoint 4. A case says what endpoint 4 is, and endpoint 20, the first of the reply range that a receive
// endpoint has. The others are always the same: tile 0's endpoint 6 receives, and tile 1 has an endpoint for each way in which
// a delivery may end.
use board::Board;
use command::Registers;
use endpoint::{Endpoint, ReceiveFields, SendFields};
use fixtures::answered::Answered;
use fixtures::endpoints::{self, Placed, RECEIVER};
use fixtures::host::Command;
use fixtures::opcode::Opcode;
use std::fmt::Display;
use std::io::{self, Write};

pub type Host = fixtures::host::Host<16384>;

// Two tiles, with two pages each.
pub const BOARD: Board = Board {
    tiles: 2,
    pages: 0x02_02,
};

// Tile 1's endpoint with two free slots of 256 bytes, and a reply range of two.
pub const READY: u16 = 7;

// The same with no free slot.
pub const FULL: u16 = 8;

// The same with slots of 32 bytes, which the header fills.
pub const SMALL: u16 = 9;

// The same with a reply range that ends at 65.
pub const PAST: u16 = 10;

// An INVALID endpoint of tile 1.
pub const GONE: u16 = 11;

// It sends to READY, with no endpoint for credits.
pub const SENDER: SendFields = SendFields {
    crd_ep: 65535,
    ..endpoints::SENDER
};

// Registers that a command does not look at.
pub const UNUSED: Registers = Registers {
    arg0: 0,
    addr: 0,
    size: 0,
    arg1: 0,
};

// Where the first word of tile 1's endpoint 63 lies.
const LAST_ENDPOINT: usize = 381;

// A command, the machine on which it runs, and what comes of it.
#[derive(Clone, Copy)]
pub struct Case {
    pub what: &'static str,
    // The number that document 01 gives for the answer. It stands in figures, so that a wrong one of the machine's shows.
    pub should: u32,
    pub tile: u64,
    pub opcode: Opcode,
    pub ep: u64,
    pub registers: Registers,
    // With which board the host calls the machine.
    pub board: Board,
    // Endpoints 4 and 20 of tile 0.
    pub acting: Endpoint,
    pub reply: Endpoint,
    // The first word of tile 1's endpoint 63, which is not configured but written past the machine.
    pub stray: u64,
}

impl Case {
    // A command of tile 0 on endpoint 4, with no endpoint 20.
    pub fn of(opcode: Opcode, acting: Endpoint, registers: Registers) -> Case {
        Case {
            what: "",
            should: 0,
            tile: 0,
            opcode,
            ep: 4,
            registers,
            board: BOARD,
            acting,
            reply: Endpoint::Invalid,
            stray: 0,
        }
    }

    // The same with that many bytes from a local address on.
    pub fn with_bytes(self, addr: u64, size: u64) -> Case {
        Case {
            registers: Registers {
                addr,
                size,
                ..self.registers
            },
            ..self
        }
    }

    // Has the command carried out on a fresh machine; what its host then lends comes back too.
    pub fn play(&self) -> io::Result<(Answered, Host)> {
        let r = RECEIVER;
        let mut host = Host::new(BOARD, [5, 5]);
        host.set_up(&[
            Placed {
                tile: 0,
                ep: 4,
                endpoint: self.acting,
            },
            Placed {
                tile: 0,
                ep: 20,
                endpoint: self.reply,
            },
            Placed::receive(0, 6, r),
            Placed::receive(1, u64::from(READY), r),
            Placed::receive(
                1,
                u64::from(FULL),
                ReceiveFields {
                    occupied: 3,
                    unread: 3,
                    ..r
                },
            ),
            Placed::receive(1, u64::from(SMALL), ReceiveFields { slot_size: 5, ..r }),
            Placed::receive(1, u64::from(PAST), ReceiveFields { rpl_eps: 63, ..r }),
        ])?;
        host.words[LAST_ENDPOINT] = self.stray;
        host.board = self.board;
        let done = host.command(Command {
            tile: self.tile,
            opcode: self.opcode,
            ep: self.ep,
            registers: self.registers,
        });
        Ok((Answered::of(self.registers.arg1, done), host))
    }
}

// A case's line: the name of the call, what the case is, what came back, and what should have.
pub fn report<W: Write, C: Display + Drop>(
    out: &mut W,
    call: C,
    what: &str,
    came: u32,
    should: u32,
) -> io::Result<()> {
    writeln!(out, "{call:<12}{what:<42}{came:>3} should be {should:>3}")
}

pub fn run<W: Write>(out: &mut W, cases: &[Case]) -> io::Result<()> {
    for case in cases {
        let (answered, _) = case.play()?;
        report(out, case.opcode, case.what, answered.number, case.should)?;
    }
    Ok(())
}

// The host's refusals, which come before all others: a tile has fewer pages than are lent, the table is not good, and the acting
// tile does not exist.
pub fn host_refusals(sound: Case) -> [Case; 3] {
    [
        Case {
            what: "tile 1 has one page, two are lent",
            should: 100,
            board: Board {
                tiles: 2,
                pages: 0x01_02,
            },
            ..sound
        },
        Case {
            what: "an endpoint is of type 4",
            should: 100,
            stray: 4,
            ..sound
        },
        Case {
            what: "the acting tile is 2",
            should: 101,
            tile: 2,
            ..sound
        },
    ]
}

// The refusal of a command that asks for an endpoint of some kind, and finds none: endpoint 4 is INVALID, and endpoint 64 reads
// as INVALID.
pub fn endpoint_missing(sound: Case, should: u32) -> [Case; 2] {
    let missing = Case {
        should,
        ..Case::of(sound.opcode, Endpoint::Invalid, sound.registers)
    };
    [
        Case {
            what: "the endpoint is INVALID",
            ..missing
        },
        Case {
            what: "the endpoint is 64",
            ep: 64,
            ..missing
        },
    ]
}
