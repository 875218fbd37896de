// The answers of IDLE, of an opcode that no command has, and of the host's own calls.
use crate::listed::P1;
use crate::stage::{BOARD, Case, Host, SENDER, UNUSED, host_refusals, report, run};
use board::Board;
use endpoint::{Endpoint, ReceiveFields, SendFields, Words};
use fixtures::endpoints::RECEIVER;
use fixtures::opcode::Opcode;
use std::io::{self, Write};

// ---- commands that look at no endpoint

fn no_endpoint_cases<W: Write>(
    out: &mut W,
    opcode: Opcode,
    what: &'static str,
    should: u32,
) -> io::Result<()> {
    let sound = Case::of(opcode, Endpoint::Invalid, UNUSED);
    run(out, &host_refusals(sound))?;
    let only = Case {
        what,
        should,
        ..sound
    };
    run(out, &[only])
}

pub fn idle_cases<W: Write>(out: &mut W) -> io::Result<()> {
    no_endpoint_cases(out, Opcode::Idle, "accepted", 0)
}

pub fn other_opcode_cases<W: Write>(out: &mut W) -> io::Result<()> {
    no_endpoint_cases(out, Opcode::Other, "no command has it", 15)
}

// ---- the host's own calls

// A call with what it is given, and the number that document 01 gives for its answer, in figures as in a `Case`.
#[derive(Clone, Copy)]
struct Given<T> {
    what: &'static str,
    should: u32,
    given: T,
}

// The lines of a call's cases; `number` is that of its answer.
fn run_given<W: Write, T: Copy, F: Fn(T) -> u32>(
    out: &mut W,
    call: &str,
    cases: &[Given<T>],
    number: F,
) -> io::Result<()>
    requires { F.IsAlwaysCallable number }
{
    for case in cases {
        report(out, call, case.what, number(case.given), case.should)?;
    }
    Ok(())
}

// Which endpoint is meant, and with which board the host calls the machine.
#[derive(Clone, Copy)]
struct Place {
    board: Board,
    tile: u64,
    ep: u64,
}

// The last endpoint of all.
const LAST: Place = Place {
    board: BOARD,
    tile: 1,
    ep: 63,
};

// A board for which not enough is lent.
const THREE_TILES: Board = Board {
    tiles: 3,
    pages: 0x02_02_02,
};

// The words of P1, a send endpoint.
const P1_WORDS: Words = Words {
    first: 0x001F_FFE4_0410_0029,
    second: 0x3_0007,
    third: 0,
};

// The same with a bit set that no field has.
const BIT_54: Words = Words {
    first: 0x005F_FFE4_0410_0029,
    ..P1_WORDS
};

// Words of a type that no endpoint has.
const TYPE_4: Words = Words {
    first: 4,
    second: 0,
    third: 0,
};

// The numbers of the answers on a host whose words, records and bytes are zero.
fn configured(p: Place, w: Words) -> u32 {
    let mut host = Host::new(p.board, [0, 0]);
    answers::number(host.configure(p.tile, p.ep, w))
}

fn invalidated(p: Place) -> u32 {
    let mut host = Host::new(p.board, [0, 0]);
    answers::number(host.invalidate(p.tile, p.ep))
}

// What neither takes.
const MISPLACED: [Given<Place>; 3] = [
    Given {
        what: "three tiles, two are lent",
        should: 100,
        given: Place {
            board: THREE_TILES,
            ..LAST
        },
    },
    Given {
        what: "tile 2",
        should: 101,
        given: Place { tile: 2, ..LAST },
    },
    Given {
        what: "endpoint 64",
        should: 102,
        given: Place { ep: 64, ..LAST },
    },
];

const CONFIGURED: [Given<Words>; 3] = [
    Given {
        what: "the type is 4",
        should: 103,
        given: TYPE_4,
    },
    Given {
        what: "bit 54 of a send endpoint is set",
        should: 103,
        given: BIT_54,
    },
    Given {
        what: "accepted, the words of P1",
        should: 0,
        given: P1_WORDS,
    },
];

pub fn configure_cases<W: Write>(out: &mut W) -> io::Result<()> {
    run_given(out, "configure", &MISPLACED, |p| configured(p, P1_WORDS))?;
    run_given(out, "configure", &CONFIGURED, |w| configured(LAST, w))
}

pub fn invalidate_cases<W: Write>(out: &mut W) -> io::Result<()> {
    run_given(out, "invalidate", &MISPLACED, invalidated)?;
    let accepted = Given {
        what: "accepted",
        should: 0,
        given: LAST,
    };
    run_given(out, "invalidate", &[accepted], invalidated)
}

// ---- words into fields, and fields into words, where a tile has that much memory

fn unpacked((memory, w): (u64, Words)) -> u32 {
    answers::number(endpoint::unpack(memory, w).map(|_| ()))
}

pub fn unpack_cases<W: Write>(out: &mut W) -> io::Result<()> {
    let cases = [
        Given {
            what: "M is 6144, no multiple of 4096",
            should: 100,
            given: (6144, P1_WORDS),
        },
        Given {
            what: "the type is 4",
            should: 103,
            given: (8192, TYPE_4),
        },
        Given {
            what: "bit 54 of a send endpoint is set",
            should: 103,
            given: (8192, BIT_54),
        },
        Given {
            what: "accepted, the words of P1",
            should: 0,
            given: (8192, P1_WORDS),
        },
    ];
    run_given(out, "into fields", &cases, unpacked)
}

fn packed((memory, e): (u64, Endpoint)) -> u32 {
    answers::number(endpoint::pack(memory, e).map(|_| ()))
}

pub fn pack_cases<W: Write>(out: &mut W) -> io::Result<()> {
    let s = SendFields {
        msg_sz: 64,
        ..SENDER
    };
    let r = ReceiveFields {
        slots: 6,
        ..RECEIVER
    };
    let cases = [
        Given {
            what: "M is 69632, above 65536",
            should: 100,
            given: (69632, P1),
        },
        Given {
            what: "msg_sz is 64",
            should: 103,
            given: (8192, Endpoint::Send(s)),
        },
        Given {
            what: "slots is 6",
            should: 103,
            given: (8192, Endpoint::Receive(r)),
        },
        Given {
            what: "accepted, the fields of P1",
            should: 0,
            given: (8192, P1),
        },
    ];
    run_given(out, "into words", &cases, packed)
}
