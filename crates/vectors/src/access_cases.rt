// The answers of READ and WRITE. Their checks are the same, but for the permission that they ask.
use crate::stage::{Case, UNUSED, endpoint_missing, host_refusals, run};
use command::Registers;
use endpoint::{Endpoint, MemoryFields};
use fixtures::opcode::Opcode;
use std::io::{self, Write};

// The permissions of a memory endpoint.
const MAY_READ: u8 = 1;

const MAY_WRITE: u8 = 2;

// 1024 bytes of tile 1, from 4096 on.
fn region(rw: u8) -> MemoryFields {
    MemoryFields {
        act: 5,
        rw,
        tile: 1,
        chip: 0,
        addr: 4096,
        size: 1024,
    }
}

// The checks of the endpoint. The permission that is asked is that of the region m.
fn endpoint_cases(sound: Case, m: MemoryFields, wrong: u8) -> [Case; 2] {
    [
        Case {
            what: "the endpoint is activity 6's",
            should: 4,
            acting: Endpoint::Memory(MemoryFields { act: 6, ..m }),
            ..sound
        },
        Case {
            what: "the other permission only",
            should: 11,
            acting: Endpoint::Memory(MemoryFields { rw: wrong, ..m }),
            ..sound
        },
    ]
}

// Bytes at the local address 0, and from ARG_1 on in the region.
fn remote(size: u64, arg1: u64) -> Registers {
    Registers {
        size,
        arg1,
        ..UNUSED
    }
}

fn remote_cases(sound: Case) -> [Case; 4] {
    [
        // size zero is answered before the ranges are looked at
        Case {
            what: "size 0, ARG_1 past the region",
            registers: remote(0, 1025),
            ..sound
        },
        Case {
            what: "size 0, ARG_1 2^64 - 1",
            registers: remote(0, u64::MAX),
            ..sound
        },
        Case {
            what: "size 16, 15 bytes are left",
            should: 9,
            registers: remote(16, 1009),
            ..sound
        },
        Case {
            what: "size 1, ARG_1 2^64 - 1",
            should: 9,
            registers: remote(1, u64::MAX),
            ..sound
        },
    ]
}

// The page rule, and both ranges where they may lie outside a tile.
fn range_cases(sound: Case, m: MemoryFields) -> [Case; 5] {
    [
        Case {
            what: "17 bytes across a page",
            should: 22,
            ..sound.with_bytes(4080, 17)
        },
        Case {
            what: "the region is on chip 1",
            should: 14,
            acting: Endpoint::Memory(MemoryFields { chip: 1, ..m }),
            ..sound
        },
        Case {
            what: "the region is on tile 2",
            should: 14,
            acting: Endpoint::Memory(MemoryFields { tile: 2, ..m }),
            ..sound
        },
        Case {
            what: "the remote range leaves M",
            should: 14,
            acting: Endpoint::Memory(MemoryFields { addr: 8177, ..m }),
            ..sound
        },
        Case {
            what: "the local range leaves M",
            should: 14,
            ..sound.with_bytes(8192, 16)
        },
    ]
}

// The cases of READ or WRITE, which needs the permission `right`; `wrong` is the other one.
fn access_cases<W: Write>(out: &mut W, opcode: Opcode, right: u8, wrong: u8) -> io::Result<()> {
    let m = region(right);
    let sound = Case::of(opcode, Endpoint::Memory(m), remote(16, 0));
    run(out, &host_refusals(sound))?;
    run(out, &endpoint_missing(sound, 1))?;
    run(out, &endpoint_cases(sound, m, wrong))?;
    run(out, &remote_cases(sound))?;
    run(out, &range_cases(sound, m))?;
    let accepted = [
        Case {
            what: "accepted",
            ..sound
        },
        Case {
            what: "accepted, both permissions",
            acting: Endpoint::Memory(region(MAY_READ + MAY_WRITE)),
            ..sound
        },
    ];
    run(out, &accepted)
}

pub fn read_cases<W: Write>(out: &mut W) -> io::Result<()> {
    access_cases(out, Opcode::Read, MAY_READ, MAY_WRITE)
}

pub fn write_cases<W: Write>(out: &mut W) -> io::Result<()> {
    access_cases(out, Opcode::Write, MAY_WRITE, MAY_READ)
}
