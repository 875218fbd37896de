// The tables, and what document 01 says of each: sound ones, and ones that each break one rule and keep the others (max_crd 63
// cannot). Each is the wiring of document 01's session program with endpoints added, or put in place of its own.
use crate::{Host, Table, check_all};
use endpoint::{Endpoint, MemoryFields, ReceiveFields, SendFields};
use fixtures::endpoints::{Placed, RECEIVER, SENDER};
use std::io::{self, Write};

// The receiver of two slots, with four.
const FOUR_SLOTS: ReceiveFields = ReceiveFields {
    slots: 2,
    ..RECEIVER
};

// The receiver of two slots, with a message in one.
const OCCUPIED: ReceiveFields = ReceiveFields {
    occupied: 1,
    ..RECEIVER
};

// A reply endpoint of one credit.
const REPLIER: SendFields = SendFields {
    cur_crd: 1,
    max_crd: 1,
    reply: true,
    tgt_ep: 6,
    tgt_tile: 0,
    ..SENDER
};

// The second of the endpoints for replies to the receiver.
const MEMORY: Placed = Placed {
    tile: 1,
    ep: 21,
    endpoint: Endpoint::Memory(MemoryFields {
        act: 5,
        rw: 3,
        tile: 0,
        chip: 0,
        addr: 0,
        size: 4096,
    }),
};

// The receiver of two slots, with other reply endpoints, and in a part of the memory that the session leaves free.
fn apart(tile: u64, ep: u64, rpl_eps: u16) -> Placed {
    let r = ReceiveFields {
        rpl_eps,
        buffer: 3072,
        ..RECEIVER
    };
    Placed::receive(tile, ep, r)
}

// A sender with other credits.
fn credited(tile: u64, ep: u64, cur_crd: u8, max_crd: u8) -> Placed {
    let s = SendFields {
        cur_crd,
        max_crd,
        ..SENDER
    };
    Placed::send(tile, ep, s)
}

// The session's sender, aimed elsewhere.
fn aimed(tgt_chip: u8, tgt_tile: u8, tgt_ep: u16) -> Placed {
    let s = SendFields {
        tgt_chip,
        tgt_tile,
        tgt_ep,
        ..SENDER
    };
    Placed::send(0, 4, s)
}

// "per receive endpoint the max_crd aimed at it sum to at most 2^slots": in the last to exactly that.
pub fn sound<W: Write>(out: &mut W, session: &Host) -> io::Result<()> {
    let tables = [
        Table {
            name: "the session program's wiring",
            placed: &[],
            should: "yes",
        },
        Table {
            name: "max_crd 2, 1 and 1 aimed at a receiver of 4 slots",
            placed: &[
                Placed::receive(1, 7, FOUR_SLOTS),
                credited(0, 5, 1, 1),
                credited(1, 3, 1, 1),
            ],
            should: "yes",
        },
    ];
    check_all(out, session, &tables)
}

pub fn sound_ranges<W: Write>(out: &mut W, session: &Host) -> io::Result<()> {
    let tables = [
        // "shares none with another range on its tile": one ends where the next starts, or they are on two tiles.
        Table {
            name: "reply ranges of 2 from 20 and 22 on one tile",
            placed: &[apart(1, 8, 22)],
            should: "yes",
        },
        Table {
            name: "reply ranges of 2 from 20 on both tiles",
            placed: &[apart(0, 8, 20)],
            should: "yes",
        },
        // "each reply range ends at or below 64": at 64.
        Table {
            name: "a reply range of 2 from 62",
            placed: &[apart(1, 7, 62)],
            should: "yes",
        },
        // "An rpl_eps of 65535 has no range": none that ends past 64, and none that the two receivers of tile 0 could share.
        Table {
            name: "rpl_eps 65535 in all three receivers",
            placed: &[apart(0, 8, 65535), apart(1, 7, 65535)],
            should: "yes",
        },
    ];
    check_all(out, session, &tables)
}

pub fn not_at_rest<W: Write>(out: &mut W, session: &Host) -> io::Result<()> {
    let tables = [
        // "no reply endpoint": its one credit is aimed at a receiver of two slots, to which nothing else is aimed.
        Table {
            name: "a reply endpoint",
            placed: &[Placed::send(0, 5, REPLIER)],
            should: "no",
        },
        // "no occupied bit"
        Table {
            name: "an occupied bit",
            placed: &[Placed::receive(1, 7, OCCUPIED)],
            should: "no",
        },
    ];
    check_all(out, session, &tables)
}

pub fn broken_ranges<W: Write>(out: &mut W, session: &Host) -> io::Result<()> {
    let tables = [
        // "each reply range ends at or below 64": endpoint 63 is INVALID, and there is no 64.
        Table {
            name: "a reply range of 2 from 63",
            placed: &[apart(1, 7, 63)],
            should: "no",
        },
        // "holds only INVALID endpoints"
        Table {
            name: "a memory endpoint in a reply range",
            placed: &[MEMORY],
            should: "no",
        },
        // "shares none with another range on its tile": both hold endpoint 21.
        Table {
            name: "reply ranges of 2 from 20 and 21 on one tile",
            placed: &[apart(1, 8, 21)],
            should: "no",
        },
    ];
    check_all(out, session, &tables)
}

pub fn broken_credits<W: Write>(out: &mut W, session: &Host) -> io::Result<()> {
    let tables = [
        // "each send endpoint has cur_crd equal to max_crd"
        Table {
            name: "cur_crd 1, max_crd 2",
            placed: &[credited(0, 4, 1, 2)],
            should: "no",
        },
        Table {
            name: "cur_crd 2, max_crd 1",
            placed: &[credited(0, 4, 2, 1)],
            should: "no",
        },
        // "at most 62". Not alone: the slots are at most 32, so that a sum with 63 in it is too large as well.
        Table {
            name: "cur_crd 63, max_crd 63",
            placed: &[credited(0, 4, 63, 63)],
            should: "no",
        },
        // "per receive endpoint the max_crd aimed at it sum to at most 2^slots": to one more.
        Table {
            name: "max_crd 2, 1 and 2 aimed at a receiver of 4 slots",
            placed: &[
                Placed::receive(1, 7, FOUR_SLOTS),
                credited(0, 5, 1, 1),
                credited(1, 3, 2, 2),
            ],
            should: "no",
        },
    ];
    check_all(out, session, &tables)
}

// "aims at an existing receive endpoint"
pub fn broken_aims<W: Write>(out: &mut W, session: &Host) -> io::Result<()> {
    let tables = [
        Table {
            name: "a send endpoint aims at tile 2 of tiles 0 and 1",
            placed: &[aimed(0, 2, 7)],
            should: "no",
        },
        // "all on chip 0"
        Table {
            name: "a send endpoint aims at chip 1",
            placed: &[aimed(1, 1, 7)],
            should: "no",
        },
        Table {
            name: "a send endpoint aims at an INVALID endpoint",
            placed: &[aimed(0, 1, 8)],
            should: "no",
        },
        // "64 endpoints per tile": 71 is not one of tile 0, although tile 1's endpoint 7 is the one 71 places after tile 0's first.
        Table {
            name: "a send endpoint aims at endpoint 71 of tile 0",
            placed: &[aimed(0, 0, 71)],
            should: "no",
        },
    ];
    check_all(out, session, &tables)
}
