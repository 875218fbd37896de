// The answers of SEND and REPLY.
use crate::slot_cases::named_slot_cases;
use crate::stage::{
    Case, FULL, GONE, PAST, SENDER, SMALL, UNUSED, endpoint_missing, host_refusals, run,
};
use command::Registers;
use endpoint::{Endpoint, ReceiveFields, SendFields};
use fixtures::endpoints::RECEIVER;
use fixtures::opcode::Opcode;
use std::io::{self, Write};

// ---- what both ask

impl Case {
    // The same with s as the send endpoint through which the message goes: that of a SEND acts, that of a REPLY is for replies.
    fn through(self, s: SendFields) -> Case {
        let endpoint = Endpoint::Send(s);
        match self.opcode {
            Opcode::Reply => Case {
                reply: endpoint,
                ..self
            },
            _ => Case {
                acting: endpoint,
                ..self
            },
        }
    }
}

// The message: its length, and where it starts. s is the sound send endpoint.
fn message_cases(sound: Case, s: SendFields) -> [Case; 4] {
    [
        Case {
            what: "msg_sz is 12",
            should: 19,
            ..sound.through(SendFields { msg_sz: 12, ..s })
        },
        Case {
            what: "225 bytes, msg_sz is 8",
            should: 9,
            ..sound.with_bytes(0, 225)
        },
        Case {
            what: "the address is 8",
            should: 23,
            ..sound.with_bytes(8, 16)
        },
        Case {
            what: "17 bytes across a page",
            should: 22,
            ..sound.with_bytes(4080, 17)
        },
    ]
}

// The bytes outside the tile's memory.
fn range_cases(sound: Case) -> [Case; 2] {
    [
        Case {
            what: "16 bytes from M on",
            should: 14,
            ..sound.with_bytes(8192, 16)
        },
        Case {
            what: "no bytes, from M + 16 on",
            should: 14,
            ..sound.with_bytes(8208, 0)
        },
    ]
}

fn delivery_cases(sound: Case, s: SendFields) -> [Case; 6] {
    [
        Case {
            what: "the target is on chip 1",
            should: 21,
            ..sound.through(SendFields { tgt_chip: 1, ..s })
        },
        Case {
            what: "the target is on tile 2",
            should: 21,
            ..sound.through(SendFields { tgt_tile: 2, ..s })
        },
        Case {
            what: "the target is INVALID",
            should: 6,
            ..sound.through(SendFields { tgt_ep: GONE, ..s })
        },
        Case {
            what: "16 bytes and a header, slots of 32",
            should: 16,
            ..sound.through(SendFields { tgt_ep: SMALL, ..s })
        },
        Case {
            what: "the target's reply range ends at 65",
            should: 17,
            ..sound.through(SendFields { tgt_ep: PAST, ..s })
        },
        Case {
            what: "the target has no free slot",
            should: 7,
            ..sound.through(SendFields { tgt_ep: FULL, ..s })
        },
    ]
}

// ---- SEND

// A request for which no reply is wanted.
const REQUEST: Registers = Registers {
    arg0: 65535,
    addr: 0,
    size: 16,
    arg1: 77,
};

// A request whose reply is to come to endpoint arg0.
fn request_with(arg0: u64) -> Registers {
    Registers { arg0, ..REQUEST }
}

fn send_endpoint_cases(sound: Case) -> [Case; 2] {
    [
        Case {
            what: "the endpoint has a reply mark",
            should: 5,
            acting: Endpoint::Send(SendFields {
                reply: true,
                ..SENDER
            }),
            ..sound
        },
        Case {
            what: "the endpoint is activity 6's",
            should: 4,
            acting: Endpoint::Send(SendFields { act: 6, ..SENDER }),
            ..sound
        },
    ]
}

// The endpoint that is to get the reply.
fn wanted_reply_cases(sound: Case) -> [Case; 2] {
    [
        Case {
            what: "arg0 names an INVALID endpoint",
            should: 3,
            registers: request_with(5),
            ..sound
        },
        Case {
            what: "arg0 is 64",
            should: 3,
            registers: request_with(64),
            ..sound
        },
    ]
}

pub fn send_cases<W: Write>(out: &mut W) -> io::Result<()> {
    let sound = Case::of(Opcode::Send, Endpoint::Send(SENDER), REQUEST);
    run(out, &host_refusals(sound))?;
    run(out, &endpoint_missing(sound, 2))?;
    run(out, &send_endpoint_cases(sound))?;
    run(out, &message_cases(sound, SENDER))?;
    run(out, &wanted_reply_cases(sound))?;
    run(out, &range_cases(sound))?;
    let no_credit = Case {
        what: "no credit is left",
        should: 10,
        acting: Endpoint::Send(SendFields {
            cur_crd: 0,
            ..SENDER
        }),
        ..sound
    };
    run(out, &[no_credit])?;
    run(out, &delivery_cases(sound, SENDER))?;
    let accepted = [
        Case {
            what: "accepted, no reply is wanted",
            ..sound
        },
        Case {
            what: "accepted, a reply is wanted",
            registers: request_with(6),
            ..sound
        },
    ];
    run(out, &accepted)
}

// ---- REPLY

// It replies to tile 1's endpoint READY.
const REPLIER: SendFields = SendFields {
    reply: true,
    ..SENDER
};

// The reply endpoint: that there is one, and that it is sound.
fn reply_endpoint_cases(sound: Case) -> [Case; 3] {
    [
        Case {
            what: "slot 1 has no reply endpoint",
            should: 2,
            registers: Registers {
                arg0: 256,
                ..sound.registers
            },
            ..sound
        },
        Case {
            what: "slot 0's endpoint has no mark",
            should: 5,
            ..sound.through(SENDER)
        },
        Case {
            what: "crd_ep is 64",
            should: 18,
            ..sound.through(SendFields {
                crd_ep: 64,
                ..REPLIER
            })
        },
    ]
}

pub fn reply_cases<W: Write>(out: &mut W) -> io::Result<()> {
    let r = ReceiveFields {
        occupied: 1,
        ..RECEIVER
    };
    let a = Registers { size: 16, ..UNUSED };
    let sound = Case::of(Opcode::Reply, Endpoint::Receive(r), a).through(REPLIER);
    run(out, &host_refusals(sound))?;
    run(out, &endpoint_missing(sound, 3))?;
    let disabled = Case {
        what: "rpl_eps is 65535",
        should: 8,
        acting: Endpoint::Receive(ReceiveFields {
            rpl_eps: 65535,
            ..r
        }),
        ..sound
    };
    run(out, &[disabled])?;
    run(out, &named_slot_cases(sound, r))?;
    run(out, &reply_endpoint_cases(sound))?;
    run(out, &message_cases(sound, REPLIER))?;
    run(out, &range_cases(sound))?;
    run(out, &delivery_cases(sound, REPLIER))?;
    let accepted = [
        Case {
            what: "accepted, crd_ep is 65535",
            ..sound
        },
        Case {
            what: "accepted, crd_ep is 63",
            ..sound.through(SendFields {
                crd_ep: 63,
                ..REPLIER
            })
        },
    ];
    run(out, &accepted)
}
