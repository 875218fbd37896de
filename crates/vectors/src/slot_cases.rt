// The answers of FETCH and ACK_MSG.
use crate::stage::{Case, UNUSED, endpoint_missing, host_refusals, run};
use command::Registers;
use endpoint::{Endpoint, ReceiveFields};
use fixtures::endpoints::RECEIVER;
use fixtures::opcode::Opcode;
use std::io::{self, Write};

pub fn fetch_cases<W: Write>(out: &mut W) -> io::Result<()> {
    let r = ReceiveFields {
        occupied: 1,
        unread: 1,
        ..RECEIVER
    };
    let sound = Case::of(Opcode::Fetch, Endpoint::Receive(r), UNUSED);
    run(out, &host_refusals(sound))?;
    run(out, &endpoint_missing(sound, 3))?;
    let cases = [
        Case {
            what: "the endpoint is activity 6's",
            should: 4,
            acting: Endpoint::Receive(ReceiveFields { act: 6, ..r }),
            ..sound
        },
        Case {
            what: "accepted, a message is unread",
            ..sound
        },
        Case {
            what: "accepted, nothing is unread",
            acting: Endpoint::Receive(RECEIVER),
            ..sound
        },
    ];
    run(out, &cases)
}

// What REPLY and ACK_MSG ask of the receive endpoint, sound as r, and of the slot that arg0 names.
pub fn named_slot_cases(sound: Case, r: ReceiveFields) -> [Case; 3] {
    [
        Case {
            what: "the reply range ends at 65",
            should: 17,
            acting: Endpoint::Receive(ReceiveFields { rpl_eps: 63, ..r }),
            ..sound
        },
        Case {
            what: "the endpoint is activity 6's",
            should: 4,
            acting: Endpoint::Receive(ReceiveFields { act: 6, ..r }),
            ..sound
        },
        Case {
            what: "arg0 is 512, slot 2 of two",
            should: 12,
            registers: Registers {
                arg0: 512,
                ..sound.registers
            },
            ..sound
        },
    ]
}

// ACK_MSG looks at arg0 and at no other register.
pub fn ack_msg_cases<W: Write>(out: &mut W) -> io::Result<()> {
    let r = ReceiveFields {
        occupied: 1,
        ..RECEIVER
    };
    let sound = Case::of(Opcode::AckMsg, Endpoint::Receive(r), UNUSED);
    run(out, &host_refusals(sound))?;
    run(out, &endpoint_missing(sound, 3))?;
    run(out, &named_slot_cases(sound, r))?;
    let accepted = [
        Case {
            what: "accepted, the slot is occupied",
            ..sound
        },
        Case {
            what: "accepted, the slot is free",
            registers: Registers {
                arg0: 256,
                ..UNUSED
            },
            ..sound
        },
        Case {
            what: "accepted, rpl_eps is 65535",
            acting: Endpoint::Receive(ReceiveFields {
                rpl_eps: 65535,
                ..r
            }),
            ..sound
        },
    ];
    run(out, &accepted)
}
