// Document 01, "Numbers on both sides": P1 to P10.
ghost use Rattle.std.specs.Prelude.{◌≤◌};

use crate::stage::{Case, SENDER, UNUSED};
use command::Registers;
use endpoint::{Endpoint, ReceiveFields, SendFields};
use fixtures::endpoints::RECEIVER;
use fixtures::opcode::Opcode;
use std::fmt::Display;
use std::io::{self, Write};

// A number's line: what it is, what came, and what the document says.
fn line<W: Write, C: Display + Drop>(
    out: &mut W,
    what: &str,
    came: C,
    should: &str,
) -> io::Result<()> {
    writeln!(out, "{what} {came} should be {should}")
}

// ---- P1

// The fields of P1.
pub const P1: Endpoint = Endpoint::Send(SendFields {
    tgt_tile: 3,
    ..SENDER
});

fn p1<W: Write>(out: &mut W) -> io::Result<()> {
    let should = "001fffe404100029 0000000000030007 0000000000000000";
    match endpoint::pack(4096, P1) {
        Ok(w) => {
            let (first, second, third) = (w.first, w.second, w.third);
            line(
                out,
                "P1 words",
                format_args!("{first:016x} {second:016x} {third:016x}"),
                should,
            )
        }
        Err(e) => line(out, "P1 words", e.code(), should),
    }
}

// ---- P2 to P6

// The line of the free slot among four.
fn free<W: Write>(out: &mut W, what: &str, occupied: u32, wpos: u32, should: &str) -> io::Result<()>
    requires { wpos ≤ 4 }
{
    match bits::find_slot(occupied, wpos, 2, false) {
        Some(slot) => line(out, what, slot.index, should),
        None => line(out, what, "none", should),
    }
}

// A search for a free slot among four.
#[derive(Clone, Copy)]
struct Search {
    what: &'static str,
    occupied: u32,
    wpos: u32,
    should: &'static str,
    ghost within: { wpos ≤ 4 },
}

const SEARCHES: [Search; 5] = [
    Search {
        what: "P2 free slot for (1011b, 0)",
        occupied: 0b1011,
        wpos: 0,
        should: "2",
    },
    Search {
        what: "P3 free slot for (0101b, 3)",
        occupied: 0b0101,
        wpos: 3,
        should: "3",
    },
    Search {
        what: "P4 free slot for (1000b, 3)",
        occupied: 0b1000,
        wpos: 3,
        should: "0",
    },
    Search {
        what: "P5 free slot for (0, 4)",
        occupied: 0,
        wpos: 4,
        should: "0",
    },
    Search {
        what: "P6 free slot for (1111b, 1)",
        occupied: 0b1111,
        wpos: 1,
        should: "none",
    },
];

fn p2_to_p6<W: Write>(out: &mut W) -> io::Result<()> {
    for s in &SEARCHES[..] {
        free(out, s.what, s.occupied, s.wpos, s.should)?;
    }
    Ok(())
}

// ---- P7 to P10

// The case of a command on four slots of 256 bytes with no reply range, each slot occupied.
fn on_four_slots(opcode: Opcode, unread: u32, rpos: u8, arg0: u64) -> Case {
    let r = ReceiveFields {
        rpl_eps: 65535,
        slots: 2,
        rpos,
        occupied: 0b1111,
        unread,
        ..RECEIVER
    };
    let a = Registers { arg0, ..UNUSED };
    Case::of(opcode, Endpoint::Receive(r), a)
}

fn p7<W: Write>(out: &mut W) -> io::Result<()> {
    let what = "P7 ARG_1 and rpos after FETCH for (unread 0101b, rpos 1)";
    let (answered, host) = on_four_slots(Opcode::Fetch, 0b0101, 1, 0).play()?;
    let arg1 = answered.arg1;
    let rpos = host.receiver(0, 4).map_or(0, |r| r.rpos);
    line(out, what, format_args!("{arg1} {rpos}"), "512 3")
}

// A SEND by a send endpoint whose msg_sz is 8.
#[derive(Clone, Copy)]
struct Sent {
    what: &'static str,
    addr: u64,
    size: u64,
    should: &'static str,
}

const SENT: [Sent; 4] = [
    Sent {
        what: "P8 answer for (msg_sz 8, size 224)",
        addr: 0,
        size: 224,
        should: "0",
    },
    Sent {
        what: "P8 answer for (msg_sz 8, size 225)",
        addr: 0,
        size: 225,
        should: "9",
    },
    Sent {
        what: "P9 answer for (address 0x1ff0, size 16)",
        addr: 0x1FF0,
        size: 16,
        should: "0",
    },
    Sent {
        what: "P9 answer for (address 0x1ff0, size 17)",
        addr: 0x1FF0,
        size: 17,
        should: "22",
    },
];

fn p8_and_p9<W: Write>(out: &mut W) -> io::Result<()> {
    for s in &SENT {
        let a = Registers {
            arg0: 65535,
            addr: s.addr,
            size: s.size,
            arg1: 0,
        };
        let (answered, _) = Case::of(Opcode::Send, Endpoint::Send(SENDER), a).play()?;
        line(out, s.what, answered.number, s.should)?;
    }
    Ok(())
}

// The slot that ACK_MSG frees is the free one.
fn p10<W: Write>(out: &mut W) -> io::Result<()> {
    let (_, host) = on_four_slots(Opcode::AckMsg, 0, 0, 1023).play()?;
    let occupied = host.receiver(0, 4).map_or(0, |r| r.occupied);
    free(out, "P10 slot for (arg0 1023)", occupied, 0, "3")?;
    let (answered, _) = on_four_slots(Opcode::AckMsg, 0, 0, 1024).play()?;
    line(out, "P10 answer for (arg0 1024)", answered.number, "12")
}

pub fn listed_numbers<W: Write>(out: &mut W) -> io::Result<()> {
    p1(out)?;
    p2_to_p6(out)?;
    p7(out)?;
    p8_and_p9(out)?;
    p10(out)
}
