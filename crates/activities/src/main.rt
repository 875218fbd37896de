// Two activities on one tile (document 02, T-01): the vault, 7, and its logger, 9, share tile 1; the gate, 5, on tile 0 sends to
// both. After each call a line: the call, its answer and ARG_1, and of tile 1 the activity, its unread messages, how many requests
// wait, and the oldest's endpoint and activity.
#![tactic(auto)]

mod steps;

use board::Board;
use endpoint::{ReceiveFields, SendFields};
use fixtures::answered::Answered;
use fixtures::endpoints::{Placed, RECEIVER, SENDER};
use std::io::{self, Write};
use steps::{Call, Step};

type Host = fixtures::host::Host<8192>;

// Two tiles, with a page each.
const BOARD: Board = Board {
    tiles: 2,
    pages: 0x01_01,
};

const GATE: u64 = 0;

const SHARED: u64 = 1;

const VAULT: u16 = 7;

const LOGGER: u16 = 9;

// The sharing record of the shared tile: CUR_ACT, the place of the oldest request, and how many wait.
const RECORD: usize = 67;

// The endpoints of the gate, each to the receiver of the same number.
const TO_VAULT: u16 = 7;

const TO_LOGGER: u16 = 8;

// The gate sends messages of 64 bytes at most, with more credits than there are slots.
const GATE_SENDER: SendFields = SendFields {
    cur_crd: 63,
    max_crd: 63,
    msg_sz: 6,
    ..SENDER
};

// Two slots of 64 bytes, and no replies to what comes in.
const SHARED_RECEIVER: ReceiveFields = ReceiveFields {
    rpl_eps: 65535,
    slot_size: 6,
    ..RECEIVER
};

// The gate's endpoint that sends to the shared tile's of the same number.
fn sends(ep: u16) -> Placed {
    let s = SendFields {
        tgt_ep: ep,
        ..GATE_SENDER
    };
    Placed::send(GATE, u64::from(ep), s)
}

// The shared tile's endpoint for an activity.
fn receives(ep: u16, act: u16, buffer: u64) -> Placed {
    let r = ReceiveFields {
        act,
        buffer,
        ..SHARED_RECEIVER
    };
    Placed::receive(SHARED, u64::from(ep), r)
}

// What the host gets for a call.
fn made(host: &mut Host, call: Call) -> Answered {
    match call {
        Call::Command(c) => Answered::of(c.registers.arg1, host.command(c)),
        Call::Privileged { opcode, arg0 } => {
            Answered::of(77, host.privileged(SHARED, opcode as u64, arg0, 77))
        }
        Call::Respond => Answered::of(0, host.respond(SHARED)),
    }
}

// A call, and its line.
fn take<W: Write>(out: &mut W, host: &mut Host, step: Step) -> io::Result<()> {
    let answered = made(host, step.call);
    let current = activity::act_of(host.sharing[RECORD]);
    write!(
        out,
        "{:<16} {answered} : {} {}",
        step.name, current.id, current.unread
    )?;
    match host.waiting(SHARED) {
        Ok(w) => writeln!(out, " {} {} {}", w.count, w.ep, w.act),
        Err(e) => writeln!(out, " {}", e.code()),
    }
}

fn take_all<W: Write>(out: &mut W, host: &mut Host, steps: &[Step]) -> io::Result<()> {
    for step in steps {
        take(out, host, *step)?;
    }
    Ok(())
}

// A message for the logger while the vault runs; the logger then frees its slot. Nobody responds.
fn one_more(host: &mut Host) {
    for call in steps::ONE_MORE {
        made(host, call);
    }
}

fn main(rt: HostRuntime) -> io::Result<()> {
    let mut out = io::writer(&rt);
    let mut host = Host::new(BOARD, [5, VAULT]);
    host.set_up(&[
        sends(TO_VAULT),
        sends(TO_LOGGER),
        receives(TO_VAULT, VAULT, 1024),
        receives(TO_LOGGER, LOGGER, 2048),
    ])?;
    take_all(&mut out, &mut host, &steps::VAULT_RUNS)?;
    take_all(&mut out, &mut host, &steps::LOGGER_RUNS)?;
    take_all(&mut out, &mut host, &steps::COUNT_TURNS)?;
    take(&mut out, &mut host, steps::VAULT_TURN)?;
    writeln!(&mut out, "63 for the logger, each acknowledged")?;
    for _ in 0..63 {
        one_more(&mut host);
    }
    take(&mut out, &mut host, steps::SEND_TO_LOGGER)?;
    one_more(&mut host);
    take_all(&mut out, &mut host, &steps::QUEUE_FILLS)?;
    take_all(&mut out, &mut host, &steps::UNKNOWN_PRIVILEGED)?;
    // A record claims 65 waiting: every call is refused.
    host.sharing[RECORD + 2] = 65;
    take_all(&mut out, &mut host, &steps::BAD_RECORD)?;
    out.flush()
}
