// One endpoint as the statement of docs/SCRIPT.md that configures it, with every field named.
use endpoint::{Endpoint, MemoryFields, ReceiveFields, SendFields};
use form::{Credits, EndpointOrNone, Hexadecimal, Permission};
use std::io::{self, Write};

fn send<W: Write>(out: &mut W, s: SendFields) -> io::Result<()> {
    let cur_crd = Credits(s.cur_crd);
    let max_crd = Credits(s.max_crd);
    let crd_ep = EndpointOrNone(s.crd_ep);
    let reply = u8::from(s.reply);
    write!(
        out,
        " send act={} cur_crd={cur_crd} max_crd={max_crd}",
        s.act
    )?;
    write!(
        out,
        " msg_sz={} tgt_tile={} tgt_ep={}",
        s.msg_sz, s.tgt_tile, s.tgt_ep
    )?;
    write!(
        out,
        " tgt_chip={} crd_ep={crd_ep} reply={reply}",
        s.tgt_chip
    )?;
    writeln!(out, " label={}", Hexadecimal(s.label))
}

fn receive<W: Write>(out: &mut W, r: ReceiveFields) -> io::Result<()> {
    let rpl_eps = EndpointOrNone(r.rpl_eps);
    write!(
        out,
        " receive act={} slots={} slot_size={}",
        r.act, r.slots, r.slot_size
    )?;
    write!(
        out,
        " buffer={} rpl_eps={rpl_eps} wpos={}",
        Hexadecimal(r.buffer),
        r.wpos
    )?;
    let occupied = Hexadecimal(u64::from(r.occupied));
    let unread = Hexadecimal(u64::from(r.unread));
    writeln!(out, " rpos={} occupied={occupied} unread={unread}", r.rpos)
}

fn memory<W: Write>(out: &mut W, m: MemoryFields) -> io::Result<()> {
    let rw = Permission(m.rw);
    write!(out, " memory act={} rw={rw} tile={}", m.act, m.tile)?;
    let addr = Hexadecimal(m.addr);
    writeln!(out, " addr={addr} size={} chip={}", m.size, m.chip)
}

pub fn endpoint<W: Write>(out: &mut W, tile: u64, ep: u64, e: Endpoint) -> io::Result<()> {
    let verb = match e {
        Endpoint::Invalid => "invalidate",
        _ => "endpoint",
    };
    write!(out, "{verb} {tile}:{ep}")?;
    match e {
        Endpoint::Invalid => writeln!(out),
        Endpoint::Send(s) => send(out, s),
        Endpoint::Receive(r) => receive(out, r),
        Endpoint::Memory(m) => memory(out, m),
    }
}
