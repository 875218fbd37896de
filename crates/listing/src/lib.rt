// The sheet: a heading for each tile, and a line for each of its endpoints that is open. What is said of an endpoint stands
// between commas; after a semicolon come the remarks.
#![tactic(auto)]

use board::Board;
use channels::phrases::{Credits, Tile};
use channels::{Channels, Missing, Place, Reach};
use endpoint::{Endpoint, MemoryFields, SendFields};
use form::{Allowed, Hexadecimal, Plural};
use std::io::{self, Write};

mod receivers;

// An endpoint serves only the activity that it is of.
fn activity<W: Write>(out: &mut W, act: u16, running: u16) -> io::Result<()> {
    if act == running {
        return Ok(());
    }
    write!(out, ", of activity {act} (not running)")
}

fn not_there<W: Write>(out: &mut W, missing: Missing) -> io::Result<()> {
    write!(out, "; its target is not there: {missing}")
}

// ---- send endpoints

fn addressee<W: Write>(out: &mut W, s: SendFields) -> io::Result<()> {
    let verb = if s.reply { "replies once" } else { "sends" };
    write!(out, "{verb} to tile {} endpoint {}: ", s.tgt_tile, s.tgt_ep)
}

// A message takes 2^msg_sz bytes at most, and 32 of them are its header.
fn message_size<W: Write>(out: &mut W, msg_sz: u8) -> io::Result<()> {
    if msg_sz > 11 {
        return write!(out, "messages of no allowed size, ");
    }
    match channels::power(msg_sz).checked_sub(32) {
        Some(most) => write!(out, "messages of up to {most} bytes, "),
        None => write!(out, "no message fits, "),
    }
}

// A reply gives a credit back to the endpoint that sent the message; SEND does not look at crd_ep.
fn credit_back<W: Write>(out: &mut W, s: SendFields) -> io::Result<()> {
    match s.crd_ep {
        _ if !s.reply => Ok(()),
        65535 => write!(out, ", no credit back"),
        ep @ 0..64 => write!(out, ", credit back to endpoint {ep}"),
        ep => write!(out, ", credit back to endpoint {ep}, past the last"),
    }
}

fn send<W: Write>(out: &mut W, s: SendFields, running: u16) -> io::Result<()> {
    addressee(out, s)?;
    message_size(out, s.msg_sz)?;
    write!(out, "{}, label {}", Credits(s), Hexadecimal(s.label))?;
    credit_back(out, s)?;
    activity(out, s.act, running)
}

// ---- memory endpoints

fn memory<W: Write>(out: &mut W, m: MemoryFields, running: u16) -> io::Result<()> {
    write!(
        out,
        "may {} tile {}: {} byte{} from {}",
        Allowed(m.rw),
        m.tile,
        m.size,
        Plural(m.size),
        Hexadecimal(m.addr)
    )?;
    activity(out, m.act, running)
}

fn reached<W: Write>(out: &mut W, reach: Result<Reach, Missing>) -> io::Result<()> {
    match reach {
        Ok(Reach::Inside) => Ok(()),
        Ok(Reach::PastTheEnd) => write!(out, "; it reaches past the tile's memory"),
        Err(missing) => not_there(out, missing),
    }
}

// ---- the lines

// The rest of an open endpoint's line.
fn endpoint<W: Write>(
    out: &mut W,
    channels: &Channels<'_>,
    place: Place,
    e: Endpoint,
    running: u16,
) -> io::Result<()> {
    match e {
        Endpoint::Invalid => Ok(()),
        Endpoint::Send(s) => {
            send(out, s, running)?;
            match channels.receiver(s) {
                Ok(()) => Ok(()),
                Err(missing) => not_there(out, missing),
            }
        }
        Endpoint::Receive(r) => {
            receivers::receive(out, r)?;
            activity(out, r.act, running)?;
            receivers::senders(out, channels, place)
        }
        Endpoint::Memory(m) => {
            memory(out, m, running)?;
            reached(out, channels.reach(m))
        }
    }
}

fn tile<W: Write>(out: &mut W, channels: &Channels<'_>, tile: Tile) -> io::Result<()> {
    writeln!(out, "{tile}")?;
    if !channels.has_open(tile.number) {
        return writeln!(out, "   nothing is open");
    }
    for (place, e) in channels.endpoints_of(tile.number) {
        if channels::is_open(e) {
            output::decimal(out, place.ep as u64, 4)?;
            write!(out, "  ")?;
            endpoint(out, channels, place, e, tile.running)?;
            writeln!(out)?;
        }
    }
    Ok(())
}

pub fn sheet<W: Write>(out: &mut W, b: Board, words: &[u64], acts: &[u16]) -> io::Result<()> {
    match Channels::of(b, words, acts) {
        Ok(channels) => {
            write!(out, "Open channels\n\n")?;
            for (number, running) in channels.running().iter().copied().enumerate() {
                tile(out, &channels, Tile { number, running })?;
            }
            Ok(())
        }
        Err(misfit) => writeln!(out, "No sheet: {misfit}"),
    }
}
