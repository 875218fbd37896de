// The nodes of the drawing: one for each open endpoint, and one for a tile's memory. A node's shape and colour say its kind, and
// a dashed border that it replies once; one whose activity does not run is gray, and says of which activity it is.
use channels::Place;
use channels::phrases::Credits;
use endpoint::{Endpoint, MemoryFields, ReceiveFields, SendFields};
use form::{Allowed, Plural};
use std::io::{self, Write};

// The end of a label, and what is told of an endpoint whose activity does not run.
fn activity<W: Write>(out: &mut W, act: u16, running: u16) -> io::Result<()> {
    if act == running {
        return output::byte(out, b'"');
    }
    write!(
        out,
        "\\nof activity {act}\", color=gray60, fontcolor=gray40"
    )
}

fn send<W: Write>(out: &mut W, s: SendFields, running: u16) -> io::Result<()> {
    if s.reply {
        write!(out, "reply\\nonce")?;
    } else {
        write!(out, "send\\n{}", Credits(s))?;
    }
    activity(out, s.act, running)?;
    let border = if s.reply {
        ", style=\"filled,dashed\""
    } else {
        ""
    };
    write!(
        out,
        ", shape=ellipse, margin=\"0.02,0.03\", fillcolor=lightblue{border}"
    )
}

fn receive<W: Write>(out: &mut W, r: ReceiveFields, running: u16) -> io::Result<()> {
    let n = channels::slots(r);
    let occupied = r.occupied.count_ones();
    write!(
        out,
        "receive\\n{occupied} of {n} slot{} occupied",
        Plural(n)
    )?;
    activity(out, r.act, running)?;
    write!(out, ", shape=box, fillcolor=palegreen")
}

fn memory<W: Write>(out: &mut W, m: MemoryFields, running: u16) -> io::Result<()> {
    write!(out, "memory\\n{}", Allowed(m.rw))?;
    activity(out, m.act, running)?;
    write!(out, ", shape=hexagon, fillcolor=khaki")
}

fn kind<W: Write>(out: &mut W, e: Endpoint, running: u16) -> io::Result<()> {
    match e {
        Endpoint::Invalid => Ok(()),
        Endpoint::Send(s) => send(out, s, running),
        Endpoint::Receive(r) => receive(out, r, running),
        Endpoint::Memory(m) => memory(out, m, running),
    }
}

// The endpoint there.
pub fn node<W: Write>(out: &mut W, place: Place, e: Endpoint, running: u16) -> io::Result<()> {
    let Place { tile, ep } = place;
    write!(out, "    t{tile}e{ep} [label=\"{ep} ")?;
    kind(out, e, running)?;
    writeln!(out, "];")
}

pub fn tile_memory<W: Write>(out: &mut W, tile: usize, size: u64) -> io::Result<()> {
    writeln!(
        out,
        "    t{tile}mem [label=\"memory\\n{size} bytes\", shape=cylinder];"
    )
}
