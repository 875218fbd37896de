// The edges of the drawing: from a send endpoint to the receive endpoint that it aims at, dashed where it replies once, and from
// a memory endpoint to the memory that it reaches; in red to `nowhere` from those that aim at nothing.
use channels::{Channels, Missing, Place, Reach};
use endpoint::{Endpoint, MemoryFields, SendFields};
use form::{Allowed, Hexadecimal, Plural};
use std::io::{self, Write};

fn from<W: Write>(out: &mut W, place: Place) -> io::Result<()> {
    write!(out, "  t{}e{} -> ", place.tile, place.ep)
}

fn to_nowhere<W: Write>(out: &mut W, missing: Missing) -> io::Result<()> {
    writeln!(
        out,
        "nowhere [color=red, fontcolor=red, style=dashed, label=\"{missing}\"];"
    )
}

// A reply goes back along a channel, so that it has no say in where its ends are drawn.
fn to_receiver<W: Write>(out: &mut W, s: SendFields) -> io::Result<()> {
    let look = if s.reply {
        " [style=dashed, constraint=false]"
    } else {
        ""
    };
    writeln!(out, "t{}e{}{look};", s.tgt_tile, s.tgt_ep)
}

fn to_memory<W: Write>(out: &mut W, m: MemoryFields, reach: Reach) -> io::Result<()> {
    let end = match reach {
        Reach::Inside => "\"",
        Reach::PastTheEnd => "\\npast the end\", color=red, fontcolor=red",
    };
    write!(
        out,
        "t{}mem [label=\"{}\\n{} byte",
        m.tile,
        Allowed(m.rw),
        m.size
    )?;
    writeln!(
        out,
        "{}\\nfrom {}{end}];",
        Plural(m.size),
        Hexadecimal(m.addr)
    )
}

// The edge of the endpoint there, where it has one.
pub fn edge<W: Write>(
    out: &mut W,
    channels: &Channels<'_>,
    place: Place,
    e: Endpoint,
) -> io::Result<()> {
    match e {
        Endpoint::Send(s) => {
            from(out, place)?;
            match channels.receiver(s) {
                Ok(()) => to_receiver(out, s),
                Err(missing) => to_nowhere(out, missing),
            }
        }
        Endpoint::Memory(m) => {
            from(out, place)?;
            match channels.reach(m) {
                Ok(reach) => to_memory(out, m, reach),
                Err(missing) => to_nowhere(out, missing),
            }
        }
        _ => Ok(()),
    }
}
