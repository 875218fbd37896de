// A receive endpoint's line of the sheet: its slots, its reply endpoints, and who sends to it.
use channels::{Channels, Place};
use endpoint::ReceiveFields;
use form::{Hexadecimal, Plural};
use std::io::{self, Write};

// So many senders are named; the others are counted.
const NAMED: usize = 16;

fn slots<W: Write>(out: &mut W, r: ReceiveFields) -> io::Result<()> {
    let n = channels::slots(r);
    let size = channels::power(r.slot_size);
    write!(
        out,
        "receives: {n} slot{} of {size} bytes at {}",
        Plural(n),
        Hexadecimal(r.buffer)
    )?;
    let occupied = r.occupied.count_ones();
    let unread = r.unread.count_ones();
    write!(out, ", {occupied} occupied, {unread} unread")
}

// One reply endpoint for each slot. A range that goes past the last endpoint makes the machine refuse messages.
fn replies<W: Write>(out: &mut W, r: ReceiveFields) -> io::Result<()> {
    if r.rpl_eps == 65535 {
        return write!(out, ", no replies");
    }
    let n = channels::slots(r);
    let first = u64::from(r.rpl_eps);
    let end = first + n;
    if end > 64 {
        return write!(
            out,
            ", replies by {n} endpoint{} from {first}, past the last",
            Plural(n)
        );
    }
    if n < 2 {
        return write!(out, ", replies by endpoint {first}");
    }
    write!(out, ", replies by endpoints {first} to {}", end - 1)
}

pub fn receive<W: Write>(out: &mut W, r: ReceiveFields) -> io::Result<()> {
    slots(out, r)?;
    replies(out, r)
}

// All that send to the receive endpoint there.
pub fn senders<W: Write>(out: &mut W, channels: &Channels<'_>, receiver: Place) -> io::Result<()> {
    write!(out, "; from")?;
    // The table is walked once: the senders that are not named are counted on the way.
    let mut found: usize = 0;
    for sender in channels.senders(receiver) {
        match found {
            0 => write!(out, " {sender}")?,
            1..NAMED => write!(out, ", {sender}")?,
            _ => {}
        }
        found = found.saturating_add(1);
    }
    match found.checked_sub(NAMED) {
        _ if found == 0 => write!(out, " nobody"),
        None | Some(0) => Ok(()),
        Some(more) => write!(out, " and {more} more"),
    }
}
