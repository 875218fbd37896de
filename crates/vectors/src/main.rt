// Document 01's numbers, run: P1 to P10, then a case for each answer of each command and of each call of the host. A line has
// what the case is, what the machine gives, and what the document says it should be. The cases of a command stand in the
// order of its checks.
#![tactic(auto)]

use std::io::{self, Write};

mod access_cases;
mod host_cases;
mod listed;
mod message_cases;
mod slot_cases;
mod stage;

fn main(rt: HostRuntime) -> io::Result<()> {
    let mut out = io::writer(&rt);
    listed::listed_numbers(&mut out)?;
    host_cases::idle_cases(&mut out)?;
    message_cases::send_cases(&mut out)?;
    message_cases::reply_cases(&mut out)?;
    access_cases::read_cases(&mut out)?;
    access_cases::write_cases(&mut out)?;
    slot_cases::fetch_cases(&mut out)?;
    slot_cases::ack_msg_cases(&mut out)?;
    host_cases::other_opcode_cases(&mut out)?;
    host_cases::configure_cases(&mut out)?;
    host_cases::invalidate_cases(&mut out)?;
    host_cases::unpack_cases(&mut out)?;
    host_cases::pack_cases(&mut out)?;
    out.flush()
}
