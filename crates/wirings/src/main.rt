// The wiring check, run (document 01, "Sound wiring"): on sound tables, on tables that break a rule, and on what is no machine. Each
// line has the table, what the check answers, and what the document says it should be.
#![tactic(auto)]

mod tables;

use answers::Error;
use board::Board;
use fixtures::endpoints::{Placed, SESSION};
use std::fmt;
use std::io::{self, Write};

type Host = fixtures::host::Host<8192>;

// Two tiles, with a page each.
const BOARD: Board = Board {
    tiles: 2,
    pages: 0x01_01,
};

// A table that differs from the session's in what is placed, and what the document says of it.
#[derive(Clone, Copy)]
struct Table<'a> {
    name: &'static str,
    placed: &'a [Placed],
    should: &'static str,
}

// What the check answers, as a column.
#[derive(Clone, Copy)]
struct Verdict(Result<bool, Error>);

impl fmt::Display for Verdict {
    fn fmt<W: fmt::Write>(&self, f: &mut fmt::Formatter<W>) -> fmt::Result {
        match self.0 {
            Ok(true) => f.pad("yes"),
            Ok(false) => f.pad("no"),
            Err(e) => fmt::Display::fmt(&e.code(), f),
        }
    }
}

// The line of a table that the host lends, or lends only `words` of.
fn line<W: Write>(
    out: &mut W,
    name: &str,
    host: &Host,
    words: &[u64],
    should: &str,
) -> io::Result<()> {
    let verdict = Verdict(wiring::check_wiring(host.board, words, &host.sharing, &host.memory));
    writeln!(out, "{name:<51}{verdict:<3} should be {should}")
}

// The lines of tables that differ from the session's.
fn check_all<W: Write>(out: &mut W, session: &Host, tables: &[Table]) -> io::Result<()> {
    for t in tables {
        let mut host = *session;
        host.set_up(t.placed)?;
        line(out, t.name, &host, &host.words, t.should)?;
    }
    Ok(())
}

fn main(rt: HostRuntime) -> io::Result<()> {
    let mut out = io::writer(&rt);
    let mut host = Host::new(BOARD, [0, 0]);
    line(&mut out, "no endpoint", &host, &host.words, "yes")?;
    host.set_up(&SESSION)?;
    tables::sound(&mut out, &host)?;
    tables::sound_ranges(&mut out, &host)?;
    tables::not_at_rest(&mut out, &host)?;
    tables::broken_ranges(&mut out, &host)?;
    tables::broken_credits(&mut out, &host)?;
    tables::broken_aims(&mut out, &host)?;
    // No machine, which is BAD_MACHINE: "192 64-bit words per tile", and "Good table": "Types 4 to 7 are not acceptable".
    let mut odd = host;
    odd.words[0] = 4;
    line(&mut out, "an endpoint of type 4", &odd, &odd.words, "100")?;
    line(
        &mut out,
        "383 words for 2 tiles",
        &host,
        &host.words[..383],
        "100",
    )?;
    out.flush()
}
