// The crate `sheet`, run: endpoints as statements, then boards as sheets and drawings.
#![tactic(auto)]

use crate::table_of::{Table, memory, receive, send};
use board::Board;
use endpoint::Endpoint;
use std::io::{self, BufWriter, Write};

mod boards;
mod table_of;

// The pages of three tiles, tile 0's in the lowest byte: 1 each, 16 each, and a gate with 1 beside a vault with 16.
const SMALL: u64 = 0x01_01_01;

const LARGE: u64 = 0x10_10_10;

const UNEQUAL: u64 = 0x04_10_01;

fn statements<W: Write>(out: &mut W) -> io::Result<()> {
    sheet::endpoint(out, 0, 4, Endpoint::Invalid)?;
    sheet::endpoint(out, 0, 4, send((5, 1, 2, 8, 1, 7, 0, 0, false, 0)))?;
    sheet::endpoint(
        out,
        7,
        63,
        send((7, 63, 63, 63, 255, 64, 63, 65535, true, 0xfeed)),
    )?;
    sheet::endpoint(out, 1, 7, receive((5, 1, 8, 1024, 20, 3, 2)))?;
    sheet::endpoint(out, 1, 7, receive((5, 5, 11, 0, 65535, 0xffff_ffff, 0)))
}

fn permissions<W: Write>(out: &mut W) -> io::Result<()> {
    sheet::endpoint(out, 0, 9, memory((5, 0, 1, 1024, 512, 0)))?;
    sheet::endpoint(out, 0, 9, memory((5, 1, 1, 1024, 512, 0)))?;
    sheet::endpoint(out, 0, 9, memory((5, 2, 1, 1024, 512, 0)))?;
    sheet::endpoint(out, 0, 9, memory((5, 3, 1, 1024, 512, 63)))
}

// A board as a sheet and as a drawing.
fn told<W: Write>(out: &mut W, b: Board, words: &[u64], acts: &[u16]) -> io::Result<()> {
    writeln!(out)?;
    sheet::sheet(out, b, words, acts)?;
    writeln!(out)?;
    sheet::drawing(out, b, words, acts)
}

// Three tiles of a table.
fn three<W: Write>(out: &mut W, pages: u64, table: &Table, acts: &[u16; 3]) -> io::Result<()> {
    told(out, Board { tiles: 3, pages }, &table.words, acts)
}

// The first two tiles of a table.
fn first_two<W: Write>(out: &mut W, table: &Table, acts: &[u16; 2]) -> io::Result<()> {
    let b = Board {
        tiles: 2,
        pages: SMALL,
    };
    told(out, b, table.first_two(), acts)
}

// An empty board, then lengths that do not fit.
fn nothing<W: Write>(out: &mut W) -> io::Result<()> {
    let empty = Table::new();
    three(out, SMALL, &empty, &[5, 6, 0])?;
    let two = Board {
        tiles: 2,
        pages: SMALL,
    };
    told(out, two, &empty.words, &[5, 6])?;
    told(out, Board { tiles: 3, ..two }, &empty.words, &[5])
}

// Boards that are not allowed.
fn no_boards<W: Write>(out: &mut W) -> io::Result<()> {
    let empty = Table::new();
    three(out, 0x01_11_01, &empty, &[5, 6, 0])?;
    three(out, 0x01_01, &empty, &[5, 6, 0])?;
    let most = Board {
        tiles: u64::MAX,
        pages: SMALL,
    };
    told(out, most, &[], &[])
}

// A table with an endpoint of no kind.
fn no_kind<W: Write>(out: &mut W) -> io::Result<()> {
    let mut table = Table::new();
    table.words[195] = 7;
    three(out, SMALL, &table, &[5, 6, 0])
}

fn all<W: Write>(out: &mut W) -> io::Result<()> {
    statements(out)?;
    permissions(out)?;
    first_two(out, &boards::session(), &[5, 5])?;
    three(out, SMALL, &boards::service(), &[5, 6, 8])?;
    three(out, LARGE, &boards::odd(), &[5, 5, 0])?;
    three(out, SMALL, &boards::crowd(), &[5, 5, 0])?;
    three(out, UNEQUAL, &boards::unequal(), &[5, 6, 8])?;
    three(out, UNEQUAL, &boards::too_large(), &[5, 6, 8])?;
    nothing(out)?;
    no_boards(out)?;
    no_kind(out)
}

fn main(rt: HostRuntime) -> io::Result<()> {
    let mut out = BufWriter::with_capacity(rt.alloc(), 4096, io::writer(&rt))?;
    all(&mut out)?;
    out.flush()
}
