// Mistakes, each in a line: where it stands, what was found there and what was expected.
#![tactic(auto)]

ghost use Rattle.std.specs.Prelude.{◌≡◌, ◌<◌, OnOk, Some, length, take};
ghost use Rattle.std.specs.List.{flat_map};
ghost use Rattle.std.specs.Io.KnownBytes.{Appends};
ghost use Rattle.mistakes.specs.Found.{shown, found};
ghost use Rattle.mistakes.specs.Lines.{found_at, no_board, count};

use script::Mistake;
use std::fmt::{self, Formatter};
use std::io::{self, Write};

// So many mistakes are told; the others are counted.
const TOLD: u64 = 20;

// So many bytes of what was found are shown.
const SHOWN: usize = 40;

// A byte that was found: itself where it is printable, others as \xNN.
#[derive(Clone, Copy)]
struct Shown(u8);

impl fmt::Display for Shown {
    ghost output = { λ b. Some (shown b.0) };

    #[tactic(auto, using(output::proofs::Padding::zero_padded))]
    fn fmt<W: fmt::Write>(&self, f: &mut Formatter<W>) -> fmt::Result {
        match self.0 {
            byte @ b' '..=b'~' => write!(f, "{}", char::from(byte)),
            byte => write!(f, "\\x{byte:02x}"),
        }
    }
}

#[derive(Clone, Copy)]
struct Bytes<'a>(&'a [u8]);

impl fmt::Display for Bytes<'_> {
    ghost output = { λ bytes. Some (flat_map shown bytes.0.now) };

    #[tactic(auto, using(std::proofs::lemmas::List::flat_map_more))]
    fn fmt<W: fmt::Write>(&self, f: &mut Formatter<W>) -> fmt::Result {
        let bytes = self.0;
        for byte in bytes {
            write!(f, "{}", Shown(*byte))?;
        }
        Ok(())
    }
}

// The bytes that are shown where they are many.
fn first(bytes: &[u8]) -> &[u8]
    requires { 40 < length bytes.now }
    ensures { result.now ≡ take 40 bytes.now }
{
    &bytes[..SHOWN]
}

// The bytes that were found, cut where they are many. Where there is none it is the line's end.
#[derive(Clone, Copy)]
struct Found<'a>(&'a [u8]);

impl fmt::Display for Found<'_> {
    ghost output = { λ bytes. Some (found bytes.0.now) };

    fn fmt<W: fmt::Write>(&self, f: &mut Formatter<W>) -> fmt::Result {
        let bytes = self.0;
        if bytes.is_empty() {
            return f.write_str("the line's end");
        }
        if bytes.len() <= SHOWN {
            let whole = Bytes(bytes);
            return write!(f, "'{whole}'");
        }
        let first = Bytes(first(bytes));
        write!(f, "'{first}..'")
    }
}

// Where a mistake stands, and what was found there.
fn found_at<W: Write>(out: &mut W, line: u64, column: usize, text: &[u8]) -> io::Result<()>
    ensures { OnOk result (Appends (W.contents out.old) (W.contents out.new) (found_at line column text.now)) }
{
    let found = Found(text);
    write!(out, "{line}:{column}: found {found}, expected ")
}

// Tells a mistake of a line, where it is one of the first. Columns count from 1.
pub fn tell<W: Write>(
    out: &mut W,
    mistakes: u64,
    line: u64,
    mistake: &Mistake<'_>,
) -> io::Result<()>
    ensures untold { 20 < mistakes → OnOk result (W.contents out.new ≡ W.contents out.old) }
{
    if mistakes > TOLD {
        return Ok(());
    }
    let column = mistake.found.start.saturating_add(1);
    found_at(out, line, column, mistake.found.text)?;
    let want = mistake.want;
    writeln!(out, "{want}")
}

// A script that ends before its board, on a line.
pub fn no_board<W: Write>(out: &mut W, line: u64) -> io::Result<()>
    ensures { OnOk result (Appends (W.contents out.old) (W.contents out.new) (no_board line)) }
{
    writeln!(
        out,
        "{line}:1: found the script's end, expected board, the first statement"
    )
}

// The last line after mistakes.
pub fn count<W: Write>(out: &mut W, mistakes: u64) -> io::Result<()>
    ensures { OnOk result (Appends (W.contents out.old) (W.contents out.new) (count mistakes)) }
{
    match mistakes {
        1 => writeln!(out, "1 mistake; nothing was run"),
        0..=TOLD => writeln!(out, "{mistakes} mistakes; nothing was run"),
        _ => writeln!(
            out,
            "{mistakes} mistakes, the first {TOLD} of them told; nothing was run"
        ),
    }
}
