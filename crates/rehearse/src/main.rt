// Rehearses a script (docs/SCRIPT.md): reads it, checks the whole of it, and runs it on the machine only where it has no
// mistake. The arguments are an option, --sheet or --drawing, and a file; with no file, or -, it reads standard input.
#![tactic(auto)]

use input::InputError;
use running::Mode;
use statements::System;
use std::alloc::Global;
use std::env::FillError;
use std::io::{self, BufWriter, Read, Write};
use std::rt::Runtime;

// A script has no more bytes than this.
const LONGEST: usize = 1048576;

// An argument has no more bytes than this.
const ARGUMENT: usize = 4096;

// Checks a script, and runs it where it has no mistake.
fn rehearse<W: Write>(alloc: Global, source: &[u8], mode: Mode, out: &mut W) -> io::Result<()> {
    let checked = checking::check(source, out)?;
    match checked.board() {
        Some(board) => {
            let mut system = System::new(alloc, board)?;
            running::run(source, mode, &mut system, out)
        }
        None => mistakes::count(out, checked.mistakes),
    }
}

// The rehearsal of the script that a reader gives.
fn start<R: Read, W: Write>(
    alloc: Global,
    from: &mut R,
    mode: Mode,
    out: &mut W,
) -> io::Result<()> {
    let mut source = vec![in alloc; 0u8; LONGEST]?;
    match input::read_all(from, &mut source) {
        Ok(size) => {
            // What the script left free goes back before the board's memory is asked for.
            source.truncate(size);
            source.shrink_to_fit();
            rehearse(alloc, &source, mode, out)
        }
        Err(InputError::TooLong) => writeln!(
            out,
            "the script is longer than {LONGEST} bytes; nothing was run"
        ),
        Err(InputError::Failed) => { writeln!(out, "the script cannot be read; nothing was run") }
    }
}

fn mode_of(word: &[u8]) -> Mode {
    match word {
        b"--sheet" => Mode::Sheet,
        b"--drawing" => Mode::Drawing,
        _ => Mode::Whole,
    }
}

// The option that the first argument is; a missing argument is none.
fn option<T: Runtime>(rt: &T) -> Mode {
    let mut word = [0u8; ARGUMENT];
    match rt.arg(1, &mut word) {
        Ok(n) => mode_of(&word[..n]),
        Err(_) => Mode::Whole,
    }
}

fn cannot_open<W: Write>(path: &[u8], out: &mut W) -> io::Result<()> {
    out.write_all(path)?;
    writeln!(out, ": cannot be opened; nothing was run")
}

// Rehearses the file of this name. Files are opened by names in UTF-8; one of another name cannot be.
fn named<T: Runtime + AllocGlobal, W: Write>(
    rt: &T,
    path: &[u8],
    mode: Mode,
    out: &mut W,
) -> io::Result<()> {
    if matches!(path, b"-") {
        return start(rt.alloc(), &mut rt.reader(), mode, out);
    }
    let Ok(name) = str::from_utf8(path) else {
        return cannot_open(path, out);
    };
    match std::fs::open(rt, name) {
        Ok(file) => {
            let mut from = file;
            start(rt.alloc(), &mut from, mode, out)
        }
        Err(_) => cannot_open(path, out),
    }
}

// Whether argument `i` is there.
fn is_given<T: Runtime>(rt: &T, i: usize) -> bool {
    !matches!(rt.arg(i, &mut [0u8; 1]), Err(FillError::NotPresent))
}

// Rehearses the file that argument `i` names. It is taken as bytes into a buffer, since `env::args` has names in UTF-8 alone, and
// one that is not is told as it is.
fn rest<T: Runtime + AllocGlobal, W: Write>(
    rt: &T,
    i: usize,
    mode: Mode,
    out: &mut W,
) -> io::Result<()> {
    let mut path = [0u8; ARGUMENT];
    match rt.arg(i, &mut path) {
        Err(FillError::NotPresent) => start(rt.alloc(), &mut rt.reader(), mode, out),
        Err(FillError::TooLong) => { writeln!(out, "the file's name is too long; nothing was run") }
        Ok(_) if is_given(rt, i.saturating_add(1)) => {
            writeln!(out, "more than one file was named; nothing was run")
        }
        Ok(n) => named(rt, &path[..n], mode, out),
    }
}

fn main(rt: HostRuntime) -> io::Result<()> {
    let mut out = BufWriter::with_capacity(rt.alloc(), 65536, io::writer(&rt))?;
    match option(&rt) {
        Mode::Whole => rest(&rt, 1, Mode::Whole, &mut out)?,
        mode => rest(&rt, 2, mode, &mut out)?,
    }
    out.flush()
}
