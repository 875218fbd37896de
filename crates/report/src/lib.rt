// The lines that a run prints, in columns.
#![tactic(auto)]

ghost use Rattle.std.specs.Prelude.{OnOk, Some, ◌++◌, codes};
ghost use Rattle.std.specs.Io.KnownBytes.{Appends};
ghost use Rattle.report.specs.Lines.{header, tile, place, number_text, named, wrong_answer, wrong_arg1, counted, last_line};

mod labels;

use labels::Label;
use language::{Named, Outcome};
use script::Statement;
use std::fmt::{self, Formatter};
use std::io::{self, ErrorKind, Write};

// What a statement answered, and ARG_1 afterwards, where it is a command.
#[derive(Clone, Copy)]
pub struct Answered {
    pub outcome: Outcome,
    pub arg1: Option<u64>,
}

// What is counted for the last line.
#[derive(Clone, Copy, Default)]
pub struct Tally {
    pub commands: u64,
    pub refusals: u64,
    pub expectations: u64,
    pub failed: u64,
}

impl Answered {
    // Is this what was expected? ARG_1 may be left open.
    pub fn meets(self, expected: Answered) -> bool {
        self.outcome == expected.outcome && (expected.arg1.is_none() || expected.arg1 == self.arg1)
    }
}

impl Tally {
    // Every answer but NONE, yes and no is a refusal.
    pub fn count(&mut self, answered: Answered) {
        if answered.arg1.is_some() {
            self.commands = self.commands.saturating_add(1);
        }
        if let Outcome::Refused(_) = answered.outcome {
            self.refusals = self.refusals.saturating_add(1);
        }
    }

    pub fn expect(&mut self, met: bool) {
        self.expectations = self.expectations.saturating_add(1);
        if !met {
            self.failed = self.failed.saturating_add(1);
        }
    }
}

// So many of something that has a plural in s.
#[derive(Clone, Copy)]
struct Counted(u64, &'static str);

impl fmt::Display for Counted {
    ghost output = { λ c. Some (counted c.0 c.1.now) };

    fn fmt<W: fmt::Write>(&self, f: &mut Formatter<W>) -> fmt::Result {
        let Counted(count, what) = *self;
        match count {
            1 => write!(f, "1 {what}"),
            _ => write!(f, "{count} {what}s"),
        }
    }
}

pub fn header<W: Write>(out: &mut W) -> io::Result<()>
    ensures { OnOk result (Appends (W.contents out.old) (W.contents out.new) header) }
{
    writeln!(
        out,
        " line  tile  statement            no  answer              ARG_1"
    )
}

// The tile that a statement which answers is about; the wiring is about none.
fn tile_of(statement: &Statement<'_>) -> Option<u64> {
    match statement {
        Statement::Endpoint { at, .. } => Some(at.tile),
        Statement::Invalidate(at) => Some(at.tile),
        Statement::Command { at, .. } => Some(at.tile),
        Statement::Privileged { tile, .. } => Some(*tile),
        Statement::Respond { tile } => Some(*tile),
        _ => None,
    }
}

#[tactic(auto, using(output::proofs::Padding::right_aligned_decimal))]
fn tile<W: Write>(out: &mut W, about: Option<u64>) -> io::Result<()>
    ensures { OnOk result (Appends (W.contents out.old) (W.contents out.new) (tile about)) }
{
    match about {
        Some(tile) => write!(out, "  {tile:>4}"),
        None => write!(out, "     -"),
    }
}

// The line's number, the tile and the statement.
fn place<W: Write>(out: &mut W, line: u64, about: Option<u64>, label: &str) -> io::Result<()>
    ensures { OnOk result (Appends (W.contents out.old) (W.contents out.new) (place line about label.now)) }
{
    output::decimal(out, line, 5)?;
    tile(out, about)?;
    write!(out, "  ")?;
    output::left(out, label.as_bytes(), 19)?;
    write!(out, " ")
}

// What is made of a label always has room in it.
fn made(label: Result<Label, fmt::Error>) -> io::Result<Label> {
    match label {
        Ok(label) => Ok(label),
        Err(_) => Err(ErrorKind::WriteZero.into()),
    }
}

#[tactic(auto, using(output::proofs::Padding::right_aligned_decimal))]
fn number<W: Write>(out: &mut W, number: Option<u32>) -> io::Result<()>
    ensures { OnOk result (Appends (W.contents out.old) (W.contents out.new) (number_text number)) }
{
    match number {
        Some(number) => write!(out, "{number:>3}  "),
        None => write!(out, "  -  "),
    }
}

// An answer's name, and ARG_1 after a command's.
fn named<W: Write>(out: &mut W, name: &str, arg1: Option<u64>) -> io::Result<()>
    ensures { OnOk result (Appends (W.contents out.old) (W.contents out.new) (named name.now arg1)) }
{
    match arg1 {
        Some(arg1) => {
            output::left(out, name.as_bytes(), 18)?;
            writeln!(out, "  {arg1}")
        }
        None => writeln!(out, "{name}"),
    }
}

// What a statement answered.
pub fn answer_line<W: Write>(
    out: &mut W,
    line: u64,
    statement: &Statement<'_>,
    answered: Answered,
) -> io::Result<()> {
    let label = made(labels::of(statement))?;
    place(out, line, tile_of(statement), label.as_str())?;
    let outcome = answered.outcome;
    number(out, outcome.number())?;
    named(out, outcome.name(), answered.arg1)
}

fn wrong_answer<W: Write>(out: &mut W, name: &str) -> io::Result<()>
    ensures { OnOk result (Appends (W.contents out.old) (W.contents out.new) (wrong_answer name.now)) }
{
    writeln!(out, "  -  failed: the answer was {name}")
}

fn wrong_arg1<W: Write>(out: &mut W, arg1: u64, not: u64) -> io::Result<()>
    ensures { OnOk result (Appends (W.contents out.old) (W.contents out.new) (wrong_arg1 arg1 not)) }
{
    writeln!(out, "  -  failed: ARG_1 was {arg1}, not {not}")
}

// A failed expectation: what was expected, and what was answered instead.
pub fn failed_line<W: Write>(
    out: &mut W,
    line: u64,
    expected: Answered,
    answered: Answered,
) -> io::Result<()> {
    let label = made(labels::expected(expected.outcome.name()))?;
    place(out, line, None, label.as_str())?;
    if answered.outcome != expected.outcome {
        return wrong_answer(out, answered.outcome.name());
    }
    wrong_arg1(out, answered.arg1.unwrap_or(0), expected.arg1.unwrap_or(0))
}

// The last line.
pub fn last_line<W: Write>(out: &mut W, tally: Tally) -> io::Result<()>
    ensures { OnOk result (Appends (W.contents out.old) (W.contents out.new)
        (last_line tally.commands tally.refusals tally.expectations tally.failed)) }
{
    let commands = Counted(tally.commands, "command");
    let refusals = Counted(tally.refusals, "refusal");
    let expectations = Counted(tally.expectations, "expectation");
    let failed = tally.failed;
    writeln!(
        out,
        "{commands}, {refusals}, {expectations}, {failed} failed"
    )
}

#[cfg(test)]
mod tests {
    use super::*;
    use language::{Keyword, Opcode};
    use script::Place;
    use std::test::Fail;

    #[test]
    fn lines(rt: HostRuntime) -> Result<(), Fail> {
        let mut out: Vec<u8> = Vec::new(rt.alloc());
        let registers = command::Registers {
            arg0: 0,
            addr: 0,
            size: 0,
            arg1: 0,
        };
        let statement = Statement::Command {
            keyword: Keyword::Named(Opcode::Send),
            at: Place {
                tile: 0,
                endpoint: 4,
            },
            opcode: 1,
            registers,
        };
        let expected = Answered {
            outcome: Outcome::Done,
            arg1: Some(78),
        };
        let answered = Answered {
            outcome: Outcome::Done,
            arg1: Some(77),
        };
        answer_line(&mut out, 12, &statement, answered)?;
        let line = "   12     0  SEND 4                0  NONE                77\n";
        assert_eq!(rt; out.as_slice(), line.as_bytes());
        out.clear();
        failed_line(&mut out, 13, expected, answered)?;
        let line = "   13     -  expect NONE           -  failed: ARG_1 was 77, not 78\n";
        assert_eq!(rt; out.as_slice(), line.as_bytes());
        Ok(())
    }
}
