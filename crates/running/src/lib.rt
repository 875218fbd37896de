// The second pass: each line is read again, and its statement is run.
#![tactic(auto)]

use report::{Answered, Tally};
use script::{Context, Statement};
use statements::System;
use std::io::{self, Write};

// What is printed: a line for each answer and what the statements print, or the sheet or the drawing at the end alone.
#[derive(Clone, Copy, Debug, PartialEq, Eq)]
pub enum Mode {
    Whole,
    Sheet,
    Drawing,
}

// What a run keeps from line to line: what is printed, the line's number, what the lines before it said, the last answer, and
// the tally.
#[derive(Drop)]
struct Rehearsal<'a> {
    mode: Mode,
    system: &'a mut System,
    line: u64,
    context: Context,
    last: Option<Answered>,
    tally: Tally,
}

impl Rehearsal<'_> {
    // A statement answered.
    fn answer<W: Write>(
        &mut self,
        statement: &Statement<'_>,
        answered: Answered,
        out: &mut W,
    ) -> io::Result<()> {
        self.last = Some(answered);
        self.tally.count(answered);
        if self.mode == Mode::Whole {
            report::answer_line(out, self.line, statement, answered)?;
        }
        Ok(())
    }

    // An expectation of the last answer. The script was checked, so there is one.
    fn expect<W: Write>(&mut self, expected: Answered, out: &mut W) -> io::Result<()> {
        let Some(last) = self.last else {
            return Ok(());
        };
        let met = last.meets(expected);
        self.tally.expect(met);
        if !met && self.mode == Mode::Whole {
            report::failed_line(out, self.line, expected, last)?;
        }
        Ok(())
    }

    // What a statement prints that has no answer.
    fn print<W: Write>(&self, statement: &Statement<'_>, out: &mut W) -> io::Result<()> {
        match *statement {
            Statement::Show(at) => self.system.show(at, out),
            Statement::Dump { from, count } => self.system.dump(from, count, out),
            Statement::Waiting { tile } => self.system.waiting(tile, out),
            Statement::Sheet => self.system.sheet(out),
            Statement::Drawing => self.system.drawing(out),
            _ => Ok(()),
        }
    }

    fn statement<W: Write>(&mut self, statement: &Statement<'_>, out: &mut W) -> io::Result<()> {
        if let Some(answered) = self.system.carry_out(statement) {
            return self.answer(statement, answered, out);
        }
        match *statement {
            Statement::Expect { outcome, arg1 } => self.expect(Answered { outcome, arg1 }, out),
            Statement::Activity { tile, id } => {
                self.system.set_activity(tile, id);
                Ok(())
            }
            Statement::Bytes { to, items } => {
                self.system.put(to, items);
                Ok(())
            }
            _ if self.mode == Mode::Whole => self.print(statement, out),
            _ => Ok(()),
        }
    }

    // The next line. The script has no mistake, so it is blank where it is no statement.
    fn line<W: Write>(&mut self, text: &[u8], out: &mut W) -> io::Result<()> {
        self.line = self.line.saturating_add(1);
        let Ok(Some(statement)) = script::parse(text, self.context) else {
            return Ok(());
        };
        self.context = self.context.after(&statement);
        self.statement(&statement, out)
    }

    // What is printed after the last statement.
    fn finish<W: Write>(&self, out: &mut W) -> io::Result<()> {
        match self.mode {
            Mode::Whole => {}
            Mode::Sheet => self.system.sheet(out)?,
            Mode::Drawing => {
                self.system.drawing(out)?;
                write!(out, "// ")?;
            }
        }
        report::last_line(out, self.tally)
    }
}

// Runs a script that has no mistake.
pub fn run<W: Write>(
    source: &[u8],
    mode: Mode,
    system: &mut System,
    out: &mut W,
) -> io::Result<()> {
    if mode == Mode::Whole {
        report::header(out)?;
    }
    let mut rehearsal = Rehearsal {
        mode,
        system,
        line: 0,
        context: Context::at_start(),
        last: None,
        tally: Tally::default(),
    };
    for text in source.split_inclusive(|byte| *byte == b'\n') {
        rehearsal.line(text, out)?;
    }
    rehearsal.finish(out)
}
