// The first pass: each line is read, each mistake is told, and nothing is run.
#![tactic(auto)]

use board::Board;
use script::Context;
use std::io::{self, Write};

// What the first pass found: how many lines, what they said of the board, and how many mistakes.
#[derive(Clone, Copy)]
pub struct Checked {
    lines: u64,
    pub context: Context,
    pub mistakes: u64,
}

impl Checked {
    // The board of a script that has no mistake.
    pub fn board(self) -> Option<Board> {
        match self.mistakes {
            0 => self.context.board(),
            _ => None,
        }
    }

    // The next line.
    fn line<W: Write>(&mut self, text: &[u8], out: &mut W) -> io::Result<()> {
        self.lines = self.lines.saturating_add(1);
        match script::parse(text, self.context) {
            Ok(None) => {}
            Ok(Some(statement)) => self.context = self.context.after(&statement),
            Err(mistake) => {
                self.context = self.context.after_mistake();
                self.mistakes = self.mistakes.saturating_add(1);
                mistakes::tell(out, self.mistakes, self.lines, &mistake)?;
            }
        }
        Ok(())
    }
}

pub fn check<W: Write>(source: &[u8], out: &mut W) -> io::Result<Checked> {
    let mut checked = Checked {
        lines: 0,
        context: Context::at_start(),
        mistakes: 0,
    };
    for text in source.split_inclusive(|byte| *byte == b'\n') {
        checked.line(text, out)?;
    }

    // A script that ends before its board is a mistake too.
    if checked.context.board().is_none() {
        checked.mistakes = checked.mistakes.saturating_add(1);
        mistakes::no_board(out, checked.lines.saturating_add(1))?;
    }
    Ok(checked)
}
