// What the lines before a line said of it.
use super::Statement;
use board::Board;
use language::Outcome;

// What the statement right before a line answers.
#[derive(Clone, Copy, Debug, PartialEq, Eq)]
pub enum Before {
    Nothing,
    // A command's answer, with ARG_1.
    Command,
    Answer,
    YesOrNo,
    // There was a mistake, and nothing is known.
    Mistake,
}

impl Before {
    pub fn may_be_command(self) -> bool {
        matches!(self, Before::Command | Before::Mistake)
    }

    // Can this be what is answered?
    pub fn may_give(self, outcome: Outcome) -> bool {
        match outcome {
            Outcome::Yes | Outcome::No => matches!(self, Before::YesOrNo | Before::Mistake),
            _ => self != Before::YesOrNo,
        }
    }
}

// The board, as far as it is known.
#[derive(Clone, Copy)]
enum Seen {
    Nothing,
    // After a mistake, so that what follows is checked as if it had been right: the largest.
    Largest,
    Read(Board),
}

#[derive(Clone, Copy)]
pub struct Context {
    seen: Seen,
    pub before: Before,
}

// The same number of pages for each tile, in the bytes of a word. The remainder changes no memory that a script may give.
pub fn alike(memory: u64) -> u64 {
    memory / 4096 % 256 * 0x0101_0101_0101_0101
}

impl Context {
    // Before the first line.
    pub fn at_start() -> Self {
        Context {
            seen: Seen::Nothing,
            before: Before::Nothing,
        }
    }

    // The board that statements are read on.
    pub fn board(self) -> Option<Board> {
        match self.seen {
            Seen::Nothing => None,
            Seen::Largest => Some(Board {
                tiles: 8,
                pages: alike(65536),
            }),
            Seen::Read(board) => Some(board),
        }
    }

    pub fn has_read_board(self) -> bool {
        matches!(self.seen, Seen::Read(_))
    }

    pub fn after(self, statement: &Statement<'_>) -> Self {
        let seen = match statement {
            Statement::Board(board) => Seen::Read(*board),
            _ => self.seen,
        };
        Context {
            seen,
            before: statement.answers(),
        }
    }

    // After a mistake, which is told once.
    pub fn after_mistake(self) -> Self {
        let seen = match self.seen {
            Seen::Nothing => Seen::Largest,
            seen => seen,
        };
        Context {
            seen,
            before: Before::Mistake,
        }
    }
}
