// What each statement does on the board.
#![tactic(auto)]

ghost use Rattle.std.specs.Prelude.{◌≡◌, true, IfOk, Some, None, vec_len};
ghost use Rattle.board.specs.Board.{allowed, sizes_right};
ghost use Rattle.command.specs.Outcome.{handed};
ghost use Rattle.statements.specs.Answers.{outcome_of};

mod printing;

use answers::Error;
use board::Board;
use command::{Completion, Registers};
use endpoint::Words;
use language::Outcome;
use lexer::Tokens;
use report::Answered;
use script::{Address, Item, Place, Statement};
use std::alloc::{AllocError, Global};

// How many words an endpoint has, a tile's endpoints have, and a tile's sharing record has; the record begins with CUR_ACT.
const ENDPOINT: usize = 3;

const ENDPOINTS: usize = 192;

const RECORD: usize = 67;

// A board, and what the machine is lent of it: the endpoints of all tiles, their sharing records, and their memory.
#[derive(Drop)]
pub struct System {
    pub board: Board,
    pub words: Vec<u64>,
    pub sharing: Vec<u64>,
    pub memory: Vec<u8>,
}

// An answer without ARG_1.
fn answered<T: Drop>(answer: Result<T, Error>) -> Answered
    ensures outcome { result.outcome ≡ outcome_of answer }
    ensures arg1 { result.arg1 ≡ None }
{
    Answered {
        outcome: match answer {
            Ok(_) => Outcome::Done,
            Err(error) => Outcome::Refused(error),
        },
        arg1: None,
    }
}

// A command's answer, where ARG_1 was given: a refusal leaves it as it was.
fn completed(arg1: u64, done: Result<Completion, Error>) -> Answered
    ensures outcome { result.outcome ≡ outcome_of (handed arg1 done).answer }
    ensures arg1 { result.arg1 ≡ Some (handed arg1 done).arg1 }
{
    let told = command::tell(done, arg1);
    Answered {
        arg1: Some(told.arg1),
        ..answered(told.answer)
    }
}

impl System {
    // A board at its start: every endpoint is INVALID, and every byte 0.
    #[tactic(auto, unfolding(board::specs::Board::sizes_right, board::specs::Board::allowed))]
    pub fn new(alloc: Global, board: Board) -> Result<Self, AllocError>
        ensures board { IfOk result (λ s. s.board ≡ board) }
        ensures sizes { allowed board ≡ true
            → IfOk result (λ s. sizes_right board (vec_len s.words) (vec_len s.sharing) (vec_len s.memory) ≡ true) }
    {
        let tiles = board.tiles.min(8) as usize;
        Ok(System {
            board,
            words: vec![in alloc; 0u64; tiles * ENDPOINTS]?,
            sharing: vec![in alloc; 0u64; tiles * RECORD]?,
            memory: vec![in alloc; 0u8; contents::bytes_of(board)]?,
        })
    }

    fn configure(&mut self, at: Place, words: Words) -> Answered {
        answered(machine::configure(
            self.board,
            &mut self.words,
            &self.sharing,
            &self.memory,
            at.tile,
            at.endpoint,
            words,
        ))
    }

    fn invalidate(&mut self, at: Place) -> Answered {
        answered(machine::invalidate(
            self.board,
            &mut self.words,
            &self.sharing,
            &self.memory,
            at.tile,
            at.endpoint,
        ))
    }

    // The opcode is a number, since a script may give one that the machine refuses.
    fn command(&mut self, at: Place, opcode: u64, registers: Registers) -> Answered {
        let done = machine::carry_out(
            self.board,
            &mut self.words,
            &mut self.sharing,
            &mut self.memory,
            at.tile,
            opcode,
            at.endpoint,
            registers,
        );
        completed(registers.arg1, done)
    }

    fn privileged(&mut self, tile: u64, opcode: u64, arg0: u64, arg1: u64) -> Answered {
        let done = machine::privileged(
            self.board,
            &self.words,
            &mut self.sharing,
            &self.memory,
            tile,
            opcode,
            arg0,
            arg1,
        );
        completed(arg1, done)
    }

    fn respond(&mut self, tile: u64) -> Answered {
        answered(machine::respond(
            self.board,
            &self.words,
            &mut self.sharing,
            &self.memory,
            tile,
        ))
    }

    fn check_wiring(&self) -> Answered {
        let sound = wiring::check_wiring(self.board, &self.words, &self.sharing, &self.memory);
        Answered {
            outcome: match sound {
                Ok(true) => Outcome::Yes,
                Ok(false) => Outcome::No,
                Err(error) => Outcome::Refused(error),
            },
            arg1: None,
        }
    }

    // What a statement answers that answers.
    pub fn carry_out(&mut self, statement: &Statement<'_>) -> Option<Answered> {
        match *statement {
            Statement::Endpoint { at, given } => Some(self.configure(at, given.words())),
            Statement::Invalidate(at) => Some(self.invalidate(at)),
            Statement::Command {
                at,
                opcode,
                registers,
                ..
            } => Some(self.command(at, opcode, registers)),
            Statement::Privileged {
                tile,
                opcode,
                arg0,
                arg1,
                ..
            } => Some(self.privileged(tile, opcode, arg0, arg1)),
            Statement::Respond { tile } => Some(self.respond(tile)),
            Statement::Wiring => Some(self.check_wiring()),
            _ => None,
        }
    }

    // A tile's activity is this one from now on, with no unread message.
    pub fn set_activity(&mut self, tile: u64, id: u16) {
        let mut cur_acts = self.sharing.iter_mut().step_by(RECORD);
        if let Some(word) = cur_acts.nth(tile as usize) {
            *word = u64::from(id);
        }
    }

    // CUR_ACT of a tile; 0 for a tile that the board does not have.
    fn cur_act(&self, tile: usize) -> u64 {
        let mut cur_acts = self.sharing.iter().step_by(RECORD);
        cur_acts.nth(tile).copied().unwrap_or(0)
    }

    // Puts the items of `bytes` from an address on.
    pub fn put(&mut self, to: Address, items: Tokens<'_>) {
        let mut at = contents::place(self.board, to.tile, to.byte);
        for token in items {
            if let Ok(item) = Item::try_from(token.kind) {
                contents::put(&mut self.memory, at, item.as_bytes());
                at = at.saturating_add(item.as_bytes().len());
            }
        }
    }
}

#[cfg(test)]
mod tests {
    use super::*;
    use std::test::Fail;

    // The machine takes what it is lent, and there are no channels.
    #[test]
    fn starts(rt: HostRuntime) -> Result<(), Fail> {
        let board = Board {
            tiles: 2,
            pages: 0x0201,
        };
        let mut system = System::new(rt.alloc(), board)?;
        let answered = system.carry_out(&Statement::Wiring).ok_or("no answer")?;
        assert!(rt; matches!(answered.outcome, Outcome::Yes));
        Ok(())
    }
}
