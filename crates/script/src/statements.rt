// What a statement says.
ghost use Rattle.std.specs.Prelude.{◌≡◌, ◌-◌};
ghost use Rattle.board.specs.Board.{size_of};

use super::Before;
use board::Board;
use command::Registers;
use endpoint::{Endpoint, MemoryFields, ReceiveFields, SendFields, Words};
use language::{EndpointKind, Keyword, Outcome};
use lexer::Tokens;

// TILE:ENDPOINT
#[derive(Clone, Copy)]
pub struct Place {
    pub tile: u64,
    pub endpoint: u64,
}

// TILE:ADDRESS
#[derive(Clone, Copy)]
pub struct Address {
    pub tile: u64,
    pub byte: u64,
}

impl Address {
    // How many bytes of the tile's memory there are from the address on.
    pub fn room(self, board: Board) -> u64
        ensures { result ≡ size_of board self.tile - self.byte }
    {
        board::size(board, self.tile).saturating_sub(self.byte)
    }
}

// How an endpoint is configured: by the fields of its kind, or by the three words themselves.
#[derive(Clone, Copy)]
pub enum Given {
    Send(SendFields),
    Receive(ReceiveFields),
    Memory(MemoryFields),
    Words(Words),
}

impl Given {
    pub fn kind(self) -> EndpointKind {
        match self {
            Given::Send(_) => EndpointKind::Send,
            Given::Receive(_) => EndpointKind::Receive,
            Given::Memory(_) => EndpointKind::Memory,
            Given::Words(_) => EndpointKind::Words,
        }
    }

    // The three words. Whether they are acceptable is the machine's to say.
    pub fn words(self) -> Words {
        match self {
            Given::Send(fields) => endpoint::words_of(Endpoint::Send(fields)),
            Given::Receive(fields) => endpoint::words_of(Endpoint::Receive(fields)),
            Given::Memory(fields) => endpoint::words_of(Endpoint::Memory(fields)),
            Given::Words(words) => words,
        }
    }
}

#[derive(Clone, Copy)]
pub enum Statement<'a> {
    Board(Board),
    Activity {
        tile: u64,
        id: u16,
    },
    Endpoint {
        at: Place,
        given: Given,
    },
    Invalidate(Place),
    // The items are what the line still has behind the address.
    Bytes {
        to: Address,
        items: Tokens<'a>,
    },
    Command {
        keyword: Keyword,
        at: Place,
        // Any number: `COMMAND opcode=` and `PRIVILEGED opcode=` may give the machine ones that it refuses.
        opcode: u64,
        registers: Registers,
    },
    Privileged {
        keyword: Keyword,
        tile: u64,
        opcode: u64,
        arg0: u64,
        arg1: u64,
    },
    Respond {
        tile: u64,
    },
    Wiring,
    Expect {
        outcome: Outcome,
        arg1: Option<u64>,
    },
    Show(Place),
    Dump {
        from: Address,
        count: u64,
    },
    Waiting {
        tile: u64,
    },
    Sheet,
    Drawing,
}

impl Statement<'_> {
    // What the statement answers.
    pub fn answers(&self) -> Before {
        match self {
            Statement::Command { .. } | Statement::Privileged { .. } => Before::Command,
            Statement::Endpoint { .. } | Statement::Invalidate(_) => Before::Answer,
            Statement::Respond { .. } => Before::Answer,
            Statement::Wiring => Before::YesOrNo,
            _ => Before::Nothing,
        }
    }
}
