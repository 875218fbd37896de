// What a command is (document 01, "The commands, checks in order"): the registers that it is given, an ordered list of checks,
// and what it does where none holds. Here are the shapes that all commands share, the page rule and the local range.
// The board, the words, the records and the bytes go through the commands as they are lent, each by itself: so a type says that a FETCH
// touches no byte and that a configuration only reads records and bytes, as C lends them. `Checked` is what a command asks of them.
#![tactic(auto)]

ghost use Rattle.std.specs.Prelude.{◌≡◌, true, ◌+◌, ◌<◌, ◌≤◌};
ghost use Rattle.board.specs.Board.{allowed, size_of, start_of, bytes_of};
ghost use Rattle.command.specs.Local.{crosses_page, outside};
ghost use Rattle.command.specs.Outcome.{handed};

use answers::Error;
use board::Board;
use sharing::Note;

// The registers of a command besides its opcode and endpoint. Each may be any 64-bit number.
#[derive(Clone, Copy)]
pub struct Registers {
    pub arg0: u64,
    pub addr: u64,
    pub size: u64,
    pub arg1: u64,
}

// What a command that is not refused comes back with: ARG_1 afterwards, and what is noted in the sharing records.
#[derive(Clone, Copy)]
pub struct Completion {
    pub arg1: u64,
    pub note: Note,
}

// What the caller of a command is told: the answer, and ARG_1 afterwards.
#[derive(Clone, Copy)]
pub struct Told {
    pub answer: Result<(), Error>,
    pub arg1: u64,
}

// What is told of a command that was given ARG_1 as `given`: a refusal leaves it as it was.
pub fn tell(done: Result<Completion, Error>, given: u64) -> Told
    ensures answer { result.answer ≡ (handed given done).answer }
    ensures arg1 { result.arg1 ≡ (handed given done).arg1 }
{
    match done {
        Ok(completion) => Told {
            answer: Ok(()),
            arg1: completion.arg1,
        },
        Err(error) => Told {
            answer: Err(error),
            arg1: given,
        },
    }
}

// The page rule.
#[tactic(auto, unfolding(crate::specs::Local::crosses_page))]
pub fn crosses_page(a: Registers) -> bool
    ensures { result ≡ crosses_page a }
{
    numbers::sum_above(a.addr % 4096, a.size, 4096)
}

// Is the local range outside the tile's memory?
#[tactic(auto, unfolding(crate::specs::Local::outside))]
pub fn leaves_tile(b: Board, tile: u64, a: Registers) -> bool
    ensures { result ≡ outside b tile a }
{
    let memory = board::size(b, tile);
    numbers::sum_above(a.addr, a.size, memory)
}

// Where size bytes of a tile's memory from address `at` on start among the bytes of all tiles. The size is read by the clauses alone: with
// it the place says that they all lie there.
#[tactic(auto, using(crate::proofs::CheckedLaws::places))]
pub fn place(b: Board, tile: u64, at: u64, size: u64) -> u64
    requires { (allowed b ≡ true) × (tile < b.tiles) × (at + size ≤ size_of b tile) }
    ensures value { result ≡ start_of b tile + at }
    ensures inside { result + size ≤ bytes_of b }
{
    board::start(b, tile) + at
}
