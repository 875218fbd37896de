// The machine: one command of a tile carried out, an endpoint configured or invalidated, and a tile's privileged side. The public
// functions check everything themselves and ask nothing of their caller; `step` is what runs on a checked machine.
#![tactic(auto)]

ghost use Rattle.std.specs.Prelude.{◌≡◌, true, List, ℕ, ◌+◌, ◌*◌, ◌<◌, ◌≤◌, length, IfOk};
ghost use Rattle.board.specs.Board.{bytes_of};
ghost use Rattle.endpoint.specs.Endpoint.{fields_of};
ghost use Rattle.endpoint.specs.Acceptable.{acceptable_words};
ghost use Rattle.table.specs.Table.{place, stored, view};
ghost use Rattle.command.specs.Checks.{first};
ghost use Rattle.command.specs.Checked.{Checked};
ghost use Rattle.command.specs.Outcome.{handed, outcome, completes, carried};
ghost use Rattle.sharing.specs.Sharing.{Inside, Shared, own_of};
ghost use Rattle.machine.specs.Machine.{opcode_of, step_of, privileged_step, machine_right, host_checks, command_of, configure_of, invalidate_of, privileged_of, respond_of, waits_of, left, left_by};
ghost use Rattle.machine.specs.Lent.{Lent};

use answers::{Error, check};
use board::Board;
use command::{Completion, Registers};
use endpoint::{Endpoint, Words};
use sharing::{Note, Waiting};

// Are all sizes as the board asks, and are the table and the sharing records good?
#[tactic(auto, unfolding(crate::specs::Machine::machine_right))]
pub fn machine_right(b: Board, words: &[u64], sharing: &[u64], mem: &[u8]) -> bool
    ensures { result ≡ machine_right b words.now sharing.now mem.now }
{
    if !board::sizes_right(b, words.len(), sharing.len(), mem.len()) {
        return false;
    }
    table::good(b, words) && sharing::good(b, sharing)
}

// The host's refusals: BAD_MACHINE, then NO_SUCH_TILE.
#[tactic(auto, using(crate::proofs::HostLaws::lent), unfolding(crate::specs::Machine::host_checks))]
pub fn host_checks(
    b: Board,
    words: &[u64],
    sharing: &[u64],
    mem: &[u8],
    tile: u64,
) -> Result<(), Error>
    ensures value { result ≡ first (host_checks b words.now sharing.now mem.now tile) }
    ensures lent { IfOk result (λ x. Lent b words.now sharing.now mem.now tile) }
{
    check(machine_right(b, words, sharing, mem), Error::BadMachine)?;
    check(tile < b.tiles, Error::NoSuchTile)
}

// One command of a tile whose activity id is own, on a checked machine. What it notes is in its completion.
#[tactic(auto, unfolding(crate::specs::Machine::opcode_of, crate::specs::Machine::step_of))]
fn dispatch(
    b: Board,
    words: &mut [u64],
    sharing: &[u64],
    mem: &mut [u8],
    own: u16,
    tile: u64,
    opcode: u64,
    ep: u64,
    a: Registers,
) -> Result<Completion, Error>
    requires { Checked b words.old tile × Shared b sharing.now × (length mem.old ≡ bytes_of b) }
    ensures { outcome (handed a.arg1 result) words.new mem.new ≡ carried a.arg1 words.old mem.old (step_of b (view words.old) sharing.now mem.old own tile (opcode_of opcode) ep a) }
{
    // The opcode comes from C as a number, and each number has its answer here.
    match opcode {
        0 => Ok(Completion {
            arg1: a.arg1,
            note: Note::Nothing,
        }),
        1 => messages::send(b, words, sharing, mem, own, tile, ep, a),
        2 => messages::reply(b, words, sharing, mem, own, tile, ep, a),
        3 => access::access::<false>(b, words, mem, own, tile, ep, a),
        4 => access::access::<true>(b, words, mem, own, tile, ep, a),
        5 => receive::fetch(b, words, own, tile, ep),
        6 => receive::ack_msg(b, words, own, tile, ep, a),
        _ => Err(Error::UnknownCmd),
    }
}

// One command of a tile on a checked machine: what it noted goes into the sharing records.
#[tactic(auto, unfolding(sharing::specs::Note::noted))]
pub fn step(
    b: Board,
    words: &mut [u64],
    sharing: &mut [u64],
    mem: &mut [u8],
    tile: u64,
    opcode: u64,
    ep: u64,
    a: Registers,
) -> Result<Completion, Error>
    requires { Checked b words.old tile × Shared b sharing.old × (length mem.old ≡ bytes_of b) }
    ensures { left (handed a.arg1 result) words.new sharing.new mem.new ≡ left_by sharing.old tile (carried a.arg1 words.old mem.old (step_of b (view words.old) sharing.old mem.old (own_of sharing.old tile) tile (opcode_of opcode) ep a)) }
{
    let own = sharing::own(sharing, tile);
    let done = dispatch(b, words, sharing, mem, own, tile, opcode, ep, a)?;
    sharing::take_note(b, sharing, tile, done.note);
    Ok(done)
}

// Carries out one command of a tile. A refusal gives ARG_1 back as it was given.
#[tactic(auto, using(command::proofs::CheckFacts::first_then), unfolding(crate::specs::Machine::command_of, sharing::specs::Note::noted))]
pub fn carry_out(
    b: Board,
    words: &mut [u64],
    sharing: &mut [u64],
    mem: &mut [u8],
    tile: u64,
    opcode: u64,
    ep: u64,
    a: Registers,
) -> Result<Completion, Error>
    ensures { left (handed a.arg1 result) words.new sharing.new mem.new ≡ left_by sharing.old tile (carried a.arg1 words.old mem.old (command_of b words.old sharing.old mem.old tile opcode ep a)) }
{
    host_checks(b, words, sharing, mem, tile)?;
    step(b, words, sharing, mem, tile, opcode, ep, a)
}

// Acceptable words become those of endpoint ep of a tile: it is then the endpoint that they say. The memory is read by the clause alone: it
// is the one that they are acceptable in.
fn write_endpoint(words: &mut [u64], tile: u64, ep: u64, memory: u64, w: Words)
    requires { (tile * 192 + 192 ≤ length words.old) × (acceptable_words memory w ≡ true) × (ep < 64) }
    ensures { words.new ≡ stored words.old (place tile ep) (fields_of w) }
{
    table::write_words(words, tile as usize, ep, w);
}

// Gives endpoint ep of a tile the three words w.
#[tactic(auto, using(command::proofs::CheckFacts::first_then), unfolding(crate::specs::Machine::configure_of))]
pub fn configure(
    b: Board,
    words: &mut [u64],
    sharing: &[u64],
    mem: &[u8],
    tile: u64,
    ep: u64,
    w: Words,
) -> Result<(), Error>
    ensures { outcome (completes result 0) words.new mem.now ≡ carried 0 words.old mem.now (configure_of b words.old sharing.now mem.now tile ep w) }
{
    host_checks(b, words, sharing, mem, tile)?;
    check(ep < 64, Error::BadEp)?;
    let memory = board::size(b, tile);
    check(endpoint::acceptable_words(memory, w), Error::BadConfig)?;
    write_endpoint(words, tile, ep, memory, w);
    Ok(())
}

// Makes endpoint ep of a tile INVALID.
#[tactic(auto, using(command::proofs::CheckFacts::first_then), unfolding(crate::specs::Machine::invalidate_of))]
pub fn invalidate(
    b: Board,
    words: &mut [u64],
    sharing: &[u64],
    mem: &[u8],
    tile: u64,
    ep: u64,
) -> Result<(), Error>
    ensures { outcome (completes result 0) words.new mem.now ≡ carried 0 words.old mem.now (invalidate_of b words.old sharing.now mem.now tile ep) }
{
    host_checks(b, words, sharing, mem, tile)?;
    check(ep < 64, Error::BadEp)?;
    table::store(words, tile as usize, ep, Endpoint::Invalid);
    Ok(())
}

// ---- the privileged side of a tile

// One privileged command on a checked machine.
#[tactic(auto, unfolding(crate::specs::Machine::privileged_step))]
fn privileged_step(
    sharing: &[u64],
    tile: u64,
    opcode: u64,
    arg0: u64,
    arg1: u64,
) -> Result<Completion, Error>
    requires { Inside tile 66 (length sharing.now) }
    ensures { (ws bs : List ℕ) → outcome (handed arg1 result) ws bs ≡ carried arg1 ws bs (privileged_step sharing.now tile opcode arg0 arg1) }
{
    // The opcode comes from C as a number, and each number has its answer here.
    match opcode {
        0 => Ok(Completion {
            arg1,
            note: Note::Nothing,
        }),
        4 => Ok(Completion {
            arg1: sharing::cur_act(sharing, tile),
            note: Note::Exchanged((arg0 % 0x1_0000_0000) as u32),
        }),
        _ => Err(Error::UnknownCmd),
    }
}

// Carries out one privileged command of a tile. A refusal gives the second argument back as it was given.
#[tactic(auto, using(command::proofs::CheckFacts::first_then), unfolding(crate::specs::Machine::privileged_of, sharing::specs::Note::noted))]
pub fn privileged(
    b: Board,
    words: &[u64],
    sharing: &mut [u64],
    mem: &[u8],
    tile: u64,
    opcode: u64,
    arg0: u64,
    arg1: u64,
) -> Result<Completion, Error>
    ensures { left (handed arg1 result) words.now sharing.new mem.now ≡ left_by sharing.old tile (carried arg1 words.now mem.now (privileged_of b words.now sharing.old mem.now tile opcode arg0 arg1)) }
{
    host_checks(b, words, sharing, mem, tile)?;
    let done = privileged_step(sharing, tile, opcode, arg0, arg1)?;
    sharing::take_note(b, sharing, tile, done.note);
    Ok(done)
}

// The tile has seen its oldest request.
#[tactic(auto, using(command::proofs::CheckFacts::first_then), unfolding(crate::specs::Machine::respond_of, sharing::specs::Note::noted))]
pub fn respond(
    b: Board,
    words: &[u64],
    sharing: &mut [u64],
    mem: &[u8],
    tile: u64,
) -> Result<Completion, Error>
    ensures { left (handed 0 result) words.now sharing.new mem.now ≡ left_by sharing.old tile (carried 0 words.now mem.now (respond_of b words.now sharing.old mem.now tile)) }
{
    host_checks(b, words, sharing, mem, tile)?;
    sharing::take_note(b, sharing, tile, Note::Responded);
    Ok(Completion {
        arg1: 0,
        note: Note::Responded,
    })
}

// What is waiting at a tile.
#[tactic(auto, unfolding(crate::specs::Machine::waits_of))]
pub fn waiting_at(
    b: Board,
    words: &[u64],
    sharing: &[u64],
    mem: &[u8],
    tile: u64,
) -> Result<Waiting, Error>
    ensures { result ≡ waits_of b words.now sharing.now mem.now tile }
{
    host_checks(b, words, sharing, mem, tile)?;
    Ok(sharing::what_waits(b, sharing, tile))
}
