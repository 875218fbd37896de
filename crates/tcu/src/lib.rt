// The C interface (`include/tcu.h`). Each function asks nothing of its caller, and promises what the function behind it does, with
// document 01's number for the answer (`specs/Interface.antt`). The C interface is why what is lent comes as separate arguments, and why
// a refusal is a number here and no `Err` for `?`.
#![tactic(auto)]

ghost use Rattle.std.specs.Prelude.{◌≡◌};
ghost use Rattle.board.specs.Lent.{board_of};
ghost use Rattle.answers.specs.Answers.{number_of};
ghost use Rattle.command.specs.Outcome.{handed, carried};
ghost use Rattle.machine.specs.Machine.{command_of, configure_of, invalidate_of, privileged_of, respond_of, waits_of, left_by};
ghost use Rattle.wiring.specs.Wiring.{wiring_of};
ghost use Rattle.tcu.specs.Interface.{registers, three, returned, in_c, wiring_in_c, turned, waiting_in_c, unpack_in_c, pack_in_c};

use answers::Error;
use command::{Completion, Registers};
use endpoint::Words;

// The number of an answer. ARG_1 becomes what the call hands back; a refusal leaves it as it was given.
fn hand_back(done: Result<Completion, Error>, arg1: &mut u64) -> u32
    ensures number { result ≡ number_of (handed arg1.old done).answer }
    ensures value { arg1.new ≡ (handed arg1.old done).arg1 }
{
    let told = command::tell(done, *arg1);
    *arg1 = told.arg1;
    answers::number(told.answer)
}

// Carries out one command of a tile. ARG_1 comes back where it was given.
#[tactic(auto, unfolding(crate::specs::Interface::in_c, crate::specs::Interface::returned))]
#[unsafe(no_mangle)]
pub extern "C" fn tcu_command(
    tiles: u64,
    pages: &[u8],
    words: &mut [u64],
    sharing: &mut [u64],
    mem: &mut [u8],
    tile: u64,
    opcode: u64,
    endpoint: u64,
    arg0: u64,
    data_addr: u64,
    data_size: u64,
    arg1: &mut u64,
) -> u32
    ensures { returned result arg1.new words.new sharing.new mem.new ≡ in_c (left_by sharing.old tile (carried arg1.old words.old mem.old (command_of (board_of tiles pages.now) words.old sharing.old mem.old tile opcode endpoint (registers arg0 data_addr data_size arg1.old)))) }
{
    let done = machine::carry_out(
        board::of(tiles, pages),
        words,
        sharing,
        mem,
        tile,
        opcode,
        endpoint,
        Registers {
            arg0,
            addr: data_addr,
            size: data_size,
            arg1: *arg1,
        },
    );
    hand_back(done, arg1)
}

// Gives an endpoint of a tile three words.
#[tactic(auto, unfolding(crate::specs::Interface::in_c, crate::specs::Interface::returned, sharing::specs::Note::noted))]
#[unsafe(no_mangle)]
pub extern "C" fn tcu_configure(
    tiles: u64,
    pages: &[u8],
    words: &mut [u64],
    sharing: &[u64],
    mem: &[u8],
    tile: u64,
    endpoint: u64,
    first: u64,
    second: u64,
    third: u64,
) -> u32
    ensures { returned result 0 words.new sharing.now mem.now ≡ in_c (left_by sharing.now tile (carried 0 words.old mem.now (configure_of (board_of tiles pages.now) words.old sharing.now mem.now tile endpoint (three first second third)))) }
{
    let answer = machine::configure(
        board::of(tiles, pages),
        words,
        sharing,
        mem,
        tile,
        endpoint,
        Words {
            first,
            second,
            third,
        },
    );
    answers::number(answer)
}

// Makes an endpoint of a tile INVALID.
#[tactic(auto, unfolding(crate::specs::Interface::in_c, crate::specs::Interface::returned, sharing::specs::Note::noted))]
#[unsafe(no_mangle)]
pub extern "C" fn tcu_invalidate(
    tiles: u64,
    pages: &[u8],
    words: &mut [u64],
    sharing: &[u64],
    mem: &[u8],
    tile: u64,
    endpoint: u64,
) -> u32
    ensures { returned result 0 words.new sharing.now mem.now ≡ in_c (left_by sharing.now tile (carried 0 words.old mem.now (invalidate_of (board_of tiles pages.now) words.old sharing.now mem.now tile endpoint))) }
{
    let b = board::of(tiles, pages);
    let answer = machine::invalidate(b, words, sharing, mem, tile, endpoint);
    answers::number(answer)
}

// Carries out one privileged command of a tile. The second argument comes back where it was given.
#[tactic(auto, unfolding(crate::specs::Interface::in_c, crate::specs::Interface::returned))]
#[unsafe(no_mangle)]
pub extern "C" fn tcu_privileged(
    tiles: u64,
    pages: &[u8],
    words: &[u64],
    sharing: &mut [u64],
    mem: &[u8],
    tile: u64,
    opcode: u64,
    arg0: u64,
    arg1: &mut u64,
) -> u32
    ensures { returned result arg1.new words.now sharing.new mem.now ≡ in_c (left_by sharing.old tile (carried arg1.old words.now mem.now (privileged_of (board_of tiles pages.now) words.now sharing.old mem.now tile opcode arg0 arg1.old))) }
{
    let b = board::of(tiles, pages);
    let exchanged = machine::privileged(b, words, sharing, mem, tile, opcode, arg0, *arg1);
    hand_back(exchanged, arg1)
}

// A tile has seen its oldest request.
#[tactic(auto, using(crate::proofs::InterfaceLaws::respond_back), unfolding(crate::specs::Interface::in_c, crate::specs::Interface::returned))]
#[unsafe(no_mangle)]
pub extern "C" fn tcu_respond(
    tiles: u64,
    pages: &[u8],
    words: &[u64],
    sharing: &mut [u64],
    mem: &[u8],
    tile: u64,
) -> u32
    ensures { returned result 0 words.now sharing.new mem.now ≡ in_c (left_by sharing.old tile (carried 0 words.now mem.now (respond_of (board_of tiles pages.now) words.now sharing.old mem.now tile))) }
{
    let b = board::of(tiles, pages);
    match machine::respond(b, words, sharing, mem, tile) {
        Ok(_) => 0,
        Err(e) => e.code(),
    }
}

// Tells what is waiting at a tile, in three numbers.
#[tactic(auto, unfolding(crate::specs::Interface::waiting_in_c, crate::specs::Interface::waits_in_c))]
#[unsafe(no_mangle)]
pub extern "C" fn tcu_waiting(
    tiles: u64,
    pages: &[u8],
    words: &[u64],
    sharing: &[u64],
    mem: &[u8],
    tile: u64,
    waiting: &mut [u64],
) -> u32
    ensures { turned result waiting.new ≡ waiting_in_c waiting.old (waits_of (board_of tiles pages.now) words.now sharing.now mem.now tile) }
{
    if waiting.len() != 3 {
        return Error::BadMachine.code();
    }
    let b = board::of(tiles, pages);
    match machine::waiting_at(b, words, sharing, mem, tile) {
        Ok(w) => {
            waiting.copy_from_slice(&[w.count, u64::from(w.ep), u64::from(w.act)]);
            0
        }
        Err(e) => e.code(),
    }
}

// Tells whether the wiring is sound.
#[unsafe(no_mangle)]
pub extern "C" fn tcu_wiring(
    tiles: u64,
    pages: &[u8],
    words: &[u64],
    sharing: &[u64],
    mem: &[u8],
) -> u32
    ensures { result ≡ wiring_in_c (wiring_of (board_of tiles pages.now) words.now sharing.now mem.now) }
{
    let b = board::of(tiles, pages);
    match wiring::check_wiring(b, words, sharing, mem) {
        Ok(true) => 1,
        Ok(false) => 0,
        Err(e) => e.code(),
    }
}

// Turns three words into the eleven numbers of an endpoint.
#[tactic(auto, unfolding(crate::specs::Interface::unpack_in_c, crate::specs::Interface::fields_in_c))]
#[unsafe(no_mangle)]
pub extern "C" fn tcu_unpack(
    memory: u64,
    first: u64,
    second: u64,
    third: u64,
    fields: &mut [u64],
) -> u32
    ensures { turned result fields.new ≡ unpack_in_c memory (three first second third) fields.old }
{
    if fields.len() != 11 {
        return Error::BadMachine.code();
    }
    let w = Words {
        first,
        second,
        third,
    };
    match endpoint::unpack(memory, w) {
        Ok(e) => {
            lists::write(fields, e);
            0
        }
        Err(e) => e.code(),
    }
}

// Turns the eleven numbers of an endpoint into three words.
#[tactic(auto, unfolding(crate::specs::Interface::pack_in_c, crate::specs::Interface::words_in_c))]
#[unsafe(no_mangle)]
pub extern "C" fn tcu_pack(memory: u64, fields: &[u64], words: &mut [u64]) -> u32
    ensures { turned result words.new ≡ pack_in_c memory fields.now words.old }
{
    if fields.len() != 11 {
        return Error::BadMachine.code();
    }
    if words.len() != 3 {
        return Error::BadMachine.code();
    }
    match lists::pack(memory, fields) {
        Ok(w) => {
            words.copy_from_slice(&[w.first, w.second, w.third]);
            0
        }
        Err(e) => e.code(),
    }
}
