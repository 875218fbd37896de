// READ and WRITE, on a checked machine (document 01, "The commands, checks in order").
#![tactic(auto)]

ghost use Rattle.std.specs.Prelude.{◌≡◌, ◌≢◌, true, not, ◌+◌, ◌<◌, ◌≤◌, length, IfOk};
ghost use Rattle.board.specs.Board.{allowed, bytes_of, size_of};
ghost use Rattle.memory.specs.Bytes.{part, put};
ghost use Rattle.table.specs.Table.{view};
ghost use Rattle.command.specs.Checks.{first};
ghost use Rattle.command.specs.Checked.{Checked};
ghost use Rattle.command.specs.Outcome.{handed, outcome, carried};
ghost use Rattle.access.specs.Access.{permitted, access_checks, source, target, ACCESS, Remote};

use answers::{Error, check};
use board::Board;
use command::{Completion, Registers};
use endpoint::{Endpoint, MemoryFields};
use sharing::Note;

// May bytes go that way? rw is 1 for read plus 2 for write.
fn permitted<const WRITE: bool>(rw: u8) -> bool
    ensures { result ≡ permitted WRITE rw }
{
    if WRITE { rw / 2 % 2 == 1 } else { rw % 2 == 1 }
}

// The checks of the memory endpoint, in order: a size of zero is answered before the ranges are looked at.
#[tactic(auto, unfolding(crate::specs::Access::access_checks, command::specs::Local::crosses_page, command::specs::Local::outside))]
fn access_checks<const WRITE: bool>(
    b: Board,
    own: u16,
    tile: u64,
    m: MemoryFields,
    a: Registers,
) -> Result<(), Error>
    ensures value { result ≡ first (access_checks b own tile (not (permitted WRITE m.rw)) m a) }
    ensures remote { IfOk result (λ x. a.size ≢ 0 → Remote b m a) }
    ensures local { IfOk result (λ x. a.size ≢ 0 → a.addr + a.size ≤ size_of b tile) }
{
    check(m.act == own, Error::ForeignEp)?;
    check(permitted::<WRITE>(m.rw), Error::NoPerm)?;
    if a.size == 0 {
        return Ok(());
    }
    check(
        !numbers::sum_above(a.size, a.arg1, m.size),
        Error::OutOfBounds,
    )?;
    check(!command::crosses_page(a), Error::PageBoundary)?;
    check(m.chip == 0, Error::Abort)?;
    check(u64::from(m.tile) < b.tiles, Error::Abort)?;
    let memory = board::size(b, u64::from(m.tile));
    check(
        !numbers::sum3_above(m.addr, a.arg1, a.size, memory),
        Error::Abort,
    )?;
    check(!command::leaves_tile(b, tile, a), Error::Abort)
}

// The bytes go from the one range to the other, if there are any.
#[tactic(auto, using(memory::proofs::ByteLaws::put_empty))]
fn transfer<const WRITE: bool>(b: Board, mem: &mut [u8], tile: u64, m: MemoryFields, a: Registers)
    requires board { (allowed b ≡ true) × (tile < b.tiles) × (length mem.old ≡ bytes_of b) }
    requires remote { a.size ≢ 0 → Remote b m a }
    requires local { a.size ≢ 0 → a.addr + a.size ≤ size_of b tile }
    ensures { mem.new ≡ put mem.old (target WRITE b tile m a) (part mem.old (source WRITE b tile m a) a.size) }
{
    if a.size == 0 {
        return;
    }
    let local = command::place(b, tile, a.addr, a.size) as usize;
    let remote = command::place(b, u64::from(m.tile), m.addr + a.arg1, a.size) as usize;
    if WRITE {
        memory::move_bytes(mem, local, remote, a.size as usize)
    } else {
        memory::move_bytes(mem, remote, local, a.size as usize)
    }
}

// READ or WRITE.
#[tactic(auto, unfolding(crate::specs::Access::ACCESS))]
pub fn access<const WRITE: bool>(
    b: Board,
    words: &[u64],
    mem: &mut [u8],
    own: u16,
    tile: u64,
    ep: u64,
    a: Registers,
) -> Result<Completion, Error>
    requires { Checked b words.now tile × (length mem.old ≡ bytes_of b) }
    ensures { outcome (handed a.arg1 result) words.now mem.new ≡ carried a.arg1 words.now mem.old (ACCESS WRITE b (view words.now) mem.old own tile ep a) }
{
    let Endpoint::Memory(m) = table::endpoint_at(words, tile as usize, ep) else {
        return Err(Error::NoMep);
    };
    access_checks::<WRITE>(b, own, tile, m, a)?;
    transfer::<WRITE>(b, mem, tile, m, a);
    Ok(Completion {
        arg1: a.arg1,
        note: Note::Nothing,
    })
}
