// The delivery of a message (document 01, "Delivery"): its checks, the slot that it takes, its header, and how it is stored.
// SEND and REPLY share it; it knows nothing of credits.
#![tactic(auto)]

ghost use Rattle.std.specs.Prelude.{◌≡◌, [], ◌∷◌, ◌+◌, ◌*◌, ◌<◌, ◌≤◌, ◌^◌, length};
ghost use Rattle.numbers.specs.Tests.{All};
ghost use Rattle.board.specs.Board.{allowed, start_of, size_of, bytes_of};
ghost use Rattle.endpoint.specs.Layout.{fit};
ghost use Rattle.table.specs.Table.{view};
ghost use Rattle.sharing.specs.Sharing.{Shared};
ghost use Rattle.command.specs.Checks.{first};
ghost use Rattle.command.specs.Checked.{Checked};
ghost use Rattle.command.specs.Outcome.{written, placed};
ghost use Rattle.delivery.specs.Header.{header_fields, header_word};
ghost use Rattle.delivery.specs.Delivery.{too_long, message_checks, arrival, arrival_of, message_to, slot_at};
ghost use Rattle.delivery.specs.Target.{target_of};
ghost use Rattle.delivery.specs.Stowing.{SlotIn, Stowed};

use answers::{Error, check};
use board::Board;
use command::Registers;
use endpoint::{Endpoint, ReceiveFields, SendFields};
use sharing::Arrival;

// The header of a message; `specs/Header.antt` says where each field lies.
#[derive(Clone, Copy)]
pub struct Header {
    pub flags: u8,
    pub rsize: u8,
    pub stile: u8,
    pub schip: u8,
    pub length: u64,
    pub sep: u16,
    pub rep: u16,
    pub rlabel: u64,
    pub label: u64,
}

// Where a message goes: a slot of the receiver, whose record was read at the start.
#[derive(Clone, Copy)]
pub struct Target {
    pub receiver: ReceiveFields,
    pub slot: u32,
}

// Is a message of this size, with its header, above 2 to the n?
#[tactic(auto, unfolding(crate::specs::Delivery::too_long))]
fn too_long(size: u64, n: u8) -> bool
    requires { n ≤ 11 }
    ensures { result ≡ too_long size n }
{
    numbers::sum_above(size, 32, bits::power(u64::from(n)))
}

// What SEND and REPLY check alike of a message by the endpoint s.
#[tactic(auto, unfolding(crate::specs::Delivery::message_checks))]
pub fn message_checks(s: SendFields, a: Registers) -> Result<(), Error>
    ensures { result ≡ first (message_checks s a) }
{
    check(s.msg_sz <= 11, Error::SendInvMsgSz)?;
    check(!too_long(a.size, s.msg_sz), Error::OutOfBounds)?;
    check(a.addr % 16 == 0, Error::MsgUnaligned)?;
    check(!command::crosses_page(a), Error::PageBoundary)
}

// Where a message by the endpoint s goes: the slot of the receiver that it takes, or the refusal of its delivery. The tile is read by the
// clause alone: the machine was checked for it.
#[tactic(auto, unfolding(crate::specs::Delivery::landing, crate::specs::Target::target_of))]
pub fn find_target(
    b: Board,
    words: &[u64],
    sharing: &[u64],
    tile: u64,
    s: SendFields,
    a: Registers,
) -> Result<Target, Error>
    requires { Checked b words.now tile × Shared b sharing.now }
    ensures { result ≡ target_of b (view words.now) sharing.now s a }
{
    check(s.tgt_chip == 0, Error::TimeoutNoc)?;
    let at = u64::from(s.tgt_tile);
    check(at < b.tiles, Error::TimeoutNoc)?;
    let receiver = slots::receive_at(b, words, at, u64::from(s.tgt_ep), Error::RecvGone)?;
    check(
        !too_long(a.size, receiver.slot_size),
        Error::RecvOutOfBounds,
    )?;
    check(!slots::range_bad(receiver), Error::RecvInvRplEps)?;
    let Some(slot) = slots::free_slot(receiver) else {
        return Err(Error::RecvNoSpace);
    };
    check(
        !sharing::is_crowded(sharing, at, receiver.act),
        Error::RecvNoSpace,
    )?;
    Ok(Target {
        receiver,
        slot: slot.index,
    })
}

// What is noted of a message that comes to the receiver r.
#[tactic(auto, unfolding(crate::specs::Delivery::arrival_of))]
pub fn arrival_of(s: SendFields, r: ReceiveFields) -> Arrival
    ensures { result ≡ arrival_of s r }
{
    Arrival {
        tile: s.tgt_tile,
        ep: s.tgt_ep,
        act: r.act,
    }
}

// The message comes into its slot of the receiver.
#[tactic(auto, unfolding(crate::specs::Delivery::arrival))]
pub fn arrive(words: &mut [u64], s: SendFields, to: Target)
    requires { (s.tgt_tile * 192 + 192 ≤ length words.old) × (s.tgt_ep < 64) × (to.slot < 32) }
    ensures { words.new ≡ written words.old (arrival s to.receiver to.slot ∷ []) }
{
    let after = slots::fill(to.receiver, to.slot);
    table::store(
        words,
        s.tgt_tile as usize,
        u64::from(s.tgt_ep),
        Endpoint::Receive(after),
    );
}

// The header's first word.
fn header_word(h: Header) -> u64
    requires { All (fit (header_fields h)) }
    ensures { result ≡ header_word h }
{
    u64::from(h.flags)
        + (u64::from(h.rsize) << 2)
        + (u64::from(h.stile) << 6)
        + (u64::from(h.schip) << 14)
        + (h.length << 20)
        + (u64::from(h.sep) << 32)
        + (u64::from(h.rep) << 48)
}

// Where the message's slot lies among the bytes of all tiles.
#[tactic(auto, unfolding(crate::specs::Delivery::slot_at))]
fn slot_at(b: Board, s: SendFields, to: Target) -> u64
    requires { SlotIn b s to.receiver to.slot }
    ensures { result ≡ slot_at b s to.receiver to.slot }
{
    let offset = to.receiver.buffer + slots::offset(to.receiver, to.slot);
    command::place(b, u64::from(s.tgt_tile), offset, 0)
}

// Header and payload go to that slot.
#[tactic(auto, unfolding(crate::specs::Delivery::message_to, crate::specs::Header::header_bytes))]
pub fn stow(b: Board, mem: &mut [u8], tile: u64, a: Registers, s: SendFields, to: Target, h: Header)
    requires { Stowed b (length mem.old) tile a s to.receiver to.slot h }
    ensures { mem.new ≡ placed mem.old (message_to b mem.old tile a s to.receiver to.slot h) }
{
    let from = command::place(b, tile, a.addr, a.size);
    let at = slot_at(b, s, to);
    memory::store_message(
        mem,
        at as usize,
        header_word(h),
        h.rlabel,
        h.label,
        from as usize,
        a.size as usize,
    );
}
