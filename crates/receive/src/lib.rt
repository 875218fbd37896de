// FETCH and ACK_MSG, on a checked machine (document 01, "The commands, checks in order").
#![tactic(auto)]

ghost use Rattle.std.specs.Prelude.{◌≡◌, List, ℕ, ◌+◌, ◌*◌, ◌<◌, ◌≤◌, length};
ghost use Rattle.slots.specs.Slots.{Usable};
ghost use Rattle.table.specs.Table.{view};
ghost use Rattle.command.specs.Checked.{Checked};
ghost use Rattle.command.specs.Outcome.{handed, outcome, carried};
ghost use Rattle.receive.specs.Fetch.{FETCH};
ghost use Rattle.receive.specs.Ack.{freeing, ACK_MSG};

use answers::{Error, check};
use board::Board;
use command::{Completion, Registers};
use endpoint::{Endpoint, ReceiveFields};
use sharing::Note;

// FETCH. No byte is touched and ARG_1 is not looked at, so its promise is for any bytes and any ARG_1.
#[tactic(auto, unfolding(crate::specs::Fetch::fetch_writes, crate::specs::Fetch::FETCH))]
pub fn fetch(b: Board, words: &mut [u64], own: u16, tile: u64, ep: u64) -> Result<Completion, Error>
    requires { Checked b words.old tile }
    ensures { (x : ℕ) (bs : List ℕ) → outcome (handed x result) words.new bs ≡ carried x words.old bs (FETCH (view words.old) own tile ep) }
{
    let r = slots::receive_at(b, words, tile, ep, Error::NoRep)?;
    check(r.act == own, Error::ForeignEp)?;
    let Some(slot) = slots::unread_slot(r) else {
        return Ok(Completion {
            arg1: u64::MAX,
            note: Note::Nothing,
        });
    };
    let after = slots::fetch(r, slot.index);
    table::store(words, tile as usize, ep, Endpoint::Receive(after));
    Ok(Completion {
        arg1: slots::offset(r, slot.index),
        note: Note::Read,
    })
}

// What freeing slot i notes.
#[tactic(auto, unfolding(crate::specs::Ack::freeing))]
fn freed(r: ReceiveFields, i: u32) -> Note
    requires { i < 32 }
    ensures { result ≡ freeing r i }
{
    if slots::is_unread(r, i) {
        Note::Read
    } else {
        Note::Nothing
    }
}

// ACK_MSG. No byte is touched, so its promise is for any bytes.
#[tactic(auto, using(slots::proofs::SlotFacts::range_ends), unfolding(crate::specs::Ack::ack_checks, crate::specs::Ack::ack_writes, crate::specs::Ack::ACK_MSG))]
pub fn ack_msg(
    b: Board,
    words: &mut [u64],
    own: u16,
    tile: u64,
    ep: u64,
    a: Registers,
) -> Result<Completion, Error>
    requires { Checked b words.old tile }
    ensures { (bs : List ℕ) → outcome (handed a.arg1 result) words.new bs ≡ carried a.arg1 words.old bs (ACK_MSG (view words.old) own tile ep a) }
{
    let r = slots::receive_at(b, words, tile, ep, Error::NoRep)?;
    check(!slots::range_bad(r), Error::RecvInvRplEps)?;
    check(r.act == own, Error::ForeignEp)?;
    let slot = slots::slot_named(r, a.arg0);
    check(slot < slots::slots_of(r), Error::InvMsgOff)?;
    let i = slot as u32;
    let after = slots::give_back(r, i);
    table::store(words, tile as usize, ep, Endpoint::Receive(after));
    if r.rpl_eps != 65535 {
        table::store(
            words,
            tile as usize,
            u64::from(r.rpl_eps) + slot,
            Endpoint::Invalid,
        );
    }
    Ok(Completion {
        arg1: a.arg1,
        note: freed(r, i),
    })
}
