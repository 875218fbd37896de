// REPLY.
ghost use Rattle.std.specs.Prelude.{◌≡◌, [], ◌∷◌, ◌+◌, ◌*◌, ◌<◌, ◌≤◌, length};
ghost use Rattle.board.specs.Board.{bytes_of};
ghost use Rattle.slots.specs.Slots.{Usable};
ghost use Rattle.table.specs.Table.{view};
ghost use Rattle.sharing.specs.Sharing.{Shared};
ghost use Rattle.command.specs.Checks.{first};
ghost use Rattle.command.specs.Checked.{Checked};
ghost use Rattle.command.specs.Outcome.{handed, outcome, written, carried};
ghost use Rattle.delivery.specs.Delivery.{arrival};
ghost use Rattle.messages.specs.Reply.{from_checks, credit_bad, reply_checks, response, credit_to, reply_gone, slot_freed, response_of, answer_of, REPLY};
ghost use Rattle.messages.specs.Ready.{Replyable, Creditable, Landed, Named};

use answers::{Error, check};
use board::Board;
use command::{Completion, Registers};
use delivery::{Header, Target};
use endpoint::{Endpoint, ReceiveFields, SendFields};
use sharing::Note;

// The checks of the receive endpoint, in order.
#[tactic(auto, unfolding(crate::specs::Reply::from_checks))]
fn from_checks(own: u16, g: ReceiveFields, a: Registers) -> Result<(), Error>
    requires { Usable g }
    ensures { result ≡ first (from_checks own g a) }
{
    check(g.rpl_eps != 65535, Error::RepliesDisabled)?;
    check(!slots::range_past(g), Error::RecvInvRplEps)?;
    check(g.act == own, Error::ForeignEp)?;
    check(
        slots::slot_named(g, a.arg0) < slots::slots_of(g),
        Error::InvMsgOff,
    )
}

// crd_ep is neither 65535 nor below 64.
#[tactic(auto, unfolding(crate::specs::Reply::credit_bad))]
fn credit_bad(s: SendFields) -> bool
    ensures { result ≡ credit_bad s }
{
    s.crd_ep != 65535 && s.crd_ep >= 64
}

// The checks of the reply endpoint, in order, up to the delivery.
#[tactic(auto, using(command::proofs::CheckFacts::first_then), unfolding(crate::specs::Reply::reply_checks))]
fn reply_checks(b: Board, tile: u64, s: SendFields, a: Registers) -> Result<(), Error>
    ensures { result ≡ first (reply_checks b tile s a) }
{
    check(s.reply, Error::SendReplyEp)?;
    check(!credit_bad(s), Error::SendInvCrdEp)?;
    delivery::message_checks(s, a)?;
    check(!command::leaves_tile(b, tile, a), Error::Abort)
}

// The header of the message.
#[tactic(auto, unfolding(crate::specs::Reply::response))]
fn response_header(tile: u64, ep: u64, s: SendFields, a: Registers) -> Header
    requires { (tile < 8) × (ep < 64) }
    ensures { result ≡ response tile ep s a }
{
    Header {
        flags: 1,
        rsize: 0,
        stile: tile as u8,
        schip: 0,
        length: a.size,
        sep: ep as u16,
        rep: s.crd_ep,
        rlabel: 0,
        label: s.label,
    }
}

// A credit goes back to the endpoint x that the header names, if that is a send endpoint with room for it.
#[tactic(auto, unfolding(crate::specs::Reply::credit_to, crate::specs::Reply::creditable, crate::specs::Reply::credited))]
fn return_credit(words: &mut [u64], x: Endpoint, s: SendFields, h: Header)
    requires { (s.tgt_tile * 192 + 192 ≤ length words.old) × Creditable h.rep }
    ensures { words.new ≡ written words.old (credit_to x s h ∷ []) }
{
    if h.rep == 65535 {
        return;
    }
    let Endpoint::Send(f) = x else {
        return;
    };
    if credits::has_room(f) {
        table::store(
            words,
            s.tgt_tile as usize,
            u64::from(h.rep),
            Endpoint::Send(credits::one_more(f)),
        );
    }
}

// The reply endpoint goes.
#[tactic(auto, unfolding(crate::specs::Reply::reply_gone))]
fn drop_reply(words: &mut [u64], tile: usize, g: ReceiveFields, i: u32)
    requires { (tile * 192 + 192 ≤ length words.old) × (g.rpl_eps + i < 64) }
    ensures { words.new ≡ written words.old (reply_gone tile g i ∷ []) }
{
    table::store(
        words,
        tile,
        u64::from(g.rpl_eps) + u64::from(i),
        Endpoint::Invalid,
    );
}

// The record read at the start is written back with the slot free.
#[tactic(auto, unfolding(crate::specs::Reply::slot_freed))]
fn free_slot(words: &mut [u64], tile: usize, ep: u64, g: ReceiveFields, i: u32)
    requires { (tile * 192 + 192 ≤ length words.old) × (ep < 64) × (i < 32) }
    ensures { words.new ≡ written words.old (slot_freed tile ep g i ∷ []) }
{
    table::store(words, tile, ep, Endpoint::Receive(slots::give_back(g, i)));
}

// What an accepted REPLY writes; x is the endpoint that the header names for the credit, as it was at the start.
fn reply_write(
    words: &mut [u64],
    tile: usize,
    ep: u64,
    g: ReceiveFields,
    i: u32,
    s: SendFields,
    to: Target,
    h: Header,
    x: Endpoint,
)
    requires { (tile * 192 + 192 ≤ length words.old) × (ep < 64) × (i < 32) × (g.rpl_eps + i < 64) × Landed (length words.old) s to.receiver to.slot × Creditable h.rep }
    ensures { words.new ≡ written words.old (arrival s to.receiver to.slot ∷ credit_to x s h ∷ reply_gone tile g i ∷ slot_freed tile ep g i ∷ []) }
{
    delivery::arrive(words, s, to);
    return_credit(words, x, s, h);
    drop_reply(words, tile, g, i);
    free_slot(words, tile, ep, g, i);
}

// From the delivery on.
#[tactic(auto, using(command::proofs::CheckFacts::first_then), unfolding(crate::specs::Reply::response_of, crate::specs::Reply::reply_writes, crate::specs::Reply::credit_returned, delivery::specs::Delivery::delivered, delivery::specs::Target::target_of))]
fn deliver_reply(
    b: Board,
    words: &mut [u64],
    sharing: &[u64],
    mem: &mut [u8],
    tile: u64,
    ep: u64,
    g: ReceiveFields,
    i: u32,
    s: SendFields,
    a: Registers,
) -> Result<Completion, Error>
    requires { Checked b words.old tile × Shared b sharing.now × (length mem.old ≡ bytes_of b) × Replyable b tile ep g i s a }
    ensures { outcome (handed a.arg1 result) words.new mem.new ≡ carried a.arg1 words.old mem.old (response_of b (view words.old) sharing.now mem.old tile ep g i s a) }
{
    let to = delivery::find_target(b, words, sharing, tile, s, a)?;
    let h = response_header(tile, ep, s, a);
    let x = table::endpoint_at(words, s.tgt_tile as usize, u64::from(s.crd_ep));
    delivery::stow(b, mem, tile, a, s, to, h);
    reply_write(words, tile as usize, ep, g, i, s, to, h, x);
    let at = delivery::arrival_of(s, to.receiver);
    let read = slots::is_unread(g, i);
    Ok(Completion {
        arg1: a.arg1,
        note: Note::Came { at, read },
    })
}

// From slot i on.
#[tactic(auto, using(command::proofs::CheckFacts::first_then), unfolding(crate::specs::Reply::answer_of))]
fn reply_to_slot(
    b: Board,
    words: &mut [u64],
    sharing: &[u64],
    mem: &mut [u8],
    tile: u64,
    ep: u64,
    g: ReceiveFields,
    i: u64,
    a: Registers,
) -> Result<Completion, Error>
    requires { Checked b words.old tile × Shared b sharing.now × (length mem.old ≡ bytes_of b) × Named ep g i }
    ensures { outcome (handed a.arg1 result) words.new mem.new ≡ carried a.arg1 words.old mem.old (answer_of b (view words.old) sharing.now mem.old tile ep g i a) }
{
    let Endpoint::Send(s) = table::endpoint_at(words, tile as usize, u64::from(g.rpl_eps) + i)
    else {
        return Err(Error::NoSep);
    };
    reply_checks(b, tile, s, a)?;
    deliver_reply(b, words, sharing, mem, tile, ep, g, i as u32, s, a)
}

// REPLY.
#[tactic(auto, using(command::proofs::CheckFacts::first_then), unfolding(crate::specs::Reply::REPLY))]
pub fn reply(
    b: Board,
    words: &mut [u64],
    sharing: &[u64],
    mem: &mut [u8],
    own: u16,
    tile: u64,
    ep: u64,
    a: Registers,
) -> Result<Completion, Error>
    requires { Checked b words.old tile × Shared b sharing.now × (length mem.old ≡ bytes_of b) }
    ensures { outcome (handed a.arg1 result) words.new mem.new ≡ carried a.arg1 words.old mem.old (REPLY b (view words.old) sharing.now mem.old own tile ep a) }
{
    let g = slots::receive_at(b, words, tile, ep, Error::NoRep)?;
    from_checks(own, g, a)?;
    let i = slots::slot_named(g, a.arg0);
    reply_to_slot(b, words, sharing, mem, tile, ep, g, i, a)
}
