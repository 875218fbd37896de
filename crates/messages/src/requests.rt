// SEND.
ghost use Rattle.std.specs.Prelude.{◌≡◌, [], ◌∷◌, ◌+◌, ◌-◌, ◌*◌, ◌<◌, ◌≤◌, length};
ghost use Rattle.board.specs.Board.{bytes_of};
ghost use Rattle.slots.specs.Slots.{InReach};
ghost use Rattle.table.specs.Table.{view};
ghost use Rattle.sharing.specs.Sharing.{Shared};
ghost use Rattle.command.specs.Checks.{first};
ghost use Rattle.command.specs.Checked.{Checked};
ghost use Rattle.command.specs.Outcome.{handed, outcome, written, carried};
ghost use Rattle.messages.specs.Send.{reply_lost, send_checks, sep_of, rsize_of, request, reply_to, reply_placed, credit_spent, send_writes, request_of, SEND};
ghost use Rattle.messages.specs.Ready.{Sendable, Landed};

use answers::{Error, check};
use board::Board;
use command::{Completion, Registers};
use delivery::{Header, Target};
use endpoint::{Endpoint, ReceiveFields, SendFields};
use sharing::Note;

// Is a reply wanted at an endpoint of the tile that is no receive endpoint? As below, the board is read by the clause alone.
fn reply_lost(b: Board, words: &[u64], tile: u64, ep: u64) -> bool
    requires { Checked b words.now tile }
    ensures { result ≡ reply_lost (view words.now) tile ep }
{
    ep != 65535
        && !matches!(
            table::endpoint_at(words, tile as usize, ep),
            Endpoint::Receive(_)
        )
}

// The checks of the send endpoint, in order, up to the delivery.
#[tactic(auto, using(command::proofs::CheckFacts::first_then), unfolding(crate::specs::Send::send_checks))]
fn send_checks(
    b: Board,
    words: &[u64],
    own: u16,
    tile: u64,
    s: SendFields,
    a: Registers,
) -> Result<(), Error>
    requires { Checked b words.now tile }
    ensures { result ≡ first (send_checks b (view words.now) own tile s a) }
{
    check(!s.reply, Error::SendReplyEp)?;
    check(s.act == own, Error::ForeignEp)?;
    delivery::message_checks(s, a)?;
    check(!reply_lost(b, words, tile, a.arg0), Error::NoRep)?;
    check(!command::leaves_tile(b, tile, a), Error::Abort)?;
    check(s.cur_crd != 0, Error::NoCredits)
}

// The endpoint that a reply's credit is to come back to: none where the credits are unlimited.
#[tactic(auto, unfolding(crate::specs::Send::sep_of))]
fn sep_of(ep: u64, s: SendFields) -> u16
    requires { ep < 64 }
    ensures { result ≡ sep_of ep s }
{
    if s.cur_crd == 63 { 65535 } else { ep as u16 }
}

// How large a reply may be: the slot size of the endpoint that it is to come to.
#[tactic(auto, unfolding(crate::specs::Send::rsize_of, endpoint::specs::Kinds::no_receive))]
fn rsize_of(b: Board, words: &[u64], tile: u64, a: Registers) -> u8
    requires { Checked b words.now tile }
    ensures { result ≡ rsize_of (view words.now) tile a }
{
    if a.arg0 == 65535 {
        return 5;
    }
    match table::endpoint_at(words, tile as usize, a.arg0) {
        Endpoint::Receive(r) => r.slot_size,
        // What the definition reads where no endpoint receives; such a SEND was refused before.
        _ => 0,
    }
}

// The header of the message.
#[tactic(auto, unfolding(crate::specs::Send::request))]
fn request_header(
    b: Board,
    words: &[u64],
    tile: u64,
    ep: u64,
    s: SendFields,
    a: Registers,
) -> Header
    requires { Checked b words.now tile × Sendable b (view words.now) tile ep s a }
    ensures { result ≡ request (view words.now) tile ep s a }
{
    Header {
        flags: 0,
        rsize: rsize_of(b, words, tile, a),
        stile: tile as u8,
        schip: 0,
        length: a.size,
        sep: sep_of(ep, s),
        rep: a.arg0 as u16,
        rlabel: a.arg1,
        label: s.label,
    }
}

// The reply endpoint that the receiver gets.
#[tactic(auto, unfolding(crate::specs::Send::reply_to))]
fn reply_to(r: ReceiveFields, h: Header) -> SendFields
    ensures { result ≡ reply_to r h }
{
    SendFields {
        act: r.act,
        cur_crd: 1,
        max_crd: 1,
        msg_sz: h.rsize,
        crd_ep: h.sep,
        reply: true,
        tgt_ep: h.rep,
        tgt_tile: h.stile,
        tgt_chip: h.schip,
        label: h.rlabel,
    }
}

// The reply endpoint is written, where a reply is wanted and there is a range for it.
#[tactic(auto, unfolding(crate::specs::Send::reply_placed, slots::specs::Slots::InReach))]
fn place_reply(words: &mut [u64], s: SendFields, to: Target, h: Header)
    requires { (s.tgt_tile * 192 + 192 ≤ length words.old) × InReach to.receiver to.slot }
    ensures { words.new ≡ written words.old (reply_placed s to.receiver to.slot h ∷ []) }
{
    if h.rep != 65535 && to.receiver.rpl_eps != 65535 {
        let back = reply_to(to.receiver, h);
        table::store(
            words,
            s.tgt_tile as usize,
            u64::from(to.receiver.rpl_eps) + u64::from(to.slot),
            Endpoint::Send(back),
        );
    }
}

// A credit goes, unless they are unlimited.
#[tactic(auto, unfolding(crate::specs::Send::credit_spent))]
fn spend(words: &mut [u64], tile: usize, ep: u64, s: SendFields)
    requires { (tile * 192 + 192 ≤ length words.old) × (ep < 64) × (0 < s.cur_crd) }
    ensures { words.new ≡ written words.old (credit_spent tile ep s ∷ []) }
{
    if s.cur_crd != 63 {
        table::store(words, tile, ep, Endpoint::Send(credits::one_less(s)));
    }
}

// What an accepted SEND writes.
#[tactic(auto, unfolding(crate::specs::Send::send_writes))]
fn send_write(words: &mut [u64], tile: usize, ep: u64, s: SendFields, to: Target, h: Header)
    requires { (tile * 192 + 192 ≤ length words.old) × (ep < 64) × (0 < s.cur_crd) × Landed (length words.old) s to.receiver to.slot }
    ensures { words.new ≡ written words.old (send_writes tile ep s to.receiver to.slot h) }
{
    delivery::arrive(words, s, to);
    place_reply(words, s, to, h);
    spend(words, tile, ep, s);
}

// From the delivery on.
#[tactic(auto, using(command::proofs::CheckFacts::first_then), unfolding(crate::specs::Send::request_of, delivery::specs::Delivery::delivered, delivery::specs::Target::target_of))]
fn deliver_request(
    b: Board,
    words: &mut [u64],
    sharing: &[u64],
    mem: &mut [u8],
    tile: u64,
    ep: u64,
    s: SendFields,
    a: Registers,
) -> Result<Completion, Error>
    requires { Checked b words.old tile × Shared b sharing.now × (length mem.old ≡ bytes_of b) × Sendable b (view words.old) tile ep s a }
    ensures { outcome (handed a.arg1 result) words.new mem.new ≡ carried a.arg1 words.old mem.old (request_of b (view words.old) sharing.now mem.old tile ep s a) }
{
    let to = delivery::find_target(b, words, sharing, tile, s, a)?;
    let h = request_header(b, words, tile, ep, s, a);
    delivery::stow(b, mem, tile, a, s, to, h);
    send_write(words, tile as usize, ep, s, to, h);
    let at = delivery::arrival_of(s, to.receiver);
    Ok(Completion {
        arg1: a.arg1,
        note: Note::Came { at, read: false },
    })
}

// SEND.
#[tactic(auto, using(command::proofs::CheckFacts::first_then), unfolding(crate::specs::Send::SEND))]
pub fn send(
    b: Board,
    words: &mut [u64],
    sharing: &[u64],
    mem: &mut [u8],
    own: u16,
    tile: u64,
    ep: u64,
    a: Registers,
) -> Result<Completion, Error>
    requires { Checked b words.old tile × Shared b sharing.now × (length mem.old ≡ bytes_of b) }
    ensures { outcome (handed a.arg1 result) words.new mem.new ≡ carried a.arg1 words.old mem.old (SEND b (view words.old) sharing.now mem.old own tile ep a) }
{
    let Endpoint::Send(s) = table::endpoint_at(words, tile as usize, ep) else {
        return Err(Error::NoSep);
    };
    send_checks(b, words, own, tile, s, a)?;
    deliver_request(b, words, sharing, mem, tile, ep, s, a)
}
