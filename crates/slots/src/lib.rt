// The slots of a receive endpoint: the two searches, the slot that arg0 names, the reply range, and the record after a change
// of one slot (document 01, "The commands, checks in order"). FETCH, ACK_MSG, REPLY and the delivery share them.
// `Usable` is asked in clauses and is no invariant of the fields' type: the host makes fields of any values (`endpoint::pack`), and a type
// around them would be opened again by every change of a record.
#![tactic(auto)]

ghost use Rattle.std.specs.Prelude.{◌≡◌, ◌+◌, ◌*◌, ◌^◌, ◌<◌, ◌≤◌, false, IfSome, IfOk};
ghost use Rattle.bits.specs.Bits.{has_bit};
ghost use Rattle.table.specs.Table.{view, endpoint_at};
ghost use Rattle.command.specs.Checked.{Checked};
ghost use Rattle.slots.specs.Slots.{slots_of, free_slot, unread_slot, slot_named, range_past, range_bad, filled, fetched, cleared, Usable, receive_or};

use answers::Error;
use bits::Slot;
use board::Board;
use endpoint::{Endpoint, ReceiveFields};

// The receive endpoint ep of a tile of a checked machine, or the refusal. The board is read by the clause alone: it says what was checked.
pub fn receive_at(
    b: Board,
    words: &[u64],
    tile: u64,
    ep: u64,
    error: Error,
) -> Result<ReceiveFields, Error>
    requires { Checked b words.now tile }
    ensures value { result ≡ receive_or error (endpoint_at (view words.now) tile ep) }
    ensures usable { IfOk result (λ r. Usable r × (ep < 64)) }
{
    let Endpoint::Receive(r) = table::endpoint_at(words, tile as usize, ep) else {
        return Err(error);
    };
    Ok(r)
}

// How many slots there are.
#[tactic(auto, using(bits::proofs::BitLaws::counts))]
pub fn slots_of(r: ReceiveFields) -> u64
    requires { Usable r }
    ensures value { result ≡ slots_of r }
    ensures few { result ≤ 32 }
{
    bits::power(u64::from(r.slots))
}

// The first free slot from wpos, going round.
#[tactic(auto, using(crate::proofs::SlotFacts::few_found), unfolding(crate::specs::Slots::free_slot))]
pub fn free_slot(r: ReceiveFields) -> Option<Slot>
    requires { Usable r }
    ensures value { result ≡ free_slot r }
    ensures few { IfSome result (λ s. s.index < 32) }
{
    bits::find_slot(r.occupied, u32::from(r.wpos), u32::from(r.slots), false)
}

// The first unread slot from rpos, going round.
#[tactic(auto, using(crate::proofs::SlotFacts::few_found), unfolding(crate::specs::Slots::unread_slot))]
pub fn unread_slot(r: ReceiveFields) -> Option<Slot>
    requires { Usable r }
    ensures value { result ≡ unread_slot r }
    ensures few { IfSome result (λ s. s.index < 32) }
{
    bits::find_slot(r.unread, u32::from(r.rpos), u32::from(r.slots), true)
}

// The slot that arg0 names, by the place of its message in the buffer.
#[tactic(auto, unfolding(crate::specs::Slots::slot_named))]
pub fn slot_named(r: ReceiveFields, arg0: u64) -> u64
    requires { Usable r }
    ensures { result ≡ slot_named r arg0 }
{
    arg0 >> r.slot_size
}

// Is slot i's message unread?
pub fn is_unread(r: ReceiveFields, i: u32) -> bool
    requires { i < 32 }
    ensures { result ≡ has_bit r.unread i }
{
    bits::test(r.unread, i)
}

// Where slot i's message starts in the buffer.
pub fn offset(r: ReceiveFields, i: u32) -> u64
    requires { Usable r × (i < 32) }
    ensures { result ≡ i * 2 ^ r.slot_size }
{
    u64::from(i) << r.slot_size
}

// Does rpl_eps + 2^slots run past the 64 endpoints?
#[tactic(auto, unfolding(crate::specs::Slots::range_past))]
pub fn range_past(r: ReceiveFields) -> bool
    requires { Usable r }
    ensures { result ≡ range_past r }
{
    numbers::sum_above(u64::from(r.rpl_eps), slots_of(r), 64)
}

// The same where 65535 means that there is no reply range.
#[tactic(auto, unfolding(crate::specs::Slots::range_bad))]
pub fn range_bad(r: ReceiveFields) -> bool
    requires { Usable r }
    ensures { result ≡ range_bad r }
{
    r.rpl_eps != 65535 && range_past(r)
}

// The record after a message came into slot i.
#[tactic(auto, unfolding(crate::specs::Slots::filled))]
pub fn fill(r: ReceiveFields, i: u32) -> ReceiveFields
    requires { i < 32 }
    ensures { result ≡ filled r i }
{
    ReceiveFields {
        wpos: (i + 1) as u8,
        occupied: bits::set(r.occupied, i),
        unread: bits::set(r.unread, i),
        ..r
    }
}

// The record after slot i was fetched.
#[tactic(auto, unfolding(crate::specs::Slots::fetched))]
pub fn fetch(r: ReceiveFields, i: u32) -> ReceiveFields
    requires { i < 32 }
    ensures { result ≡ fetched r i }
{
    ReceiveFields {
        rpos: (i + 1) as u8,
        unread: bits::clear(r.unread, i),
        ..r
    }
}

// The record after slot i was given back.
#[tactic(auto, unfolding(crate::specs::Slots::cleared))]
pub fn give_back(r: ReceiveFields, i: u32) -> ReceiveFields
    requires { i < 32 }
    ensures { result ≡ cleared r i }
{
    ReceiveFields {
        occupied: bits::clear(r.occupied, i),
        unread: bits::clear(r.unread, i),
        ..r
    }
}
