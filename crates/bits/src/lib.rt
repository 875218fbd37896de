// Masks of 32 bits, and the search for a slot. Slot i of a receive endpoint is bit i of its masks `occupied` and `unread`.
// Document 01: the receive endpoint's rules on its masks ("Endpoint words"), and "the first .. slot from .., going round".
#![tactic(auto)]

ghost use Rattle.std.specs.Prelude.{◌≡◌, ◌^◌, ◌<◌, ◌≤◌, ltb};
ghost use Rattle.bits.specs.Bits.{put_bit, has_bit, within};
ghost use Rattle.bits.specs.Slots.{nearest, find_slot};

// A slot that a search found, and how many steps from the position it lies.
#[derive(Clone, Copy, PartialEq, Eq)]
pub struct Slot {
    pub index: u32,
    pub distance: u32,
}

// 2 to the i.
pub fn power(i: u64) -> u64
    requires { i < 64 }
    ensures { result ≡ 2 ^ i }
{
    1 << i
}

// Does no bit stand at 2^slots or above?
#[tactic(auto, using(crate::proofs::BitLaws::counts))]
pub fn below(mask: u32, slots: u64) -> bool
    requires { slots ≤ 5 }
    ensures { result ≡ ltb mask (2 ^ (2 ^ slots)) }
{
    let n = power(slots);
    let end = power(n);
    u64::from(mask) < end
}

// Is every bit of `inner` also one of `outer`?
pub fn inside(inner: u32, outer: u32) -> bool
    ensures { result ≡ within inner outer }
{
    inner & outer == inner
}

// Is bit i set?
pub fn test(mask: u32, i: u32) -> bool
    requires { i < 32 }
    ensures { result ≡ has_bit mask i }
{
    (mask >> i) % 2 == 1
}

// The mask with bit i set.
#[tactic(auto, using(crate::proofs::BitLaws::set_as))]
pub fn set(mask: u32, i: u32) -> u32
    requires { i < 32 }
    ensures { result ≡ put_bit mask i 1 }
{
    mask | (1 << i)
}

// The mask with bit i clear.
#[tactic(auto, using(crate::proofs::BitLaws::clear_as))]
pub fn clear(mask: u32, i: u32) -> u32
    requires { i < 32 }
    ensures { result ≡ put_bit mask i 0 }
{
    mask & !(1 << i)
}

// The first of n slots from pos, going round, whose bit is as wanted.
fn nearest(mask: u32, pos: u32, n: u32, wanted: bool) -> Option<Slot>
    requires { (0 < n) × (n ≤ 32) × (pos ≤ n) }
    ensures { result ≡ nearest mask pos n wanted }
{
    (0..n)
        .map(|distance| Slot {
            index: (pos + distance) % n,
            distance,
        })
        .find(|s| test(mask, s.index) == wanted)
}

// The first slot from pos, going round the 2^slots, whose bit is as wanted.
#[tactic(auto, using(crate::proofs::BitLaws::counts))]
pub fn find_slot(mask: u32, pos: u32, slots: u32, wanted: bool) -> Option<Slot>
    requires { (slots ≤ 5) × (pos ≤ 2 ^ slots) }
    ensures { result ≡ find_slot mask pos slots wanted }
{
    nearest(mask, pos, 1 << slots, wanted)
}
