// The wiring check (document 01, "Sound wiring"): is the table wired so that no buffer can be full of requests?
// The promise that rests on it is demand 3, `ledger/specs/Demand3.antt`.
#![tactic(auto)]

ghost use Rattle.std.specs.Prelude.{◌≡◌, ◌+◌, ◌*◌, ◌<◌, ◌≤◌, length};
ghost use Rattle.bits.specs.Search.{all};
ghost use Rattle.table.specs.Table.{view};
ghost use Rattle.slots.specs.Slots.{slots_of};
ghost use Rattle.wiring.specs.Credits.{aims_at, promise, promised};
ghost use Rattle.wiring.specs.Wiring.{whole, on_board, sender_sound, disjoint, clear_of, bare_at, apart_at, range_apart, range_sound, receiver_sound, sound_at, sound, wiring_of, Low};

use answers::{Error, check};
use board::Board;
use endpoint::{Endpoint, ReceiveFields, SendFields};

// ---- send endpoints

// No reply mark, cur_crd equal to max_crd, at most 62.
fn is_whole(s: SendFields) -> bool
    ensures { result ≡ whole s }
{
    !s.reply && s.cur_crd == s.max_crd && s.max_crd <= 62
}

fn is_on_board(tiles: u64, s: SendFields) -> bool
    ensures { result ≡ on_board tiles s }
{
    s.tgt_chip == 0 && u64::from(s.tgt_tile) < tiles
}

// Does s, without the reply mark, aim at a place?
fn aims_at(s: SendFields, place: u64) -> bool
    ensures { result ≡ aims_at place s }
{
    !s.reply
        && s.tgt_chip == 0
        && s.tgt_ep < 64
        && u64::from(s.tgt_tile) * 64 + u64::from(s.tgt_ep) == place
}

// What an endpoint promises to the receiver at a place.
// 0 is what it adds to the sum: an endpoint that aims elsewhere promises nothing.
#[tactic(auto, unfolding(crate::specs::Credits::share))]
fn promise_by(e: Endpoint, place: u64) -> u8
    ensures { result ≡ promise place e }
{
    match e {
        Endpoint::Send(s) if aims_at(s, place) => s.max_crd,
        _ => 0,
    }
}

// ---- receive endpoints

// A receive endpoint as it is read from its place in the table: `slots` has 6 bits. That the place is one of a table's is asked by
// the functions on `Endpoints`, since it speaks of that table's tiles too.
#[derive(Clone, Copy)]
struct Receiver {
    place: u64,
    fields: ReceiveFields,
    ghost low: { fields.slots < 64 },
}

impl Receiver {
    fn slots(self) -> u64
        ensures { result ≡ slots_of self.fields }
    {
        bits::power(u64::from(self.fields.slots))
    }

    // Where its reply range ends.
    fn range_end(self) -> u64
        ensures { result ≡ self.fields.rpl_eps + slots_of self.fields }
    {
        u64::from(self.fields.rpl_eps) + self.slots()
    }

    fn is_disjoint(self, other: Receiver) -> bool
        ensures { result ≡ disjoint self.fields other.fields }
    {
        self.range_end() <= u64::from(other.fields.rpl_eps)
            || other.range_end() <= u64::from(self.fields.rpl_eps)
    }

    // Has the other no range, or one apart from that of this one?
    #[tactic(auto, unfolding(crate::specs::Wiring::clear_of))]
    fn is_clear_of(self, other: Receiver) -> bool
        ensures { result ≡ clear_of self.fields other.fields }
    {
        other.fields.rpl_eps == 65535 || self.is_disjoint(other)
    }
}

// ---- the table

// The endpoints of a machine of right sizes, in the words that the host lent.
#[derive(Drop)]
struct Endpoints<'a> {
    tiles: u64,
    words: &'a [u64],
    ghost few: { tiles ≤ 8 },
    ghost long: { length words.now ≡ tiles * 192 },
}

impl<'a> Endpoints<'a> {
    // The endpoint at a place.
    #[tactic(auto, using(crate::proofs::Low::view_low), unfolding(table::specs::Table::view))]
    fn at(&self, place: u64) -> Endpoint
        requires { place < self.now.tiles * 64 }
        ensures value { result ≡ view self.now.words.now place }
        ensures low { Low result }
    {
        // `as` keeps the number, and `usize` has no `From<u64>`.
        endpoint::fields_of(table::read_nth(self.words, place as usize))
    }

    #[tactic(auto, unfolding(crate::specs::Wiring::sender_sound))]
    fn is_sender_sound(&self, s: SendFields) -> bool
        ensures { result ≡ sender_sound self.now.tiles (view self.now.words.now) s }
    {
        is_whole(s)
            && is_on_board(self.tiles, s)
            && matches!(
                table::endpoint_at(self.words, usize::from(s.tgt_tile), u64::from(s.tgt_ep)),
                Endpoint::Receive(_)
            )
    }

    // Is endpoint i of the range of g INVALID?
    fn is_bare_at(&self, g: Receiver, i: u64) -> bool
        requires { (g.place < self.now.tiles * 64) × (g.fields.rpl_eps + i < 64) }
        ensures { result ≡ bare_at (view self.now.words.now) g.place g.fields i }
    {
        let place = g.place / 64 * 64 + (u64::from(g.fields.rpl_eps) + i);
        matches!(self.at(place), Endpoint::Invalid)
    }

    // Does the range hold only INVALID endpoints?
    fn is_range_bare(&self, g: Receiver) -> bool
        requires { (g.place < self.now.tiles * 64) × (g.fields.rpl_eps + slots_of g.fields ≤ 64) }
        ensures { result ≡ all (bare_at (view self.now.words.now) g.place g.fields) (slots_of g.fields) }
    {
        (0..g.slots()).all(|i| self.is_bare_at(g, i))
    }

    // Is endpoint e of the tile g itself, or has it no range, or one apart from that of g?
    #[tactic(auto, unfolding(crate::specs::Wiring::apart_at, crate::specs::Wiring::apart_from))]
    fn is_apart_at(&self, g: Receiver, e: u64) -> bool
        requires { (g.place < self.now.tiles * 64) × (e < 64) }
        ensures { result ≡ apart_at (view self.now.words.now) g.place g.fields e }
    {
        let place = g.place / 64 * 64 + e;
        match self.at(place) {
            Endpoint::Receive(fields) if place != g.place => {
                g.is_clear_of(Receiver { place, fields })
            }
            _ => true,
        }
    }

    // Does it share none with another range on its tile?
    #[tactic(auto, unfolding(crate::specs::Wiring::range_apart))]
    fn is_range_apart(&self, g: Receiver) -> bool
        requires { g.place < self.now.tiles * 64 }
        ensures { result ≡ range_apart (view self.now.words.now) g.place g.fields }
    {
        (0..64).all(|e| self.is_apart_at(g, e))
    }

    // The range of g, if it has one.
    #[tactic(auto, unfolding(crate::specs::Wiring::range_sound))]
    fn is_range_sound(&self, g: Receiver) -> bool
        requires { g.place < self.now.tiles * 64 }
        ensures { result ≡ range_sound (view self.now.words.now) g.place g.fields }
    {
        g.fields.rpl_eps == 65535
            || g.range_end() <= 64 && self.is_range_bare(g) && self.is_range_apart(g)
    }

    // What all promise to the receiver at a place.
    fn promised_to(&self, place: u64) -> u64
        ensures { result ≡ promised (self.now.tiles * 64) (view self.now.words.now) place }
    {
        (0..self.tiles * 64)
            .map(|q| u64::from(promise_by(self.at(q), place)))
            .sum()
    }

    // The receive endpoint g: no occupied bit, its range if it has one, and the credits promised to it.
    #[tactic(auto, unfolding(crate::specs::Wiring::receiver_sound))]
    fn is_receiver_sound(&self, g: Receiver) -> bool
        requires { g.place < self.now.tiles * 64 }
        ensures { result ≡ receiver_sound self.now.tiles (view self.now.words.now) g.place g.fields }
    {
        g.fields.occupied == 0 && self.is_range_sound(g) && self.promised_to(g.place) <= g.slots()
    }

    #[tactic(auto, unfolding(crate::specs::Wiring::endpoint_sound))]
    fn is_sound_at(&self, place: u64) -> bool
        requires { place < self.now.tiles * 64 }
        ensures { result ≡ sound_at self.now.tiles (view self.now.words.now) place }
    {
        match self.at(place) {
            Endpoint::Send(s) => self.is_sender_sound(s),
            Endpoint::Receive(fields) => { self.is_receiver_sound(Receiver { place, fields }) }
            _ => true,
        }
    }

    #[tactic(auto, unfolding(crate::specs::Wiring::sound))]
    fn is_sound(&self) -> bool
        ensures { result ≡ sound self.now.tiles (view self.now.words.now) }
    {
        (0..self.tiles * 64).all(|place| self.is_sound_at(place))
    }
}

// ---- for the host

// The wiring check: sound or not, or BAD_MACHINE.
#[tactic(auto, using(crate::proofs::Right::right_lent), unfolding(crate::specs::Wiring::wiring_of))]
pub fn check_wiring(b: Board, words: &[u64], sharing: &[u64], mem: &[u8]) -> Result<bool, Error>
    ensures { result ≡ wiring_of b words.now sharing.now mem.now }
{
    check(
        machine::machine_right(b, words, sharing, mem),
        Error::BadMachine,
    )?;
    let endpoints = Endpoints {
        tiles: b.tiles,
        words,
    };
    Ok(endpoints.is_sound())
}
