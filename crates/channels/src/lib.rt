// What the table says of the open channels, for the sheet and the drawing alike.
#![tactic(auto)]

ghost use Rattle.std.specs.Prelude.{◌≡◌, ◌+◌, ◌*◌, ◌<◌, ◌≤◌, length, OnOk, IfOk, Some, IsTrue, ◌↔◌, ◌≢◌, ◌^◌, nat_lt, if◌then◌else◌};
ghost use Rattle.std.specs.Iterator.{at_most};
ghost use Rattle.channels.specs.Phrases.{place};
ghost use Rattle.channels.specs.Aims.{aimed, reached};
ghost use Rattle.board.specs.Board.{size_of};
ghost use Rattle.endpoint.specs.Kinds.{is_receive};
ghost use Rattle.table.specs.Table.{endpoint_at, view};

use board::Board;
use endpoint::{Endpoint, MemoryFields, ReceiveFields, SendFields, Words};
use std::fmt;

pub mod phrases;

// Endpoint `ep` of a tile.
#[derive(Clone, Copy, Debug, PartialEq, Eq)]
pub struct Place {
    pub tile: usize,
    pub ep: usize,
}

impl Place {
    ghost use Rattle.channels.specs.Endpoints.{place_of};

    fn of(number: usize) -> Place
        ensures { result ≡ place_of number }
    {
        Place {
            tile: number / 64,
            ep: number % 64,
        }
    }
}

impl fmt::Display for Place {
    ghost output = { λ p. Some (place p.tile p.ep) };

    fn fmt<W: fmt::Write>(&self, f: &mut fmt::Formatter<W>) -> fmt::Result {
        write!(f, "{}:{}", self.tile, self.ep)
    }
}

// Why the channels of a board cannot be told. A table with an endpoint that is not acceptable is one, since the machine refuses all
// of it.
#[derive(Clone, Copy, Debug, PartialEq, Eq)]
pub enum Misfit {
    Tiles(u64),
    Pages {
        tile: u64,
        pages: u64,
    },
    Lengths {
        tiles: u8,
        words: usize,
        activities: usize,
    },
    Unacceptable(Place),
}

// What is not there, where an endpoint aims.
#[derive(Clone, Copy, Debug, PartialEq, Eq)]
pub enum Missing {
    Chip(u8),
    Tile(u8),
    Receiver,
}

// How the range that a memory endpoint reaches lies in its tile's memory.
#[derive(Clone, Copy, Debug, PartialEq, Eq)]
pub enum Reach {
    Inside,
    PastTheEnd,
}

// A board of which each endpoint is acceptable, its table, and the activity that runs on each tile.
#[derive(Clone, Copy)]
pub struct Channels<'a> {
    board: Board,
    words: &'a [u64],
    running: &'a [u16],
    ghost few: { board.tiles ≤ 8 },
    ghost whole_table: { length words.now ≡ board.tiles * 192 },
    ghost one_each: { length running.now ≡ board.tiles },
}

// The endpoints of a part of the table, each with its place.
#[derive(Drop)]
pub struct Endpoints<'a> {
    words: &'a [u64],
    number: usize,
    ghost on_a_board: { number * 3 + length words.now ≤ 1536 },
}

impl<'a> Iterator for Endpoints<'a> {
    ghost use Rattle.channels.specs.Endpoints.{TakesEndpoint};

    type Item = (Place, Endpoint);

    ghost next_gives = { TakesEndpoint };

    ghost remaining = { λ s. at_most (length s.words.now) };

    fn next(&mut self) -> Option<(Place, Endpoint)> {
        let ([first, second, third], words) = self.words.split_first_chunk::<3>()?;
        let place = Place::of(self.number);
        let e = endpoint::fields_of(Words {
            first: *first,
            second: *second,
            third: *third,
        });
        *self = Endpoints {
            words,
            number: self.number + 1,
        };
        Some((place, e))
    }
}

// The endpoints that send to one.
#[derive(Drop)]
pub struct Senders<'a> {
    endpoints: Endpoints<'a>,
    receiver: Place,
}

impl<'a> Iterator for Senders<'a> {
    ghost use Rattle.channels.specs.Endpoints.{TakesSender};

    type Item = Place;

    ghost next_gives = { TakesSender };

    ghost remaining = { λ s. at_most (length s.endpoints.words.now) };

    fn next(&mut self) -> Option<Place> {
        let receiver = self.receiver;
        let (place, _) = self.endpoints.find(|(_, e)| sends_to(*e, receiver))?;
        Some(place)
    }
}

// ---- what can be told

fn check_board(b: Board) -> Result<(), Misfit>
    ensures { OnOk result (b.tiles ≤ 8) }
{
    if b.tiles == 0 || b.tiles > 8 {
        return Err(Misfit::Tiles(b.tiles));
    }
    match (0..b.tiles).find(|tile| !board::memory_allowed(board::size(b, *tile))) {
        Some(tile) => Err(Misfit::Pages {
            tile,
            pages: board::size(b, tile) / 4096,
        }),
        None => Ok(()),
    }
}

// A receive endpoint's buffer has to fit the memory of its own tile.
fn is_acceptable(b: Board, words: &[u64], number: usize) -> bool
    requires { (number < 512) × (number * 3 + 2 < length words.now) }
{
    let memory = board::size(b, (number / 64) as u64);
    endpoint::acceptable_words(memory, table::read_nth(words, number))
}

fn first_unacceptable(b: Board, words: &[u64]) -> Option<usize>
    requires { (b.tiles ≤ 8) × (length words.now ≡ b.tiles * 192) }
{
    (0..words.len() / 3).find(|number| !is_acceptable(b, words, *number))
}

impl<'a> Channels<'a> {
    ghost use Rattle.channels.specs.Endpoints.{tile_words};

    pub fn of(board: Board, words: &'a [u64], running: &'a [u16]) -> Result<Channels<'a>, Misfit>
        ensures { IfOk result (λ c. (c.board ≡ board) × (c.words.now ≡ words.now) × (c.running.now ≡ running.now)) }
    {
        check_board(board)?;
        let tiles = board.tiles;
        if words.len() as u64 != tiles * 192 || running.len() as u64 != tiles {
            return Err(Misfit::Lengths {
                tiles: tiles as u8,
                words: words.len(),
                activities: running.len(),
            });
        }
        if let Some(number) = first_unacceptable(board, words) {
            return Err(Misfit::Unacceptable(Place::of(number)));
        }
        Ok(Channels {
            board,
            words,
            running,
        })
    }

    // The activity that runs on each tile.
    pub fn running(&self) -> &'a [u16]
        ensures { result.now ≡ self.now.running.now }
    {
        self.running
    }

    // How many bytes of memory a tile has.
    pub fn memory(&self, tile: usize) -> u64
        ensures { result ≡ size_of self.now.board tile }
    {
        board::size(self.board, tile as u64)
    }

    pub fn endpoints(&self) -> Endpoints<'a>
        ensures first { result.number ≡ 0 }
        ensures words { result.words.now ≡ self.now.words.now }
    {
        Endpoints {
            words: self.words,
            number: 0,
        }
    }

    // The endpoints of a tile.
    pub fn endpoints_of(&self, tile: usize) -> Endpoints<'a>
        ensures first { tile < self.now.board.tiles → result.number ≡ tile * 64 }
        ensures words { result.words.now ≡ tile_words self.now.board.tiles self.now.words.now tile }
    {
        if tile as u64 >= self.board.tiles {
            return Endpoints {
                words: &[],
                number: 0,
            };
        }
        Endpoints {
            words: &self.words[tile * 192..tile * 192 + 192],
            number: tile * 64,
        }
    }

    pub fn has_open(&self, tile: usize) -> bool {
        self.endpoints_of(tile).any(|(_, e)| is_open(e))
    }

    // The endpoints that send to the receive endpoint there, but for those that reply once.
    pub fn senders(&self, receiver: Place) -> Senders<'a>
        ensures receiver { result.receiver ≡ receiver }
        ensures first { result.endpoints.number ≡ 0 }
        ensures words { result.endpoints.words.now ≡ self.now.words.now }
    {
        Senders {
            endpoints: self.endpoints(),
            receiver,
        }
    }

    // Read where it stands, since each send endpoint asks it; past a tile's last endpoint nothing receives.
    fn is_receiver(&self, tile: u8, ep: u16) -> bool
        requires { tile < self.now.board.tiles }
        ensures { result ≡ is_receive (endpoint_at (view self.now.words.now) tile ep) }
    {
        let aimed = table::endpoint_at(self.words, usize::from(tile), u64::from(ep));
        matches!(aimed, Endpoint::Receive(_))
    }

    // Whether there is what a send endpoint aims at.
    pub fn receiver(&self, s: SendFields) -> Result<(), Missing>
        ensures { result ≡ aimed self.now.board (view self.now.words.now) s }
    {
        if s.tgt_chip != 0 {
            return Err(Missing::Chip(s.tgt_chip));
        }
        if u64::from(s.tgt_tile) >= self.board.tiles {
            return Err(Missing::Tile(s.tgt_tile));
        }
        if !self.is_receiver(s.tgt_tile, s.tgt_ep) {
            return Err(Missing::Receiver);
        }
        Ok(())
    }

    // What a memory endpoint reaches.
    pub fn reach(&self, m: MemoryFields) -> Result<Reach, Missing>
        ensures { result ≡ reached self.now.board m }
    {
        if m.chip != 0 {
            return Err(Missing::Chip(m.chip));
        }
        if u64::from(m.tile) >= self.board.tiles {
            return Err(Missing::Tile(m.tile));
        }
        if numbers::sum_above(m.addr, m.size, self.memory(usize::from(m.tile))) {
            return Ok(Reach::PastTheEnd);
        }
        Ok(Reach::Inside)
    }

    // Does the endpoint aim at nothing?
    fn is_astray(&self, e: Endpoint) -> bool {
        match e {
            Endpoint::Send(s) => self.receiver(s).is_err(),
            Endpoint::Memory(m) => self.reach(m).is_err(),
            _ => false,
        }
    }

    pub fn any_astray(&self) -> bool {
        self.endpoints().any(|(_, e)| self.is_astray(e))
    }

    // Does any endpoint reach the memory of that tile?
    pub fn is_shared(&self, tile: usize) -> bool {
        self.endpoints().any(|(_, e)| reaches_memory_of(e, tile))
    }
}

// ---- what is asked of one endpoint

pub fn is_open(e: Endpoint) -> bool
    ensures { IsTrue result ↔ (e ≢ Endpoint.Invalid) }
{
    !matches!(e, Endpoint::Invalid)
}

fn reaches_memory_of(e: Endpoint, tile: usize) -> bool {
    match e {
        Endpoint::Memory(m) => m.chip == 0 && usize::from(m.tile) == tile,
        _ => false,
    }
}

// Does the endpoint send to the receive endpoint there, and not only reply once?
fn sends_to(e: Endpoint, receiver: Place) -> bool {
    match e {
        Endpoint::Send(s) if !s.reply && s.tgt_chip == 0 => {
            usize::from(s.tgt_tile) == receiver.tile && usize::from(s.tgt_ep) == receiver.ep
        }
        _ => false,
    }
}

// 2 to the i, or 0 where that is past 64 bits; sizes and slots are given so.
pub fn power(i: u8) -> u64
    ensures { result ≡ if nat_lt i 64 then 2 ^ i else 0 }
{
    1u64.checked_shl(u32::from(i)).unwrap_or(0)
}

// The slots of a receive endpoint; an acceptable one has at most 32.
pub fn slots(r: ReceiveFields) -> u64
    ensures { result ≤ 32 }
{
    let n = power(r.slots);
    if n <= 32 { n } else { 0 }
}
