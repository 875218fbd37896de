// What statements print of the system.
use super::{ENDPOINT, ENDPOINTS, RECORD, System};
use endpoint::{Endpoint, Words};
use script::{Address, Place};
use std::io::{self, Write};

impl System {
    // The endpoint that stands in the table.
    fn endpoint_at(&self, at: Place) -> Endpoint {
        let tile = self.words.chunks(ENDPOINTS).nth(at.tile as usize);
        match tile.and_then(|words| words.chunks(ENDPOINT).nth(at.endpoint as usize)) {
            Some([first, second, third]) => endpoint::fields_of(Words {
                first: *first,
                second: *second,
                third: *third,
            }),
            _ => Endpoint::Invalid,
        }
    }

    // The activity that runs on each tile; 0 for tiles that the board does not have.
    fn activities(&self) -> [u16; 8] {
        let mut ids = [0u16; 8];
        for (tile, id) in ids.iter_mut().enumerate() {
            *id = (self.cur_act(tile) & 0xFFFF) as u16;
        }
        ids
    }

    // The statement that configures an endpoint as it stands.
    pub fn show<W: Write>(&self, at: Place, out: &mut W) -> io::Result<()> {
        sheet::endpoint(out, at.tile, at.endpoint, self.endpoint_at(at))
    }

    // Bytes of a tile's memory.
    pub fn dump<W: Write>(&self, from: Address, count: u64, out: &mut W) -> io::Result<()> {
        let at = contents::place(self.board, from.tile, from.byte);
        let bytes = self.memory.get(at..).unwrap_or(&[]);
        let count = bytes.len().min(count as usize);
        contents::dump(out, from.tile, from.byte, &bytes[..count])
    }

    // What is waiting at a tile: the requests that tell of messages for the activities that do not run.
    pub fn waiting<W: Write>(&self, tile: u64, out: &mut W) -> io::Result<()> {
        let word = self.cur_act(tile as usize);
        let (id, unread) = (word % 0x10000, word / 0x10000);
        write!(out, "tile {tile}: activity {id}, {unread} unread; ")?;
        match machine::waiting_at(self.board, &self.words, &self.sharing, &self.memory, tile) {
            Err(_) => writeln!(out, "its record is not acceptable"),
            Ok(waiting) => {
                let (count, act, ep) = (waiting.count, waiting.act, waiting.ep);
                match count {
                    0 => writeln!(out, "nothing waits"),
                    _ => writeln!(
                        out,
                        "{count} waiting, the oldest for activity {act} at endpoint {ep}"
                    ),
                }
            }
        }
    }

    // The open channels in words, with the activity that runs on each tile.
    pub fn sheet<W: Write>(&self, out: &mut W) -> io::Result<()> {
        let ids = self.activities();
        let tiles = self.board.tiles.min(8) as usize;
        sheet::sheet(out, self.board, &self.words, &ids[..tiles])
    }

    // A drawing of them.
    // Two lines as in `sheet`: a helper could not hand out a part of an array that it made.
    pub fn drawing<W: Write>(&self, out: &mut W) -> io::Result<()> {
        let ids = self.activities();
        let tiles = self.board.tiles.min(8) as usize;
        sheet::drawing(out, self.board, &self.words, &ids[..tiles])
    }
}
