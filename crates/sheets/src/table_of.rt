// Endpoints put into a table. The fields of one stand in a row, in the order in which docs/SCRIPT.md names them: as a struct with
// names, each of some fifty endpoints would take ten lines in place of one.
ghost use Rattle.std.specs.Prelude.{◌<◌};

use endpoint::{Endpoint, MemoryFields, ReceiveFields, SendFields};

// Three tiles.
#[derive(Clone, Copy)]
pub struct Table {
    pub words: [u64; 576],
}

impl Table {
    // With no endpoint.
    pub fn new() -> Table {
        Table { words: [0; 576] }
    }

    pub fn put(&mut self, tile: usize, ep: u64, e: Endpoint)
        requires { (tile < 3) × (ep < 64) }
    {
        table::store(&mut self.words, tile, ep, e);
    }

    pub fn first_two(&self) -> &[u64] {
        &self.words[..384]
    }
}

// act, cur_crd, max_crd, msg_sz, tgt_tile, tgt_ep, tgt_chip, crd_ep, reply, label
type SendRow = (u16, u8, u8, u8, u8, u16, u8, u16, bool, u64);

pub fn send(row: SendRow) -> Endpoint {
    let (act, cur_crd, max_crd, msg_sz, tgt_tile, tgt_ep, tgt_chip, crd_ep, reply, label) = row;
    Endpoint::Send(SendFields {
        act,
        cur_crd,
        max_crd,
        msg_sz,
        crd_ep,
        reply,
        tgt_ep,
        tgt_tile,
        tgt_chip,
        label,
    })
}

// act, slots, slot_size, buffer, rpl_eps, occupied, unread
type ReceiveRow = (u16, u8, u8, u64, u16, u32, u32);

pub fn receive(row: ReceiveRow) -> Endpoint {
    let (act, slots, slot_size, buffer, rpl_eps, occupied, unread) = row;
    Endpoint::Receive(ReceiveFields {
        act,
        rpl_eps,
        slots,
        slot_size,
        wpos: 0,
        rpos: 0,
        buffer,
        occupied,
        unread,
    })
}

// act, rw, tile, addr, size, chip
type MemoryRow = (u16, u8, u8, u64, u64, u8);

pub fn memory(row: MemoryRow) -> Endpoint {
    let (act, rw, tile, addr, size, chip) = row;
    Endpoint::Memory(MemoryFields {
        act,
        rw,
        tile,
        chip,
        addr,
        size,
    })
}
