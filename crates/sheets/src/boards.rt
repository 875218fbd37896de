// The tables that the program tells and draws.
use crate::table_of::{Table, memory, receive, send};

// Document 01's session after its first SEND: one message is unread, and one reply is due.
pub fn session() -> Table {
    let mut table = Table::new();
    table.put(0, 4, send((5, 1, 2, 8, 1, 7, 0, 0, false, 0)));
    table.put(0, 6, receive((5, 1, 6, 2048, 65535, 0, 0)));
    table.put(1, 7, receive((5, 1, 8, 1024, 20, 1, 1)));
    table.put(1, 20, send((5, 1, 1, 6, 0, 6, 0, 4, true, 77)));
    table
}

// A service on three tiles: tile 0 asks tile 1, which asks tile 2, and both share memory.
pub fn service() -> Table {
    let mut table = Table::new();
    table.put(0, 2, send((5, 2, 2, 8, 1, 1, 0, 0, false, 16)));
    table.put(0, 3, receive((5, 1, 8, 0, 65535, 0, 0)));
    table.put(0, 4, send((5, 1, 1, 6, 2, 5, 0, 0, false, 1)));
    table.put(0, 9, memory((5, 3, 1, 2048, 1024, 0)));
    table.put(1, 1, receive((6, 2, 8, 1024, 40, 0, 0)));
    table.put(1, 2, send((6, 1, 1, 7, 2, 4, 0, 0, false, 0xbeef)));
    table.put(1, 3, receive((6, 0, 7, 512, 65535, 0, 0)));
    table.put(1, 4, memory((6, 1, 2, 0, 2048, 0)));
    table.put(2, 4, receive((8, 1, 7, 0, 40, 0, 0)));
    table.put(2, 5, receive((8, 0, 6, 512, 50, 0, 0)));
    table
}

// Send endpoints, with each of the ways in which they can come to nothing.
fn odd_senders() -> Table {
    let mut table = Table::new();
    table.put(1, 7, receive((5, 1, 8, 1024, 20, 3, 2)));
    table.put(
        0,
        1,
        send((5, 63, 63, 8, 1, 7, 0, 65535, false, 0xffff_ffff_ffff_ffff)),
    );
    table.put(0, 2, send((5, 1, 2, 8, 1, 7, 3, 0, false, 0)));
    table.put(0, 3, send((5, 1, 2, 8, 9, 7, 0, 0, false, 0)));
    table.put(0, 4, send((5, 1, 2, 8, 1, 8, 0, 0, false, 0)));
    table.put(0, 5, send((7, 0, 2, 11, 1, 7, 0, 0, false, 0)));
    table.put(0, 6, send((5, 2, 2, 4, 1, 7, 0, 0, false, 0)));
    table.put(0, 7, send((5, 2, 2, 12, 1, 7, 0, 0, false, 0)));
    table.put(0, 8, send((7, 2, 2, 5, 1, 64, 0, 0, false, 0)));
    table.put(1, 20, send((5, 1, 1, 6, 1, 7, 0, 65535, true, 0)));
    table.put(1, 21, send((5, 1, 1, 6, 0, 6, 0, 100, true, 0)));
    table
}

// Those, and receive and memory endpoints with each of theirs.
pub fn odd() -> Table {
    let mut table = odd_senders();
    table.put(0, 30, receive((9, 0, 5, 8, 63, 0, 0)));
    table.put(0, 31, receive((5, 2, 5, 16, 62, 0, 0)));
    table.put(0, 32, receive((5, 5, 11, 0, 65535, 0xffff_ffff, 0xf)));
    table.put(0, 9, memory((5, 1, 1, 1024, 1024, 0)));
    table.put(0, 10, memory((5, 2, 1, 65535, 1, 0)));
    table.put(0, 11, memory((9, 3, 2, 1, 0xffff_ffff_ffff_ffff, 0)));
    table.put(0, 12, memory((5, 0, 1, 0, 0, 0)));
    table.put(0, 13, memory((5, 3, 1, 0, 16, 2)));
    table.put(0, 14, memory((5, 3, 3, 65536, 16, 0)));
    table
}

// 18 that send to one.
pub fn crowd() -> Table {
    let mut table = Table::new();
    table.put(2, 0, receive((0, 5, 5, 0, 65535, 0, 0)));
    for ep in 10..19 {
        table.put(0, ep, send((5, 1, 1, 5, 2, 0, 0, 0, false, ep)));
        table.put(1, ep, send((5, 1, 1, 5, 2, 0, 0, 0, false, ep)));
    }
    table
}

// A gate of 4,096 bytes, a vault of 65,536 and a logbook of 16,384: ranges that end with the memory, ranges that go a byte past it,
// and a buffer at the vault's end.
pub fn unequal() -> Table {
    let mut table = Table::new();
    table.put(0, 9, memory((5, 1, 1, 65520, 16, 0)));
    table.put(0, 10, memory((5, 1, 1, 65521, 16, 0)));
    table.put(1, 9, memory((6, 2, 0, 4080, 16, 0)));
    table.put(1, 10, memory((6, 2, 0, 4081, 16, 0)));
    table.put(1, 11, memory((6, 3, 2, 0, 16384, 0)));
    table.put(1, 7, receive((6, 0, 8, 65280, 65535, 0, 0)));
    table
}

// Those, and the same buffer on the gate.
pub fn too_large() -> Table {
    let mut table = unequal();
    table.put(0, 7, receive((5, 0, 8, 65280, 65535, 0, 0)));
    table
}
