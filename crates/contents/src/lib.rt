// What the tiles' memory holds: bytes put there by `bytes`, and printed by `dump`.
#![tactic(auto)]

ghost use Rattle.std.specs.Prelude.{◌≡◌, ◌<◌, ◌≤◌, true, false, OnOk, if◌then◌else◌, nat_le, ◌&&◌, map};
ghost use Rattle.std.specs.Fmt.{digit_glyph};
ghost use Rattle.std.specs.List.{flat_map};
ghost use Rattle.std.specs.Io.KnownBytes.{Appends};
ghost use Rattle.board.specs.Board.{allowed, bytes_of, start_of};
ghost use Rattle.contents.specs.Bytes.{with_bytes};
ghost use Rattle.contents.specs.Rows.{row_start, byte_text, printable, row};

use board::Board;
use std::io::{self, Write};

// How many bytes to a line of `dump`.
const ROW: usize = 16;

// Where a tile's memory starts among the bytes of all tiles, and for the number of tiles where the last one's ends. The script was
// checked: its board is allowed, and no tile is asked for that it does not have.
fn start(b: Board, tile: u64) -> u64
    ensures small { result ≤ 524288 }
    ensures right { allowed b ≡ true → tile ≤ b.tiles → result ≡ start_of b tile }
{
    if !board::board_allowed(b) {
        return 0;
    }
    if b.tiles < tile {
        return 0;
    }
    board::start(b, tile)
}

// The bytes of all tiles.
#[tactic(auto, unfolding(board::specs::Board::bytes_of))]
pub fn bytes_of(b: Board) -> usize
    ensures { allowed b ≡ true → result ≡ bytes_of b }
{
    start(b, b.tiles) as usize
}

// Where an address of a tile lies among the bytes of all tiles.
pub fn place(b: Board, tile: u64, address: u64) -> usize {
    (start(b, tile) + address % 65536) as usize
}

// Puts bytes from a place on, as many of them as there are places.
pub fn put(memory: &mut [u8], at: usize, bytes: &[u8])
    ensures { memory.new ≡ with_bytes memory.old at bytes.now }
{
    if at < memory.len() {
        let n = bytes.len().min(memory.len() - at);
        memory[at..at + n].copy_from_slice(&bytes[..n]);
    }
}

fn printable(byte: u8) -> u8
    ensures { result ≡ printable byte }
{
    match byte {
        b' '..=b'~' => byte,
        _ => b'.',
    }
}

// TILE:ADDRESS
#[tactic(auto, using(output::proofs::Padding::zero_padded))]
fn row_start<W: Write>(out: &mut W, tile: u64, address: u64) -> io::Result<()>
    ensures { OnOk result (Appends (W.contents out.old) (W.contents out.new) (row_start tile address)) }
{
    write!(out, "{tile}:0x{address:04x} ")
}

fn digit(value: u8) -> u8
    requires { value < 16 }
    ensures { result ≡ digit_glyph false value }
{
    if value < 10 {
        b'0' + value
    } else {
        b'a' + (value - 10)
    }
}

// The digits one by one: a formatter for each byte would more than double what a dump takes.
#[tactic(auto, using(crate::proofs::Digits::two_digits))]
fn hex_byte<W: Write>(out: &mut W, byte: u8) -> io::Result<()>
    ensures { OnOk result (Appends (W.contents out.old) (W.contents out.new) (byte_text byte)) }
{
    out.write_all(&[b' ', digit(byte / 16), digit(byte % 16)])
}

#[tactic(auto, using(std::proofs::lemmas::List::flat_map_more))]
fn hex_bytes<W: Write>(out: &mut W, bytes: &[u8]) -> io::Result<()>
    ensures { OnOk result (Appends (W.contents out.old) (W.contents out.new) (flat_map byte_text bytes.now)) }
{
    for byte in bytes {
        hex_byte(out, *byte)?;
    }
    Ok(())
}

// Byte by byte: a formatter for each of them would take two fifths more for all of a dump.
#[tactic(auto, using(std::proofs::lemmas::List::map_more))]
fn characters<W: Write>(out: &mut W, bytes: &[u8]) -> io::Result<()>
    ensures { OnOk result (Appends (W.contents out.old) (W.contents out.new) (map printable bytes.now)) }
{
    for byte in bytes {
        output::byte(out, printable(*byte))?;
    }
    Ok(())
}

// TILE:ADDRESS, the bytes, and between bars what of them is printable.
fn row<W: Write>(out: &mut W, tile: u64, address: u64, bytes: &[u8]) -> io::Result<()>
    ensures { OnOk result (Appends (W.contents out.old) (W.contents out.new) (row tile address bytes.now)) }
{
    row_start(out, tile, address)?;
    hex_bytes(out, bytes)?;
    output::blanks(out, ROW.saturating_sub(bytes.len()) * 3 + 2)?;
    output::byte(out, b'|')?;
    characters(out, bytes)?;
    output::text(out, b"|\n")
}

// Bytes of a tile from an address on, in rows.
pub fn dump<W: Write>(out: &mut W, tile: u64, address: u64, bytes: &[u8]) -> io::Result<()> {
    for (address, bytes) in (address..).step_by(ROW).zip(bytes.chunks(ROW)) {
        row(out, tile, address, bytes)?;
    }
    Ok(())
}
