// The open channels of a board, for people: `sheet` tells them in words, `drawing` as a graph for Graphviz, and `endpoint` one
// endpoint as the statement of docs/SCRIPT.md that configures it. They write to a lent writer as the crate `output` does, and
// take any board and slices of any length: where these do not fit, they say so in one line.
#![tactic(auto)]

use board::Board;
use std::io::{self, Write};

mod statement;

pub use statement::endpoint;

// Board, words and activities are what a caller lends; where they can be told, they become `Channels`.
pub fn sheet<W: Write>(out: &mut W, b: Board, words: &[u64], acts: &[u16]) -> io::Result<()> {
    listing::sheet(out, b, words, acts)
}

pub fn drawing<W: Write>(out: &mut W, b: Board, words: &[u64], acts: &[u16]) -> io::Result<()> {
    graph::drawing(out, b, words, acts)
}
