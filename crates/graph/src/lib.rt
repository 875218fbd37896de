// The drawing: a digraph for Graphviz, from left to right, with a cluster for each tile.
#![tactic(auto)]

use board::Board;
use channels::Channels;
use channels::phrases::Tile;
use std::io::{self, Write};

mod edges;
mod nodes;

const HEAD: &[u8] = b"digraph channels {
  rankdir=LR;
  ranksep=1;
  graph [fontname=\"Helvetica\", style=\"rounded,filled\", color=gray70, fillcolor=gray95];
  node [fontname=\"Helvetica\", fontsize=11, style=filled, fillcolor=white, color=gray30];
  edge [fontname=\"Helvetica\", fontsize=9, color=gray30];
";

// ---- the clusters

// Graphviz draws no cluster without a node: where nothing is open, one says so.
fn endpoints<W: Write>(out: &mut W, channels: &Channels<'_>, tile: Tile) -> io::Result<()> {
    if !channels.has_open(tile.number) {
        return writeln!(
            out,
            "    t{}none [label=\"nothing is open\", shape=plaintext, style=\"\", fontcolor=gray50];",
            tile.number
        );
    }
    for (place, e) in channels.endpoints_of(tile.number) {
        if channels::is_open(e) {
            nodes::node(out, place, e, tile.running)?;
        }
    }
    Ok(())
}

fn memory<W: Write>(out: &mut W, channels: &Channels<'_>, tile: usize) -> io::Result<()> {
    if channels.is_shared(tile) {
        return nodes::tile_memory(out, tile, channels.memory(tile));
    }
    Ok(())
}

fn cluster<W: Write>(out: &mut W, channels: &Channels<'_>, tile: Tile) -> io::Result<()> {
    write!(
        out,
        "  subgraph cluster_{} {{\n    label=\"{tile}\";\n",
        tile.number
    )?;
    endpoints(out, channels, tile)?;
    memory(out, channels, tile.number)?;
    writeln!(out, "  }}")
}

// ---- the whole

fn whole<W: Write>(out: &mut W, channels: &Channels<'_>) -> io::Result<()> {
    for (number, running) in channels.running().iter().copied().enumerate() {
        cluster(out, channels, Tile { number, running })?;
    }
    if channels.any_astray() {
        writeln!(
            out,
            "  nowhere [shape=plaintext, style=\"\", fontcolor=red];"
        )?;
    }
    for (place, e) in channels.endpoints() {
        edges::edge(out, channels, place, e)?;
    }
    writeln!(out, "}}")
}

pub fn drawing<W: Write>(out: &mut W, b: Board, words: &[u64], acts: &[u16]) -> io::Result<()> {
    output::text(out, HEAD)?;
    match Channels::of(b, words, acts) {
        Ok(channels) => whole(out, &channels),
        Err(misfit) => write!(
            out,
            "  refused [shape=plaintext, style=\"\", label=\"No drawing: {misfit}\"];\n}}\n"
        ),
    }
}
