// The table of endpoints in the lent words: one endpoint read, one written, and the check of all.
// The words, a tile and an endpoint's number go about as three parameters and in no struct: what reads borrows the words with `&`, what
// writes with `&mut`, and the struct would stand here twice.
#![tactic(auto)]

ghost use Rattle.std.specs.Prelude.{◌≡◌, ◌+◌, ◌*◌, ◌<◌, ◌≤◌, length};
ghost use Rattle.table.specs.Words.{Inside, three, set_three, words_nth, put_nth};
ghost use Rattle.table.specs.Table.{place, endpoint_at, view, stored};
ghost use Rattle.table.specs.Good.{acceptable_at, good_table};

use board::Board;
use endpoint::{Endpoint, Words};

// Three words from index i on.
fn load(words: &[u64], i: usize) -> Words
    requires { Inside i (length words.now) }
    ensures { result ≡ three words.now i }
{
    Words {
        first: words[i],
        second: words[i + 1],
        third: words[i + 2],
    }
}

fn keep(words: &mut [u64], i: usize, w: Words)
    requires { Inside i (length words.old) }
    ensures { words.new ≡ set_three words.old i w }
{
    // Three stores, as the clause has them: over one copy of three words it stayed open.
    words[i] = w.first;
    words[i + 1] = w.second;
    words[i + 2] = w.third;
}

// The words of the n-th endpoint of all.
// The layout is document 01's, in one list of words that C lends: three words an endpoint, 64 endpoints a tile.
#[tactic(auto, unfolding(crate::specs::Words::words_nth))]
pub fn read_nth(words: &[u64], n: usize) -> Words
    requires { n * 3 + 2 < length words.now }
    ensures { result ≡ words_nth words.now n }
{
    load(words, n * 3)
}

#[tactic(auto, unfolding(crate::specs::Words::put_nth))]
pub fn write_nth(words: &mut [u64], n: usize, w: Words)
    requires { n * 3 + 2 < length words.old }
    ensures { words.new ≡ put_nth words.old n w }
{
    keep(words, n * 3, w);
}

// The endpoint ep of a tile.
#[tactic(auto, unfolding(crate::specs::Table::endpoint_at, crate::specs::Table::view))]
pub fn endpoint_at(words: &[u64], tile: usize, ep: u64) -> Endpoint
    requires { tile * 192 + 192 ≤ length words.now }
    ensures { result ≡ endpoint_at (view words.now) tile ep }
{
    if 64 <= ep {
        return Endpoint::Invalid;
    }
    let w = read_nth(words, tile * 64 + ep as usize);
    endpoint::fields_of(w)
}

// The endpoint ep of a tile becomes e.
#[tactic(auto, unfolding(crate::specs::Table::stored))]
pub fn store(words: &mut [u64], tile: usize, ep: u64, e: Endpoint)
    requires { (tile * 192 + 192 ≤ length words.old) × (ep < 64) }
    ensures { words.new ≡ stored words.old (place tile ep) e }
{
    let w = endpoint::words_of(e);
    write_words(words, tile, ep, w);
}

// The endpoint ep of a tile gets the words w.
pub fn write_words(words: &mut [u64], tile: usize, ep: u64, w: Words)
    requires { (tile * 192 + 192 ≤ length words.old) × (ep < 64) }
    ensures { words.new ≡ put_nth words.old (place tile ep) w }
{
    write_nth(words, tile * 64 + ep as usize, w);
}

// Is the q-th endpoint of all acceptable in its own tile's memory?
fn acceptable_at(b: Board, words: &[u64], q: u64) -> bool
    requires { (q < 512) × (q * 3 + 2 < length words.now) }
    ensures { result ≡ acceptable_at b words.now q }
{
    // A tile's number is below 8, and `% 8` says so to the compiler, which else tests at each endpoint, in every call of the
    // machine, whether the board has a size for it.
    let memory = board::size(b, q / 64 % 8);
    endpoint::acceptable_words(memory, read_nth(words, q as usize))
}

// Is each endpoint acceptable? It runs on every call of the machine.
#[tactic(auto, unfolding(crate::specs::Good::good_table))]
pub fn good(b: Board, words: &[u64]) -> bool
    requires { (b.tiles ≤ 8) × (length words.now ≡ b.tiles * 192) }
    ensures { result ≡ good_table b words.now }
{
    (0..b.tiles * 64).all(|q| acceptable_at(b, words, q))
}
