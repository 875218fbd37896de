// The bytes of all tiles, in one lent slice: moves within it, words and messages stored in it.
// Each function says what the bytes are after it as one `put` of what they were (`specs/Bytes.antt`).
#![tactic(auto)]

ghost use Rattle.std.specs.Prelude.{◌≡◌, ◌++◌, ◌+◌, ◌≤◌, length};
ghost use Rattle.memory.specs.Bytes.{part, put, word, header};

// Moves n bytes from index `from` to index `to`. The ranges may overlap: it is as if all were read before any is written.
// Two places and a length, and no range: the contract that it had is over these three. By the laws `downwards` and `upwards` a move in two
// parts is proved too, where the parts are moved in the order that their overlap asks (must-fail/upwards_for_downwards).
#[tactic(auto, using(crate::proofs::ByteLaws::put_within, crate::proofs::ByteLaws::downwards, crate::proofs::ByteLaws::upwards))]
pub fn move_bytes(mem: &mut [u8], from: usize, to: usize, n: usize)
    requires { (from + n ≤ length mem.old) × (to + n ≤ length mem.old) }
    ensures { mem.new ≡ put mem.old to (part mem.old from n) }
{
    mem.copy_within(from..from + n, to);
}

// The bytes of a word, least first.
#[tactic(auto, using(crate::proofs::ByteLaws::word_is))]
fn word_bytes(value: u64) -> [u8; 8]
    ensures { result ≡ word value }
{
    value.to_le_bytes()
}

// Stores a word at index `at`, least byte first.
pub fn store_word(mem: &mut [u8], at: usize, value: u64)
    requires { at + 8 ≤ length mem.old }
    ensures { mem.new ≡ put mem.old at (word value) }
{
    mem[at..at + 8].copy_from_slice(&word_bytes(value));
}

// Stores a message at index `to`: the header's words, and then the n bytes that were at index `from`. The payload is moved
// first, so that it is read whole before the header is stored.
pub fn store_message(
    mem: &mut [u8],
    to: usize,
    first: u64,
    rlabel: u64,
    label: u64,
    from: usize,
    n: usize,
)
    requires { (from + n ≤ length mem.old) × (to + 32 + n ≤ length mem.old) }
    ensures { mem.new ≡ put mem.old to (header first rlabel label ++ part mem.old from n) }
{
    move_bytes(mem, from, to + 32, n);
    store_word(mem, to + 24, 0);
    store_word(mem, to + 16, label);
    store_word(mem, to + 8, rlabel);
    store_word(mem, to, first);
}
