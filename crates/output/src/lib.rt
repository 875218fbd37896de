// Output to a writer that the caller lends: a buffered standard output, a file or a `Vec<u8>`. Each function says which bytes
// it appends; an error is the writer's own.
#![tactic(auto)]

ghost use Rattle.std.specs.Prelude.{◌≡◌, ◌-◌, [], ◌∷◌, ◌++◌, length, OnOk, replicate};
ghost use Rattle.std.specs.Fmt.{decimal as decimal_text};
ghost use Rattle.std.specs.Io.KnownBytes.{Keeps, Appends};
ghost use Rattle.output.specs.Columns.{hex_text};

use std::io::{self, Write};

// These stand over the writer's methods for their clauses, which say which bytes are appended; tests and an edit speak of them.
// Hands on what the writer still holds back.
pub fn flush<W: Write>(out: &mut W) -> io::Result<()>
    ensures { OnOk result (Keeps (W.contents out.old) (W.contents out.new)) }
{
    out.flush()
}

pub fn byte<W: Write>(out: &mut W, b: u8) -> io::Result<()>
    ensures { OnOk result (Appends (W.contents out.old) (W.contents out.new) (b ∷ [])) }
{
    out.write_all(&[b])
}

pub fn text<W: Write>(out: &mut W, t: &[u8]) -> io::Result<()>
    ensures { OnOk result (Appends (W.contents out.old) (W.contents out.new) t.now) }
{
    out.write_all(t)
}

// `k` blanks.
pub fn blanks<W: Write>(out: &mut W, k: usize) -> io::Result<()>
    ensures { OnOk result (Appends (W.contents out.old) (W.contents out.new) (replicate k 32)) }
{
    for _ in 0..k {
        byte(out, b' ')?;
    }
    Ok(())
}

// `t`, with blanks after it up to `width`.
pub fn left<W: Write>(out: &mut W, t: &[u8], width: usize) -> io::Result<()>
    ensures { OnOk result (Appends (W.contents out.old) (W.contents out.new)
        (t.now ++ replicate (width - length t.now) 32)) }
{
    text(out, t)?;
    blanks(out, width.saturating_sub(t.len()))
}

// `t`, with blanks before it up to `width`.
pub fn right<W: Write>(out: &mut W, t: &[u8], width: usize) -> io::Result<()>
    ensures { OnOk result (Appends (W.contents out.old) (W.contents out.new)
        (replicate (width - length t.now) 32 ++ t.now)) }
{
    blanks(out, width.saturating_sub(t.len()))?;
    text(out, t)
}

// A number in decimal, with blanks before it up to `width`.
#[tactic(auto, using(crate::proofs::Padding::right_aligned_decimal))]
pub fn decimal<W: Write>(out: &mut W, v: u64, width: usize) -> io::Result<()>
    ensures { OnOk result (Appends (W.contents out.old) (W.contents out.new)
        (replicate (width - length (decimal_text v)) 32 ++ decimal_text v)) }
{
    write!(out, "{v:>width$}")
}

// A number in hexadecimal, of `digits` digits at least: zeros stand before it.
#[tactic(auto, using(crate::proofs::Padding::zero_padded))]
pub fn hex<W: Write>(out: &mut W, v: u64, digits: usize) -> io::Result<()>
    ensures { OnOk result (Appends (W.contents out.old) (W.contents out.new)
        (replicate (digits - length (hex_text v)) 48 ++ hex_text v)) }
{
    write!(out, "{v:0digits$x}")
}

#[cfg(test)]
mod tests {
    use super::*;
    use std::test::Fail;

    #[test]
    fn columns(rt: HostRuntime) -> Result<(), Fail> {
        let mut out: Vec<u8> = Vec::new(rt.alloc());
        left(&mut out, b"ab", 4)?;
        byte(&mut out, b'|')?;
        right(&mut out, b"ab", 4)?;
        byte(&mut out, b'|')?;
        decimal(&mut out, 307, 5)?;
        byte(&mut out, b'|')?;
        decimal(&mut out, 307, 0)?;
        text(&mut out, b"|0x")?;
        hex(&mut out, 255, 4)?;
        byte(&mut out, b'|')?;
        hex(&mut out, 0, 1)?;
        blanks(&mut out, 2)?;
        flush(&mut out)?;
        assert_eq!(rt;
            out.as_slice(),
            b"ab  |  ab|  307|307|0x00ff|0  ".as_slice()
        );
        Ok(())
    }
}
