// Reads a whole input into a lent slice.
#![tactic(auto)]

ghost use Rattle.input.specs.Whole.{IsWhole, EndsOr};

use std::io::Read;

// Why an input was not read whole.
#[derive(Clone, Copy, Debug, PartialEq, Eq)]
pub enum InputError {
    // The slice is full, and more is there.
    TooLong,
    Failed,
}

// Whether the input ends where the slice is full with `n` bytes.
fn at_end<R: Read>(from: &mut R, n: usize) -> Result<usize, InputError>
    ensures { EndsOr (R.remaining from.old) n result }
{
    let mut one = [0u8; 1];
    match from.read(&mut one) {
        Ok(0) => Ok(n),
        Ok(_) => Err(InputError::TooLong),
        Err(_) => Err(InputError::Failed),
    }
}

// Reads to the end of the input: so many bytes stand at the start of the slice. It ends since each turn brings a byte.
// By hand, since it fills a lent slice: the library's readers to the end fill a `Vec`.
pub fn read_all<R: Read>(from: &mut R, s: &mut [u8]) -> Result<usize, InputError>
    ensures { IsWhole (R.remaining from.old) s.new result }
{
    let mut at: usize = 0;
    while at < s.len() {
        match from.read(&mut s[at..]) {
            Ok(0) => {
                return Ok(at);
            }
            Ok(n) => {
                at += n;
            }
            Err(_) => {
                return Err(InputError::Failed);
            }
        }
    }
    at_end(from, at)
}

#[cfg(test)]
mod tests {
    use super::*;
    use std::io::{self, ErrorKind};

    // A reader that fails at its second read.
    #[derive(Drop)]
    struct Breaks(bool);

    impl Read for Breaks {
        fn read(&mut self, buf: &mut [u8]) -> io::Result<usize> {
            if self.0 || buf.is_empty() {
                return Err(io::Error::from(ErrorKind::Other));
            }
            self.0 = true;
            buf[0] = b'a';
            Ok(1)
        }
    }

    #[test]
    fn whole_inputs(rt: HostRuntime) {
        let mut s = [0u8; 4];
        for (given, want) in [
            (b"".as_slice(), 0),
            (b"abc".as_slice(), 3),
            (b"abcd".as_slice(), 4),
        ] {
            let mut from = given;
            match read_all(&mut from, &mut s) {
                Ok(n) => assert_eq!(rt; n, want),
                _ => panic!(rt; "not read"),
            }
        }
        assert_eq!(rt; s.as_slice(), b"abcd".as_slice());
    }

    #[test]
    fn too_long(rt: HostRuntime) {
        let mut s = [0u8; 4];
        let mut from = b"abcde".as_slice();
        assert!(rt; matches!(read_all(&mut from, &mut s), Err(InputError::TooLong)));
    }

    #[test]
    fn failing(rt: HostRuntime) {
        let mut s = [0u8; 4];
        assert!(rt;
            matches!(
                read_all(&mut Breaks(false), &mut s),
                Err(InputError::Failed)
            )
        );
    }
}
