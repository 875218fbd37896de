// A number of a script: decimal, or hexadecimal after 0x.
ghost use Rattle.std.specs.Prelude.{◌≤◌};

#[derive(Clone, Copy, Debug, PartialEq, Eq)]
pub enum NumberError {
    // Above 2^64 - 1.
    TooBig,
    // Some byte is no digit.
    NotNumber,
}

// The number that digits say in a base. A byte that is no digit is told before a size that does not fit, wherever it stands.
fn in_base(digits: &[u8], base: u32) -> Result<u64, NumberError>
    requires { (2 ≤ base) × (base ≤ 36) }
{
    let mut value = Some(0u64);
    for b in digits {
        let digit = char::from(*b).to_digit(base).ok_or(NumberError::NotNumber)?;
        value = value
            .and_then(|v| v.checked_mul(u64::from(base)))
            .and_then(|v| v.checked_add(u64::from(digit)));
    }
    value.ok_or(NumberError::TooBig)
}

// The number that a word says. After `0x` alone there is no digit, so the `x` is one that does not belong.
pub fn read(word: &[u8]) -> Result<u64, NumberError> {
    match word {
        [b'0', b'x', digits @ ..] if !digits.is_empty() => in_base(digits, 16),
        _ => in_base(word, 10),
    }
}
