// The words of a line, with spaces between, and the numbers that they are.
ghost use Rattle.std.specs.Prelude.{◌≤◌, length};
ghost use Rattle.std.specs.Iterator.{at_most};

use crate::lines::Malformed;

// The words of what is left of a line.
#[derive(Drop)]
pub struct Words<'a>(pub &'a [u8]);

impl<'a> Iterator for Words<'a> {
    type Item = &'a [u8];

    ghost remaining = { λ words. at_most (length words.0.now) };

    fn next(&mut self) -> Option<&'a [u8]> {
        let left = self.0;
        let start = left.iter().position(|b| *b != b' ')?;
        let from = &left[start..];
        let end = from.iter().position(|b| *b == b' ').unwrap_or(from.len());
        let (word, rest) = from.split_at(end);
        self.0 = rest;
        Some(word)
    }
}

// The number that digits of a base give, of which there is at least one, if it fits in 64 bits.
pub(crate) fn in_base(digits: &[u8], base: u32) -> Option<u64>
    requires { (2 ≤ base) × (base ≤ 36) }
{
    if digits.is_empty() {
        return None;
    }
    digits.iter().try_fold(0u64, |value, b| {
        let digit = char::from(*b).to_digit(base)?;
        value
            .checked_mul(u64::from(base))?
            .checked_add(u64::from(digit))
    })
}

// A number is decimal, or hexadecimal after 0x, and fits in 64 bits.
pub fn number(word: &[u8]) -> Result<u64, Malformed> {
    let value = match word {
        [b'0', b'x', digits @ ..] => in_base(digits, 16),
        digits => in_base(digits, 10),
    };
    value.ok_or(Malformed)
}
