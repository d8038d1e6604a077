// A text in double quotes, with its escapes.
ghost use Rattle.std.specs.Prelude.{◌<◌, length, IfOk};

use crate::lines::{MAX_LINE, Malformed};
use crate::words::in_base;
use arrayvec::ArrayVec;

// The byte that two hexadecimal digits give.
fn by_number(high: u8, low: u8) -> Result<u8, Malformed> {
    let n = in_base(&[high, low], 16).ok_or(Malformed)?;
    Ok(u8::try_from(n)?)
}

// The first byte of a text that does not end, and what stands behind it.
fn first_byte(quoted: &[u8]) -> Result<(u8, &[u8]), Malformed>
    ensures { IfOk result (λ first. length first.1.now < length quoted.now) }
{
    match quoted {
        [b'\\', b'n', rest @ ..] => Ok((b'\n', rest)),
        [b'\\', b't', rest @ ..] => Ok((b'\t', rest)),
        [b'\\', b'x', high, low, rest @ ..] => Ok((by_number(*high, *low)?, rest)),
        [b'\\', b @ (b'\\' | b'"'), rest @ ..] => Ok((*b, rest)),
        [b'\\', ..] | [] => Err(Malformed),
        [b, rest @ ..] => Ok((*b, rest)),
    }
}

// Reads the text that stands behind an opening quote. After its closing quote it has spaces or nothing, up to the
// line's end.
pub fn read_text(quoted: &[u8], text: &mut ArrayVec<u8, MAX_LINE>) -> Result<(), Malformed> {
    text.clear();
    let mut left = quoted;
    while !left.starts_with(b"\"") {
        let (b, rest) = first_byte(left)?;
        text.try_push(b)?;
        left = rest;
    }
    if left[1..].iter().all(|b| *b == b' ') {
        Ok(())
    } else {
        Err(Malformed)
    }
}
