// A line of a script: what it is, with what it lends to its call.
ghost use Rattle.std.specs.Prelude.{◌≡◌, ◌↔◌, ◌≤◌, ◌<◌, [], length, IsOk, IsErr, IfOk};

use crate::words::{Words, number};
use crate::{commands, texts};
use arrayvec::{ArrayVec, CapacityError};
use calls::Call;
use std::num::TryFromIntError;

// The room for a line, and for a text on it. A longer line is malformed.
pub const MAX_LINE: usize = 65536;

// The most IDs on a line of groups.
pub const MAX_LIST: usize = 1000;

// The greatest length of a read's buffer.
pub const MAX_BUFFER: usize = 65536;

// The most numbers of a line that is not one of groups.
const MAX_NUMBERS: usize = 4;

// That a line has none of the forms.
#[derive(Clone, Copy, Debug)]
pub struct Malformed;

// A number that is too large for its type.
impl From<TryFromIntError> for Malformed {
    fn from(_error: TryFromIntError) -> Malformed {
        Malformed
    }
}

// More on a line than there is room for.
impl<T: Drop> From<CapacityError<T>> for Malformed {
    fn from(_error: CapacityError<T>) -> Malformed {
        Malformed
    }
}

// How long the buffer of a read is.
#[derive(Clone, Copy)]
pub struct BufferLength {
    pub bytes: usize,
    pub ghost bounded: { bytes ≤ 65536 },
}

impl TryFrom<u64> for BufferLength {
    type Error = Malformed;

    fn try_from(length: u64) -> Result<BufferLength, Malformed>
        ensures fits { IsOk result ↔ (length ≤ 65536) }
        ensures kept { IfOk result (λ l. l.bytes ≡ length) }
    {
        if length <= MAX_BUFFER as u64 {
            Ok(BufferLength {
                bytes: length as usize,
            })
        } else {
            Err(Malformed)
        }
    }
}

// What a line lends to its call: a text and a list, which are empty where it has none, and how long the buffer of a
// read is, which is bounded, or missing. A record of a journal has any number for it.
#[derive(Clone, Copy)]
pub struct Lent<'a> {
    pub text: &'a [u8],
    pub list: &'a [u32],
    pub buffer: Option<BufferLength>,
}

const NOTHING: Lent<'static> = Lent {
    text: &[],
    list: &[],
    buffer: None,
};

// What a line is: nothing to do, a fresh start, or a call.
#[derive(Clone, Copy)]
pub enum Line<'a> {
    Blank,
    Fresh,
    Call(Call, Lent<'a>),
}

// What stands on a line before its first quote, and what stands behind that, if it has one. A quote within a word makes
// the line malformed.
fn split_quoted(line: &[u8]) -> Result<(&[u8], Option<&[u8]>), Malformed> {
    let Some(at) = line.iter().position(|b| *b == b'"') else {
        return Ok((line, None));
    };
    let before = &line[..at];
    match before {
        [] | [.., b' '] => Ok((before, Some(&line[at + 1..]))),
        _ => Err(Malformed),
    }
}

// The numbers that the words of a line are.
fn read_numbers(words: Words<'_>) -> Result<ArrayVec<u64, MAX_NUMBERS>, Malformed> {
    let mut numbers = ArrayVec::new();
    for word in words {
        numbers.try_push(number(word)?)?;
    }
    Ok(numbers)
}

// A line of a call whose arguments are numbers.
fn numbers_line(word: &[u8], words: Words<'_>) -> Result<Line<'static>, Malformed> {
    let numbers = read_numbers(words)?;
    if let Some(call) = commands::plain_call(word, numbers.as_slice()) {
        return Ok(Line::Call(call, NOTHING));
    }
    let (call, length) = commands::read_call(word, numbers.as_slice()).ok_or(Malformed)?;
    let lent = Lent {
        buffer: Some(BufferLength::try_from(length)?),
        ..NOTHING
    };
    Ok(Line::Call(call, lent))
}

fn fresh_line(mut words: Words<'_>) -> Result<Line<'static>, Malformed> {
    match words.next() {
        None => Ok(Line::Fresh),
        Some(_) => Err(Malformed),
    }
}

// Parses lines. It holds the text and the list of the last one.
#[derive(Drop)]
pub struct Parser {
    text: ArrayVec<u8, MAX_LINE>,
    list: ArrayVec<u32, MAX_LIST>,
}

impl Parser {
    // One that holds nothing.
    pub fn new() -> Parser
        ensures { (result.text.items ≡ []) × (result.list.items ≡ []) }
    {
        Parser {
            text: ArrayVec::new(),
            list: ArrayVec::new(),
        }
    }

    // A line whose last argument is a text.
    fn text_line(
        &mut self,
        word: &[u8],
        words: Words<'_>,
        quoted: &[u8],
    ) -> Result<Line<'_>, Malformed> {
        let numbers = read_numbers(words)?;
        let call = commands::write_call(word, numbers.as_slice()).ok_or(Malformed)?;
        texts::read_text(quoted, &mut self.text)?;
        let lent = Lent {
            text: self.text.as_slice(),
            ..NOTHING
        };
        Ok(Line::Call(call, lent))
    }

    // A line of groups.
    fn groups_line(&mut self, mut words: Words<'_>) -> Result<Line<'_>, Malformed> {
        let caller = number(words.next().ok_or(Malformed)?)?;
        self.list.clear();
        for word in words {
            let id = u32::try_from(number(word)?)?;
            self.list.try_push(id)?;
        }
        let lent = Lent {
            list: self.list.as_slice(),
            ..NOTHING
        };
        Ok(Line::Call(Call::SetGroups(caller), lent))
    }

    // What a line is.
    pub fn parse(&mut self, line: &[u8]) -> Result<Line<'_>, Malformed>
        ensures { 65536 < length line.now → IsErr result }
    {
        if line.len() > MAX_LINE {
            return Err(Malformed);
        }
        if line.starts_with(b"#") {
            return Ok(Line::Blank);
        }
        let (before, quoted) = split_quoted(line)?;
        let mut words = Words(before);
        let Some(word) = words.next() else {
            return match quoted {
                None => Ok(Line::Blank),
                Some(_) => Err(Malformed),
            };
        };
        if let Some(quoted) = quoted {
            return self.text_line(word, words, quoted);
        }
        match word {
            b"fresh" => fresh_line(words),
            b"setgroups" => self.groups_line(words),
            _ => numbers_line(word, words),
        }
    }
}
