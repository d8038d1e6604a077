// The text of a map that is to be written: lines of three decimal numbers. Each byte is read once, by `see`, which
// counts it. `idmap` has the reader that the calls use: docs/DECISIONS.md.
ghost use Rattle.std.specs.Prelude.{◌≡◌, ◌≤◌};
ghost use Rattle.idmap.specs.Text.{is_blank, is_digit, map_lines, map_text};
ghost use Rattle.idmap.specs.Scan.{skipped};
ghost use Rattle.map_reader.specs.Scan.{see_of, seen_at, number_at, field_at, scan_line, text_read};

use idmap::overlap::good;
use idmap::{Line, MAX_LINES, MapLines, NO_ID, NO_LINE};

// The lines that a text says, if it is the text of a good map, and how many bytes were read of it.
#[derive(Clone, Copy)]
pub struct TextRead {
    pub map: Option<MapLines>,
    pub bytes: usize,
}

// A byte, where it stands, and how many bytes were read up to it. The text's end is seen as a newline.
// A struct of this and the text, with `from ≡ seen_at s.now from.at` as its invariant, is proved but slower by a
// quarter: no longer one and a half times as fast as the reader of `idmap`, which is what this one is for.
#[derive(Clone, Copy)]
struct Seen {
    byte: u64,
    at: usize,
    bytes: usize,
}

// Bytes that have a meaning. They are widened as they are read, so that a digit's value needs no further step, which is
// for speed. So the next two functions are not methods of bytes.
const NEWLINE: u64 = b'\n' as u64;

const SPACE: u64 = b' ' as u64;

const TAB: u64 = b'\t' as u64;

const ZERO: u64 = b'0' as u64;

const NINE: u64 = b'9' as u64;

fn is_blank(c: u64) -> bool
    ensures { result ≡ is_blank c }
{
    c == SPACE || c == TAB
}

fn is_digit(c: u64) -> bool
    ensures { result ≡ is_digit c }
{
    ZERO <= c && c <= NINE
}

// Reads the byte at `at`, after so many bytes, and counts it. Nothing else reads a text.
#[tactic(auto, unfolding(crate::specs::Scan::see_of, crate::specs::Scan::byte_at))]
fn see(s: &[u8], at: usize, bytes: usize) -> Seen
    requires { bytes ≤ at }
    ensures { result ≡ see_of s.now at bytes }
{
    if at < s.len() {
        Seen {
            byte: s[at] as u64,
            at,
            bytes: bytes + 1,
        }
    } else {
        Seen {
            byte: NEWLINE,
            at,
            bytes,
        }
    }
}

// The first byte from `from` on that is no blank.
fn skip(s: &[u8], from: Seen) -> Seen
    requires { from ≡ seen_at s.now from.at }
    ensures { result ≡ seen_at s.now (skipped s.now from.at) }
{
    let mut c = from;
    // There is no index beside the byte that is seen: it is one that was read and counted.
    while is_blank(c.byte) {
        c = see(s, c.at + 1, c.bytes);
    }
    c
}

// The number that starts with `first`, and the first byte after it; where there is none, the byte that shows it.
fn digits(s: &[u8], first: Seen) -> Result<(u32, Seen), Seen>
    requires { first ≡ seen_at s.now first.at }
    ensures { result ≡ number_at s.now first.at }
{
    let mut c = first;
    let mut v: u64 = 0;
    // As in `skip`.
    while is_digit(c.byte) {
        v = v * 10 + (c.byte - ZERO);
        if (NO_ID as u64) < v {
            return Err(c);
        }
        c = see(s, c.at + 1, c.bytes);
    }
    if c.at == first.at {
        return Err(c);
    }
    Ok((v as u32, c))
}

// The number after any blanks.
#[tactic(auto, using(crate::proofs::Scans::skipped_seen, crate::proofs::Scans::field_is))]
fn field(s: &[u8], from: Seen) -> Result<(u32, Seen), Seen>
    requires { from ≡ seen_at s.now from.at }
    ensures { result ≡ field_at s.now from.at }
{
    digits(s, skip(s, from))
}

// The line at the front of `s`, which is the part of a text that starts after the last newline read, and the byte that
// ends it; where there is none, the byte that shows it.
#[tactic(auto, using(crate::proofs::Scans::see_first, crate::proofs::Scans::field_seen), unfolding(crate::specs::Scan::see_of, crate::specs::Scan::scan_line, crate::specs::Scan::line_end))]
fn parse_line(s: &[u8]) -> Result<(Line, Seen), Seen>
    ensures { result ≡ scan_line s.now }
{
    let (inside, p) = field(s, see(s, 0, 0))?;
    let (parent, q) = field(s, p)?;
    let (count, r) = field(s, q)?;
    let end = skip(s, r);
    if end.byte != NEWLINE {
        return Err(end);
    }
    Ok((
        Line {
            inside,
            parent,
            count,
        },
        end,
    ))
}

// The lines that a text says, if it is the text of a good map, and how many bytes were read: all of a good text, and
// never more than there are. Each line is read from what those before it left over, and they are counted, since a text
// tells only at its end how many it has.
pub fn read_text(text: &[u8]) -> TextRead
    ensures { result ≡ text_read text.now }
{
    let mut lines = [NO_LINE; MAX_LINES];
    let mut count: usize = 0;
    let mut bytes: usize = 0;
    let mut rest = text;
    while !rest.is_empty() {
        if count == MAX_LINES {
            return TextRead { map: None, bytes };
        }
        match parse_line(rest) {
            Ok((l, end)) => {
                lines[count] = l;
                count += 1;
                bytes += end.bytes;
                rest = &rest[end.bytes..];
            }
            Err(c) => {
                return TextRead {
                    map: None,
                    bytes: bytes + c.bytes,
                };
            }
        }
    }
    let map = if count == 0 || !good(&lines[..count]) {
        None
    } else {
        Some(MapLines { count, lines })
    };
    TextRead { map, bytes }
}

// The lines alone.
#[tactic(auto, unfolding(crate::specs::Scan::text_read))]
pub fn parse_map(text: &[u8]) -> Option<MapLines>
    ensures { result ≡ map_text (map_lines text.now) }
{
    read_text(text).map
}
