// The text of a map that is to be written: lines of three decimal numbers. Texts are read from a place on, as the
// definitions of specs/Scan.antt have it. `map_reader` reads them too, apart from this, so that what was checked of this
// reader stands: docs/DECISIONS.md.
ghost use Rattle.std.specs.Prelude.{◌≡◌, ◌≤◌};
ghost use Rattle.idmap.specs.Good.{no_id};
ghost use Rattle.idmap.specs.Text.{is_blank, is_digit, map_lines, map_text};
ghost use Rattle.idmap.specs.Scan.{skipped, ended, number_at, field_at, line_end, scan_line};

use super::overlap::good;
use crate::{Line, MAX_LINES, MapLines, NO_ID, NO_LINE};

// No method of bytes has just these two.
fn is_blank(c: u8) -> bool
    ensures { result ≡ is_blank c }
{
    c == b' ' || c == b'\t'
}

fn is_digit(c: u8) -> bool
    ensures { result ≡ is_digit c }
{
    c.is_ascii_digit()
}

// Where the blanks from `at` on end. It steps a cursor, as `digits` does: a `for` over the places keeps up to five
// counters, which are half as many instructions again for each byte of a long text.
fn skip(s: &[u8], at: usize) -> usize
    ensures { result ≡ skipped s.now at }
{
    let mut end = at;
    while end < s.len() && is_blank(s[end]) {
        end += 1;
    }
    end
}

// The number `v`, read from `at` to `end`, and where it ends. While it is read it is wider, for one digit more.
#[tactic(auto, unfolding(crate::specs::Scan::ended))]
fn made(at: usize, end: usize, v: u64) -> Option<(u32, usize)>
    requires { v ≤ no_id }
    ensures { result ≡ ended at end v }
{
    if end == at {
        None
    } else {
        Some((v as u32, end))
    }
}

// The number that starts at `at`.
fn digits(s: &[u8], at: usize) -> Option<(u32, usize)>
    ensures { result ≡ number_at s.now at }
{
    // Wider than a number, so that one digit more has room.
    let mut v: u64 = 0;
    let mut end = at;
    while end < s.len() && is_digit(s[end]) {
        v = v * 10 + (s[end] - b'0') as u64;
        if (NO_ID as u64) < v {
            return None;
        }
        end += 1;
    }
    made(at, end, v)
}

// The number after any blanks.
#[tactic(auto, unfolding(crate::specs::Scan::field_at))]
fn field(s: &[u8], at: usize) -> Option<(u32, usize)>
    ensures { result ≡ field_at s.now at }
{
    digits(s, skip(s, at))
}

// The line `l` and how many bytes it takes, if it ends at `e`.
#[tactic(auto, unfolding(crate::specs::Scan::line_end))]
fn line_end(s: &[u8], e: usize, l: Line) -> Option<(Line, usize)>
    ensures { result ≡ line_end s.now e l }
{
    if s.len() <= e {
        Some((l, e))
    } else if s[e] == b'\n' {
        Some((l, e + 1))
    } else {
        None
    }
}

// The line at the front of `s`, which is the part of a text that starts after the last newline read, and how many bytes
// it takes.
#[tactic(auto, unfolding(crate::specs::Scan::scan_line))]
fn parse_line(s: &[u8]) -> Option<(Line, usize)>
    ensures { result ≡ scan_line s.now }
{
    let (inside, p) = field(s, 0)?;
    let (parent, q) = field(s, p)?;
    let (count, e) = field(s, q)?;
    line_end(
        s,
        skip(s, e),
        Line {
            inside,
            parent,
            count,
        },
    )
}

// The lines that a text says, if it is the text of a good map. They are counted, since a text tells only at its end how
// many it has.
pub fn parse_map(text: &[u8]) -> Option<MapLines>
    ensures { result ≡ map_text (map_lines text.now) }
{
    let mut lines = [NO_LINE; MAX_LINES];
    let mut count: usize = 0;
    let mut rest = text;
    while !rest.is_empty() {
        if count == MAX_LINES {
            return None;
        }
        let (l, used) = parse_line(rest)?;
        lines[count] = l;
        count += 1;
        rest = &rest[used..];
    }
    if count == 0 || !good(&lines[..count]) {
        return None;
    }
    Some(MapLines { count, lines })
}
