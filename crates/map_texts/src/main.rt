// Runs texts of maps through the reader and writes what each gives: the text in quotes, and then its lines as a read of
// the map shows them, or that it is no map's text.
#![tactic(auto)]

use idmap::Line;
use idmap::text::parse_map;
use std::io::Write;
use std::{fmt, io};

// A text in quotes: a newline, a tab and what is not printable as an escape. `script` has another form, in which a quote
// and a backslash are escapes too, and stands above crates that are not needed here.
#[derive(Clone, Copy)]
struct Quoted<'a>(&'a [u8]);

impl fmt::Display for Quoted<'_> {
    fn fmt<W: fmt::Write>(&self, f: &mut fmt::Formatter<W>) -> fmt::Result {
        f.write_str("\"")?;
        for b in self.0 {
            match *b {
                b'\n' => f.write_str("\\n")?,
                b'\t' => f.write_str("\\t")?,
                b' '..=b'~' => f.write_char(char::from(*b))?,
                _ => write!(f, "\\x{b:02x}")?,
            }
        }
        f.write_str("\"")
    }
}

// Writes lines, whose texts are bytes already.
fn print_lines<W: Write>(to: &mut W, lines: &[Line]) -> io::Result<()> {
    for line in lines {
        to.write_all(&idmap::show::line_text(*line))?;
    }
    Ok(())
}

fn show<W: Write>(to: &mut W, text: &[u8]) -> io::Result<()> {
    writeln!(to, "{}", Quoted(text))?;
    match parse_map(text) {
        Some(lines) => print_lines(to, lines.as_slice()),
        None => to.write_all(b"bad\n"),
    }
}

// The texts of document 01's bench runs.
const SCENARIOS: &[&[u8]] = &[
    b"0 1000 1",
    b"0 1000 2",
    b"5 1001 1",
    b"0 100000 65536",
    b"0 0 4294967295",
    b"1 0 4294967295",
    b"0 4294967295 1",
    b"0 1000 0",
    b"0 100000 10\n10 100010 5",
    b"0 100000 10\n5 200000 10",
    b"0 100000 10\n20 100009 5",
    b"0 10 1\n1 20 1\n2 30 1\n3 40 1\n4 50 1\n",
    b"0 10 1\n1 20 1\n2 30 1\n3 40 1\n4 50 1\n5 60 1\n",
    b"",
    b"0 1000 1\n\n",
];

// Spaces and tabs: one or more between the numbers, any before and after.
const BLANKS: &[&[u8]] = &[
    b"0 1000 1\n",
    b"   0 1000 1",
    b"0 1000 1   ",
    b"0 1000 1 \t \n",
    b"\t0\t1000\t1\t",
    b"0 \t  1000\t \t1",
    b"\t 0 10 1\n  1 20 1\t",
    b" ",
    b"\t\n",
    b"0 10001",
    b"010001",
];

// Numbers: leading zeros, the largest value, sums at their bound, digits without end.
const NUMBERS: &[&[u8]] = &[
    b"0000000000000000000000000000000 1000 1",
    b"0 00001000 01",
    b"0 0 00000000000000000004294967295",
    b"0 1000 4294966295",
    b"0 1000 4294966296",
    b"1000 0 4294966295",
    b"1000 0 4294966296",
    b"4294967294 0 1",
    b"4294967294 0 2",
    b"4294967295 0 1",
    b"0 4294967294 1",
    b"0 0 4294967296",
    b"4294967296 0 1",
    b"0 4294967296 1",
    b"0 18446744073709551616 1",
    b"0 18446744073709552616 1",
    b"0 0 99999999999999999999999999999999999999999999",
    b"0 0 00",
];

// The shape of a line: three numbers and nothing else.
const SHAPES: &[&[u8]] = &[
    b"0",
    b"0 1000",
    b"0 1000 ",
    b"0 1000 1 1",
    b"0 1000 1 x",
    b"\n",
    b"\n0 1000 1",
    b"0 1000 1\n \n",
    b"0 1000 1\n\n1 2000 1",
    b"0\n1000 1",
    b"0 1000\n1",
    b"0 10 1\n1 20 1\n",
    b"0 10 1\n1 20",
];

// Any other byte.
const BYTES: &[&[u8]] = &[
    b"a 1000 1",
    b"0 1000 1c",
    b"0x0 1000 1",
    b"+0 1000 1",
    b"-1 1000 1",
    b"0,1000,1",
    b"0 1000 1;",
    b"0 1000 1\r\n",
    b"0 1000 1\x00",
    b"0\x0b1000 1",
    b"0 1000\xa01",
    b"\xff0 1000 1",
    b"0 1000 1/",
    b"0 1000 1:",
];

// Lines that touch, and lines that overlap, on each side.
const OVERLAPS: &[&[u8]] = &[
    b"0 100 10\n10 200 10",
    b"10 100 10\n0 110 10",
    b"0 100 10\n9 200 1",
    b"9 200 1\n0 100 10",
    b"0 100 10\n10 109 1",
    b"0 100 10\n10 99 2",
    b"0 100 10\n10 99 1",
    b"0 100 10\n2 300 3",
    b"2 300 3\n0 100 10",
    b"0 100 10\n20 103 2",
    b"0 100 10\n0 100 10",
    b"0 10 1\n1 20 1\n2 30 1\n3 40 1\n0 50 1",
    b"0 10 1\n1 20 1\n2 30 1\n3 40 1\n4 10 1",
    b"0 10 1\n1 20 1\n2 30 1\n3 40 1\n3 50 1",
];

// How many lines: five, six, and what stands after the fifth.
const COUNTS: &[&[u8]] = &[
    b"4 50 1\n3 40 1\n2 30 1\n1 20 1\n0 10 1",
    b"0 10 1\n1 20 1\n2 30 1\n3 40 1\n4 50 1\n\n",
    b"0 10 1\n1 20 1\n2 30 1\n3 40 1\n4 50 1\n ",
    b"0 10 1\n1 20 1\n2 30 1\n3 40 1\n4 50 1\nx",
    b"0 10 1\n1 20 1\n2 30 1\n3 40 1\n4 50 1\n5 60 1",
];

fn main(rt: HostRuntime) -> io::Result<()> {
    let mut to = rt.stdout();
    for texts in [SCENARIOS, BLANKS, NUMBERS, SHAPES, BYTES, OVERLAPS, COUNTS] {
        for text in texts {
            show(&mut to, text)?;
        }
    }
    Ok(())
}
