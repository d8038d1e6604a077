// The text of a map that is read: each line as three numbers in columns. Not by `{:>10}`: contracts name each byte, and a
// read of a map has a bar of speed.
ghost use Rattle.std.specs.Prelude.{◌≡◌};
ghost use Rattle.prelude.specs.Parts.{fits_at, put_at};
ghost use Rattle.idmap.specs.Show.{column_of, number_text, line_text};

use crate::Line;

// The columns of a number.
const COLUMNS: usize = 10;

// Where the second and the third number of a line start, one space after the number before.
const PARENT_AT: usize = COLUMNS + 1;

const COUNT_AT: usize = PARENT_AT + COLUMNS + 1;

// The bytes of the text of a line, its newline the last.
pub const LINE_BYTES: usize = COUNT_AT + COLUMNS + 1;

// The last column of `v`, blank where nothing of the number is left.
fn column(v: u32) -> u8
    ensures { result ≡ column_of v }
{
    if v == 0 { b' ' } else { b'0' + (v % 10) as u8 }
}

// The number in 10 columns, filled from the right.
fn number_text(n: u32) -> [u8; COLUMNS]
    ensures { result ≡ number_text n }
{
    let mut text = [b' '; COLUMNS];
    text[9] = b'0' + (n % 10) as u8;
    let mut v = n / 10;
    for k in (0..9).rev() {
        text[k] = column(v);
        v = v / 10;
    }
    text
}

// The text of a line: each number right-aligned in 10 columns, one space between, a newline after.
pub fn line_text(l: Line) -> [u8; LINE_BYTES]
    ensures { result ≡ line_text l }
{
    let mut text = [b' '; LINE_BYTES];
    text[..COLUMNS].copy_from_slice(&number_text(l.inside));
    text[PARENT_AT..PARENT_AT + COLUMNS].copy_from_slice(&number_text(l.parent));
    text[COUNT_AT..COUNT_AT + COLUMNS].copy_from_slice(&number_text(l.count));
    text[LINE_BYTES - 1] = b'\n';
    text
}

// Stores the text of a line from place `at` on and answers true. Where it does not fit, nothing changes and it answers
// false.
pub fn put_line(buffer: &mut [u8], at: usize, l: Line) -> bool
    ensures answer { result ≡ fits_at buffer.old at (line_text l) }
    ensures bytes { buffer.new ≡ put_at buffer.old at (line_text l) }
{
    rows::put(buffer, at, &line_text(l))
}
