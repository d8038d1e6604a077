// ID maps: their lines, the lookups through them, the tests of a map that is to be written, and the text of a map.
// User and group maps use the same code. Nothing here knows a table, a process or a namespace.
#![tactic(auto)]

ghost use Rattle.std.specs.Prelude.{◌≡◌, ◌%◌, ◌^◌, take};

pub mod lookup;
pub mod overlap;
pub mod range;
pub mod show;
pub mod text;

// The most lines that a map has.
pub const MAX_LINES: usize = 5;

// The words that a line is kept in: where its inside starts, where its parent side starts, how many IDs it has, and the
// kernel ID where its parent side starts.
pub const LINE_WORDS: usize = 4;

pub const INSIDE: usize = 0;

pub const PARENT: usize = INSIDE + 1;

pub const COUNT: usize = PARENT + 1;

pub const KERNEL: usize = COUNT + 1;

// The most bytes that the text of a map has.
pub const MAX_TEXT_BYTES: usize = 4095;

// IDs are 32-bit: a word keeps one in its low 32 bits, which are the rest by this.
pub const TWO_TO_32: u64 = 4294967296;

// The value that means 'no ID' and is never mapped.
pub const NO_ID: u32 = 4294967295;

// What a process is shown for an ID that has no translation into its namespace. Linux: overflowuid, overflowgid.
pub const OVERFLOW_ID: u32 = 65534;

// A line of a map: `count` IDs from `inside` on stand for those from `parent` on in the parent namespace.
#[derive(Clone, Copy)]
pub struct Line {
    pub inside: u32,
    pub parent: u32,
    pub count: u32,
}

// A line of no IDs.
pub const NO_LINE: Line = Line {
    inside: 0,
    parent: 0,
    count: 0,
};

// The lines of a map: the first `count`, and empty ones past them. An array with its count, since a map keeps both as
// they stand here, and the definition `map_text` says of all five lines what they are.
#[derive(Clone, Copy)]
pub struct MapLines {
    pub count: usize,
    pub lines: [Line; MAX_LINES],
}

impl MapLines {
    pub fn as_slice(&self) -> &[Line]
        ensures { result.now ≡ take self.now.count self.now.lines }
    {
        &self.lines[..self.count.min(MAX_LINES)]
    }
}

// What a lookup answers: what the ID becomes, if a line holds it, and how many IDs, from this one to the end of its
// line, translate by the same offset. Where the ID is unmapped there are none: the count is told in both cases, so it
// stands beside the ID and not within it.
#[derive(Clone, Copy)]
pub struct LookedUp {
    pub translated: Option<u32>,
    pub reach: u32,
}

// The ID that a word keeps.
pub fn low(word: u64) -> u32
    ensures { result ≡ word % 2 ^ 32 }
{
    (word % TWO_TO_32) as u32
}
