// Lookups through the lines of one map, which stand in lent words, four to a line.
ghost use Rattle.std.specs.Prelude.{◌≡◌, ◌<◌, true};
ghost use Rattle.idmap.specs.Line.{in_range, line_words, line_of, lines_by, lines_in, kernel_lines_in};
ghost use Rattle.idmap.specs.Lookup.{held_by, lookup_of, out, back};

use crate::{COUNT, INSIDE, KERNEL, LINE_WORDS, Line, LookedUp, PARENT, low};

// Whether `id` is one of the `count` IDs from `start` on.
pub fn in_range(id: u32, start: u32, count: u32) -> bool
    ensures { result ≡ in_range id start count }
{
    id.wrapping_sub(start) < count
}

// The line from one column to another of a line's words. A column is a number, as the definition `line_of` takes it.
fn line_of(row: [u64; LINE_WORDS], from: usize, to: usize) -> Line
    requires { (from < line_words) × (to < line_words) }
    ensures { result ≡ line_of from to row }
{
    Line {
        inside: low(row[from]),
        parent: low(row[to]),
        count: low(row[COUNT]),
    }
}

// What `l` answers for an `id` that it holds.
fn held(l: Line, id: u32) -> LookedUp
    requires { in_range id l.inside l.count ≡ true }
    ensures { result ≡ held_by l id }
{
    let offset = id.wrapping_sub(l.inside);
    LookedUp {
        translated: Some(l.parent.wrapping_add(offset)),
        reach: l.count - offset,
    }
}

// What the first line that holds `id` in one column answers: the ID in the other, and how many IDs, from this one to
// the end of the line, translate by the same offset. Where no line holds `id`, it is unmapped, and there are none.
fn lookup(words: &[u64], id: u32, from: usize, to: usize) -> LookedUp
    requires { (from < line_words) × (to < line_words) }
    ensures { result ≡ lookup_of (lines_by from to words.now) id }
{
    let mut left = words;
    while let [inside, parent, count, kernel, rest @ ..] = left {
        let l = line_of([*inside, *parent, *count, *kernel], from, to);
        if in_range(id, l.inside, l.count) {
            return held(l, id);
        }
        left = rest;
    }
    LookedUp {
        translated: None,
        reach: 0,
    }
}

// The parent's ID for an ID inside, and how far this holds.
pub fn lookup_parent(words: &[u64], id: u32) -> LookedUp
    ensures { result ≡ lookup_of (lines_in words.now) id }
{
    lookup(words, id, INSIDE, PARENT)
}

// The kernel ID for an ID inside, by the kernel starts of the lines. This and the next name their columns, which is all
// that they are. Linux: map_id_down.
#[tactic(auto, unfolding(crate::specs::Lookup::out))]
pub fn lookup_kernel(words: &[u64], id: u32) -> Option<u32>
    ensures { result ≡ out (kernel_lines_in words.now) id }
{
    lookup(words, id, INSIDE, KERNEL).translated
}

// The ID inside for a kernel ID, by the kernel starts of the lines. Linux: map_id_up.
pub fn lookup_inside(words: &[u64], id: u32) -> Option<u32>
    ensures { result ≡ back (kernel_lines_in words.now) id }
{
    lookup(words, id, KERNEL, INSIDE).translated
}
