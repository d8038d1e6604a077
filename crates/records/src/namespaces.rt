// A namespace and its row of words, and the words of a map in it. They become one another by functions and not by From:
// as for a process.
ghost use Rattle.std.specs.Prelude.{◌≡◌, ◌+◌, ◌*◌, ◌<◌, ◌≤◌, take, drop, length};
ghost use Rattle.idmap.specs.Good.{max_lines};
ghost use Rattle.idmap.specs.Line.{line_words, inside_column, parent_column, kernel_column, line_of, line_at};
ghost use Rattle.records.specs.Records.{low_at, starts_in, starts_from, Cleared, unmapped, state_of, first_line_at, map_width, map_at, map_of, map_from, LinesOf, free_map, free_namespace, namespace_width, namespace_of, namespace_from};

use crate::kinds::by_kind;
use crate::{IdMap, Kind, MapState, Namespace};
use idmap::{LINE_WORDS, Line, MAX_LINES, NO_LINE, low};
use std::array;

// Where the parts of a map stand among its words.
const STATE: usize = 0;

const COUNT: usize = STATE + 1;

const LINES: usize = COUNT + 1;

// The first word of a map that is written.
const WRITTEN: u64 = 1;

// The words of as many lines as there may be.
const LINES_WIDTH: usize = LINE_WORDS * MAX_LINES;

// The words of a map.
pub const MAP_WIDTH: usize = LINES + LINES_WIDTH;

// Where the parts of a namespace stand in its row.
const LIVE: usize = 0;

const PARENT: usize = LIVE + 1;

const LEVEL: usize = PARENT + 1;

const OWNER: usize = LEVEL + 1;

const USER_MAP: usize = OWNER + 1;

const GROUP_MAP: usize = USER_MAP + MAP_WIDTH;

pub const DENY: usize = GROUP_MAP + MAP_WIDTH;

// The words of a namespace's row.
pub const NAMESPACE_WIDTH: usize = DENY + 1;

// Where the map of a kind stands in a namespace's row.
pub fn map_at(kind: Kind) -> usize
    ensures { result ≡ map_at kind }
{
    by_kind(kind, USER_MAP, GROUP_MAP)
}

fn state_of(tag: u64, n: u64) -> MapState
    ensures { result ≡ state_of tag n }
{
    if tag == WRITTEN {
        MapState::Written(n as usize)
    } else {
        MapState::Unwritten
    }
}

// Line `i` of a map's words, as it was written.
fn line_of(words: &[u64; MAP_WIDTH], i: usize) -> Line
    requires { i < max_lines }
    ensures { result ≡ line_at inside_column parent_column words.now (first_line_at + line_words * i) }
{
    let at = LINES + LINE_WORDS * i;
    Line {
        inside: low(words[at + idmap::INSIDE]),
        parent: low(words[at + idmap::PARENT]),
        count: low(words[at + idmap::COUNT]),
    }
}

// The map that a map's words hold. This and what reads a namespace's row by it are inlined, so that a walk through
// namespaces makes no lines, which it does not look at.
#[inline(always)]
fn map_of(words: &[u64; MAP_WIDTH]) -> IdMap
    ensures { result ≡ map_of words.now }
{
    IdMap {
        state: state_of(words[STATE], words[COUNT]),
        lines: array::from_fn(|i| line_of(words, i)),
    }
}

// The words that are read as a line and its kernel start.
fn line_words(l: Line, kernel: u32) -> [u64; LINE_WORDS]
    ensures written { line_of inside_column parent_column result ≡ l }
    ensures kept { low_at result kernel_column ≡ kernel }
{
    [
        l.inside as u64,
        l.parent as u64,
        l.count as u64,
        kernel as u64,
    ]
}

// The words that are read as a map and the kernel starts of its lines. These stand in an array of their own, since they
// are no part of the map that the definitions to be believed have.
pub fn map_words(m: IdMap, kernel: [u32; MAX_LINES]) -> [u64; MAP_WIDTH]
    ensures written { map_of result ≡ m }
    ensures kept { starts_in result ≡ kernel }
{
    // By name: of neither five copies into a row nor `as_flattened` of what `from_fn` makes was this proved.
    let a = line_words(m.lines[0], kernel[0]);
    let b = line_words(m.lines[1], kernel[1]);
    let c = line_words(m.lines[2], kernel[2]);
    let d = line_words(m.lines[3], kernel[3]);
    let e = line_words(m.lines[4], kernel[4]);
    [
        m.state.is_written() as u64,
        m.state.count() as u64,
        a[0],
        a[1],
        a[2],
        a[3],
        b[0],
        b[1],
        b[2],
        b[3],
        c[0],
        c[1],
        c[2],
        c[3],
        d[0],
        d[1],
        d[2],
        d[3],
        e[0],
        e[1],
        e[2],
        e[3],
    ]
}

// The words of a map in a namespace's row, where they stand and not as a copy.
fn map_part(row: &[u64; NAMESPACE_WIDTH], at: usize) -> &[u64; MAP_WIDTH]
    requires { at + map_width ≤ namespace_width }
    ensures { result.now ≡ take map_width (drop at row.now) }
{
    <&[u64; MAP_WIDTH]>::try_from(&row[at..at + MAP_WIDTH]).unwrap()
}

// The record of a whole row.
#[inline(always)]
fn read_namespace(row: &[u64; NAMESPACE_WIDTH]) -> Namespace
    ensures { result ≡ namespace_of row.now }
{
    Namespace {
        live: row[LIVE] == 1,
        parent: row[PARENT],
        level: row[LEVEL],
        owner: low(row[OWNER]),
        users: map_of(map_part(row, USER_MAP)),
        groups: map_of(map_part(row, GROUP_MAP)),
        deny: row[DENY] == 1,
    }
}

// The row of a namespace with both maps unwritten.
pub fn unmapped_words(parent: u64, level: u64, owner: u32, deny: bool) -> [u64; NAMESPACE_WIDTH]
    ensures read { namespace_of result ≡ unmapped parent level owner deny }
    ensures cleared { Cleared result }
{
    let mut row: [u64; NAMESPACE_WIDTH] = [0; NAMESPACE_WIDTH];
    row[LIVE] = 1;
    row[PARENT] = parent;
    row[LEVEL] = level;
    row[OWNER] = owner as u64;
    row[DENY] = deny as u64;
    row
}

// A map that is not written.
fn free_map() -> IdMap
    ensures { result ≡ free_map }
{
    IdMap {
        state: MapState::Unwritten,
        lines: [NO_LINE; MAX_LINES],
    }
}

// A record of no namespace.
pub fn free_namespace() -> Namespace
    ensures { result ≡ free_namespace }
{
    Namespace {
        live: false,
        parent: 0,
        level: 0,
        owner: 0,
        users: free_map(),
        groups: free_map(),
        deny: false,
    }
}

// The record that a row holds. A row of another length holds none. It is no function generic over the two records: a
// trait's members, the width, the reading and the free record, would be all of what it does.
#[inline(always)]
#[tactic(auto, unfolding(crate::specs::Records::namespace_from))]
pub fn namespace_of(row: &[u64]) -> Namespace
    ensures { result ≡ namespace_from row.now }
{
    match <&[u64; NAMESPACE_WIDTH]>::try_from(row) {
        Ok(row) => read_namespace(row),
        Err(_) => free_namespace(),
    }
}

// The words of the lines that a map's words hold, if it is written.
fn written_lines(words: &[u64; MAP_WIDTH]) -> &[u64]
    ensures { LinesOf result.now (map_of words.now) (starts_in words.now) }
{
    if words[STATE] == WRITTEN {
        let n = words[COUNT].min(MAX_LINES as u64) as usize;
        rows::get(words, LINES, n * LINE_WORDS)
    } else {
        rows::get(words, LINES, 0)
    }
}

// The words of the written lines of a map, among the words that hold the map. Words of another number hold none.
pub fn lines_of(words: &[u64]) -> &[u64]
    ensures { LinesOf result.now (map_from words.now) (starts_from words.now) }
{
    match <&[u64; MAP_WIDTH]>::try_from(words) {
        Ok(words) => written_lines(words),
        Err(_) => &[],
    }
}
