// Reads of a map and of the setgroups setting into a lent buffer.
ghost use Rattle.std.specs.Prelude.{◌≡◌, map, ◌*◌, ◌≤◌, length};
ghost use Rattle.prelude.specs.Parts.{put_at};
ghost use Rattle.idmap.specs.Show.{line_bytes, lines_text};
ghost use Rattle.tables.specs.Tables.{tables_of};
ghost use Rattle.tables.specs.Reply.{reply_of};
ghost use Rattle.hierarchy.specs.KernelStarts.{quick};
ghost use Rattle.mapping.specs.Calls.{view_of, shown_line, ReadOutcome, read_text, line_count, read_map_of, read_setgroups_of};

use hierarchy::translate::{from_kernel, to_kernel};
use idmap::show::{LINE_BYTES, put_line};
use idmap::{Line, MAX_LINES, NO_ID};
use records::kinds::map_in;
use records::{IdMap, Kind, Process};
use tables::Tables;
use tables::answer::{Answer, Errno};
use tables::find::{find_caller, named_process};
use tables::namespaces::namespace_at;
use tables::processes::process_at;

// The namespace in which a reader sees a map of namespace `n`.
#[tactic(auto, unfolding(crate::specs::Calls::view_of))]
fn view(t: &Tables, reader: Process, n: u64) -> u64
    ensures { result ≡ view_of (tables_of t.now) reader n }
{
    let target = namespace_at(t, n as usize);
    if reader.namespace == n {
        target.parent
    } else {
        reader.namespace
    }
}

// A line of a map of namespace `n` as namespace `v` sees it.
#[tactic(auto, unfolding(crate::specs::Calls::shown_line, hierarchy::specs::KernelStarts::by_kernel_starts))]
fn shown(t: &Tables, kind: Kind, n: u64, v: u64, l: Line) -> Line
    ensures { result ≡ quick shown_line (tables_of t.now) kind n v l }
{
    let target = namespace_at(t, n as usize);
    let parent = match to_kernel(t, kind, target.parent, l.parent) {
        Some(x) => from_kernel(t, kind, v, x).unwrap_or(NO_ID),
        None => NO_ID,
    };
    Line { parent, ..l }
}

// How many lines a map has, as far as it has places for them.
fn line_count(m: IdMap) -> usize
    ensures { result ≡ line_count m.state }
{
    m.state.count().min(MAX_LINES)
}

// Stores lines, as namespace `v` sees them, at the front of a buffer that has room for them. The places are counted:
// nothing is known of what a zip over parts of the buffer writes.
fn put_lines(t: &Tables, kind: Kind, n: u64, v: u64, lines: &[Line], buffer: &mut [u8])
    requires { length lines.now * line_bytes ≤ length buffer.old }
    ensures { buffer.new ≡ put_at buffer.old 0 (lines_text (map (quick shown_line (tables_of t.now) kind n v) lines.now)) }
{
    for (i, l) in lines.iter().enumerate() {
        put_line(buffer, i * LINE_BYTES, shown(t, kind, n, v, *l));
    }
}

// Reads the map of a kind of the namespace that process `name` is in. Answers the text's length. Refuses: 3 no caller
// or no such process; 34 a buffer shorter than the text.
// Ruled out, for instance: field two in the target itself; 32 bytes of room for a line of 33.
#[tactic(auto, unfolding(crate::specs::Calls::read_map_of))]
pub fn read_map(
    t: &Tables,
    kind: Kind,
    caller: u64,
    name: u64,
    buffer: &mut [u8],
) -> Result<Answer, Errno>
    ensures { ◌≡◌ {A = ReadOutcome} (record { reply = reply_of result; buffer = buffer.new }) (quick read_map_of (tables_of t.now) kind caller name buffer.old) }
{
    // First always: the caller must exist, else 3.
    let reader = find_caller(t, caller).ok_or(Errno::ESRCH)?;
    // Then the process named, else 3.
    let place = named_process(t, reader, name).ok_or(Errno::ESRCH)?;
    let r = process_at(t, reader);
    let n = process_at(t, place).namespace;
    let map = map_in(kind, namespace_at(t, n as usize));
    let count = line_count(map);
    // 34 if the lent buffer is shorter than the text.
    if buffer.len() < count * LINE_BYTES {
        return Err(Errno::ERANGE);
    }
    put_lines(t, kind, n, view(t, r, n), &map.lines[..count], buffer);
    Ok(Answer::Length(count * LINE_BYTES))
}

// Stores a text at the front of a buffer. Answers its length, or 34 where the buffer is shorter.
#[tactic(auto, unfolding(crate::specs::Calls::read_text))]
fn put_word(buffer: &mut [u8], text: &[u8]) -> Result<Answer, Errno>
    ensures { ◌≡◌ {A = ReadOutcome} (record { reply = reply_of result; buffer = buffer.new }) (read_text text.now buffer.old) }
{
    // 34 if the lent buffer is shorter than the text.
    if !rows::put(buffer, 0, text) {
        return Err(Errno::ERANGE);
    }
    Ok(Answer::Length(text.len()))
}

// Reads the setgroups setting of the namespace that process `name` is in: "allow" or "deny" and a newline. Answers and
// refuses as read_map does.
// Ruled out, for instance: the two words exchanged; a word without its newline.
#[tactic(auto, unfolding(crate::specs::Calls::read_setgroups_of, crate::specs::Calls::setting_text))]
pub fn read_setgroups(
    t: &Tables,
    caller: u64,
    name: u64,
    buffer: &mut [u8],
) -> Result<Answer, Errno>
    ensures { ◌≡◌ {A = ReadOutcome} (record { reply = reply_of result; buffer = buffer.new }) (read_setgroups_of (tables_of t.now) caller name buffer.old) }
{
    // First always: the caller must exist, else 3.
    let reader = find_caller(t, caller).ok_or(Errno::ESRCH)?;
    // Then the process named, else 3.
    let place = named_process(t, reader, name).ok_or(Errno::ESRCH)?;
    let p = process_at(t, place);
    if namespace_at(t, p.namespace as usize).deny {
        put_word(buffer, b"deny\n")
    } else {
        put_word(buffer, b"allow\n")
    }
}
