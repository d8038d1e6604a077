// The write of a user or group map. The kind, the writer and the namespace written to go to each test, as the definitions
// take them.
ghost use Rattle.std.specs.Prelude.{◌≡◌, ◌≤◌, length};
ghost use Rattle.std.specs.List.{list_all};
ghost use Rattle.idmap.specs.Good.{max_lines};
ghost use Rattle.idmap.specs.Line.{lines_in};
ghost use Rattle.idmap.specs.Ranges.{whole_by_reach};
ghost use Rattle.tables.specs.Tables.{tables_of, namespace_at};
ghost use Rattle.tables.specs.Reply.{Promise};
ghost use Rattle.hierarchy.specs.KernelStarts.{to_kernel, by_kernel_starts, quick, kernel_starts};
ghost use Rattle.mapping.specs.Calls.{is_near, may_by_kind, single_line, may_map, write_lines_to, write_map_to, write_map_of};

use hierarchy::capable::capable;
use hierarchy::translate::to_kernel;
use idmap::range::lies_whole;
use idmap::text::parse_map;
use idmap::{Line, MAX_LINES, MAX_TEXT_BYTES, NO_ID};
use records::kinds::{by_kind, ids_in, map_in, set_id};
use records::{IdMap, Kind, MapState, Namespace, Process};
use tables::Tables;
use tables::answer::{Answer, Errno};
use tables::find::{find_caller, named_process};
use tables::namespaces::{map_lines, map_put, namespace_at};
use tables::processes::process_at;

// Whether the writer is in namespace `n` or in its parent.
#[tactic(auto, unfolding(crate::specs::Calls::is_near))]
fn near(w: Process, n: u64, target: Namespace) -> bool
    ensures { result ≡ is_near w n target }
{
    w.namespace == n || w.namespace == target.parent
}

// A group map of one's own asks that setgroups is denied.
fn may_by_kind(kind: Kind, deny: bool) -> bool
    ensures { result ≡ may_by_kind kind deny }
{
    by_kind(kind, true, deny)
}

// Whether the lines are one line for the writer's own effective ID, and the writer owns the namespace.
#[tactic(auto, unfolding(crate::specs::Calls::single_line, hierarchy::specs::KernelStarts::by_kernel_starts))]
fn single_line(t: &Tables, kind: Kind, w: Process, target: Namespace, lines: &[Line]) -> bool
    ensures { result ≡ single_line (by_kernel_starts (tables_of t.now)) kind w target lines.now }
{
    // The text is one line ..
    let [l] = lines else {
        return false;
    };
    // .. of count 1 ..
    l.count == 1
        // .. whose parent start is, station-wide, the writer's own effective user (group) ID, ..
        && to_kernel(t, kind, target.parent, l.parent) == Some(ids_in(kind, w).effective)
        // .. the writer's effective user ID is the owner, ..
        && w.users.effective == target.owner
        // .. and for a group map setgroups is "deny".
        && may_by_kind(kind, target.deny)
}

// Whether the writer has the capability in the parent, or the single line is its own.
#[tactic(auto, unfolding(crate::specs::Calls::may_map))]
fn may_map(t: &Tables, kind: Kind, w: Process, target: Namespace, lines: &[Line]) -> bool
    ensures { result ≡ quick may_map (tables_of t.now) kind w target lines.now }
{
    capable(t, w, target.parent, set_id(kind)) || single_line(t, kind, w, target, lines)
}

// Whether the parent side of each of the lines lies whole in one line of the map above.
fn all_whole(above: &[u64], lines: &[Line]) -> bool
    ensures { result ≡ list_all (λ l. whole_by_reach (lines_in above.now) l.parent l.count) lines.now }
{
    lines.iter().all(|l| lies_whole(above, l.parent, l.count))
}

// The kernel ID that the parent start of each of the lines stands for, which is kept beside it. 0 in the other places.
fn kernel_starts(t: &Tables, kind: Kind, parent: u64, lines: &[Line]) -> [u32; MAX_LINES]
    requires { length lines.now ≤ max_lines }
    ensures { result ≡ kernel_starts (to_kernel (tables_of t.now) kind parent) lines.now }
{
    let mut kernel = [0; MAX_LINES];
    // The places are counted: nothing is known of what a zip over `iter_mut` writes.
    for (i, l) in lines.iter().enumerate() {
        kernel[i] = to_kernel(t, kind, parent, l.parent).unwrap_or(NO_ID);
    }
    kernel
}

// The write to namespace `n`, whose record is `target`, where the text is to be read: its lines, the writer's right to
// them and the lines above them tested, and the map stored.
fn write_lines(
    t: &mut Tables,
    kind: Kind,
    w: Process,
    n: u64,
    target: Namespace,
    text: &[u8],
) -> Result<Answer, Errno>
    requires { target ≡ namespace_at (tables_of t.old) n }
    ensures { Promise result t.old t.new (quick write_lines_to (tables_of t.old) kind w n text.now) }
{
    // 22 by the text rules.
    let read = parse_map(text).ok_or(Errno::EINVAL)?;
    let lines = read.as_slice();
    // 1 unless the writer has that capability in the parent, or the text is a single line of its own.
    if !may_map(t, kind, w, target, lines) {
        return Err(Errno::EPERM);
    }
    // 1 unless each new line's parent side lies whole in one parent line.
    if !all_whole(map_lines(t, target.parent as usize, kind), lines) {
        return Err(Errno::EPERM);
    }
    let kernel = kernel_starts(t, kind, target.parent, lines);
    let map = IdMap {
        state: MapState::Written(read.count),
        lines: read.lines,
    };
    map_put(t, n as usize, kind, map, kernel);
    Ok(Answer::Done)
}

// The write to namespace `n` by process `w`, in the order in which it refuses.
#[tactic(auto, unfolding(crate::specs::Calls::write_map_to))]
fn write_to(t: &mut Tables, kind: Kind, w: Process, n: u64, text: &[u8]) -> Result<Answer, Errno>
    ensures { Promise result t.old t.new (quick write_map_to (tables_of t.old) kind w n text.now) }
{
    // 1 if the target is namespace 0, ..
    if n == 0 {
        return Err(Errno::EPERM);
    }
    let target = namespace_at(t, n as usize);
    // .. or the writer is neither in the target nor in its parent.
    if !near(w, n, target) {
        return Err(Errno::EPERM);
    }
    // 22 if the text has 0 ..
    if text.is_empty() {
        return Err(Errno::EINVAL);
    }
    // .. or more than 4,095 bytes.
    if MAX_TEXT_BYTES < text.len() {
        return Err(Errno::EINVAL);
    }
    // 1 if already written.
    if map_in(kind, target).state.is_written() {
        return Err(Errno::EPERM);
    }
    // 1 without SETUID (user) or SETGID (group) in the target.
    if !capable(t, w, n, set_id(kind)) {
        return Err(Errno::EPERM);
    }
    write_lines(t, kind, w, n, target, text)
}

// Writes the map of a kind of the namespace that process `name` is in. Refuses: 3 no caller or no such process; 1 the
// target is the initial namespace, or the writer is neither in it nor in its parent; 22 a text of 0 or over 4,095
// bytes; 1 already written; 1 without SETUID (SETGID) in the target; 22 bad text; 1 without the capability in the
// parent where the text is no single line of the writer's own; 1 a line whose parent side does not lie whole in one
// line of the parent's map. Ruled out, for instance: a map stored with IDs that the parent does not map; an empty text
// told before a writer from elsewhere.
#[tactic(auto, unfolding(crate::specs::Calls::write_map_of))]
pub fn write_map(
    t: &mut Tables,
    kind: Kind,
    caller: u64,
    name: u64,
    text: &[u8],
) -> Result<Answer, Errno>
    ensures { Promise result t.old t.new (quick write_map_of (tables_of t.old) kind caller name text.now) }
{
    // First always: the caller must exist, else 3.
    let writer = find_caller(t, caller).ok_or(Errno::ESRCH)?;
    // Then the process named, else 3.
    let place = named_process(t, writer, name).ok_or(Errno::ESRCH)?;
    let w = process_at(t, writer);
    let p = process_at(t, place);
    write_to(t, kind, w, p.namespace, text)
}
