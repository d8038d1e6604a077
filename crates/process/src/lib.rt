// Fork, clone, unshare and setns.
#![tactic(auto)]

ghost use Rattle.std.specs.Prelude.{◌≡◌, ◌<◌};
ghost use Rattle.tables.specs.Tables.{max_level, tables_of};
ghost use Rattle.tables.specs.Reply.{Promise};
ghost use Rattle.hierarchy.specs.KernelStarts.{by_kernel_starts, quick};
ghost use Rattle.process.specs.Calls.{fork_of, knows_itself, with_namespace, entered, clone_of, unshare_of, setns_of};
ghost use Rattle.process.specs.Making.{Makes, HasRoom};

use capability::{CAP_SYS_ADMIN, CapabilitySet};
use hierarchy::capable::capable;
use hierarchy::translate::from_kernel;
use records::{Kind, Namespace, Process};
use tables::answer::{Answer, Errno};
use tables::find::{find_caller, free_namespace_place, free_process_place, named_namespace};
use tables::namespaces::{namespace_at, namespace_put};
use tables::processes::{process_at, process_put};
use tables::{MAX_LEVEL, Tables};

// A copy of the caller, but for its number. Answers the child's number. Refuses: 3 no caller, 11 the process table is
// full.
// Ruled out, for instance: the caller's number as the answer; a copy stored over the caller.
#[tactic(auto, unfolding(crate::specs::Calls::fork_of))]
pub fn fork(t: &mut Tables, caller: u64) -> Result<Answer, Errno>
    ensures { Promise result t.old t.new (fork_of (tables_of t.old) caller) }
{
    // First always: the caller must exist, else 3.
    let place = find_caller(t, caller).ok_or(Errno::ESRCH)?;
    // 11 if the process table is full.
    let (free, number) = free_process_place(t).ok_or(Errno::EAGAIN)?;
    let p = process_at(t, place);
    process_put(t, free, p);
    Ok(Answer::Child(number))
}

// Whether the process's effective user and group ID have a translation into its own namespace.
#[tactic(auto, unfolding(crate::specs::Calls::knows_itself, hierarchy::specs::KernelStarts::by_kernel_starts))]
fn knows_itself(t: &Tables, p: Process) -> bool
    ensures { result ≡ knows_itself (by_kernel_starts (tables_of t.now)) p }
{
    from_kernel(t, Kind::User, p.namespace, p.users.effective).is_some()
        && from_kernel(t, Kind::Group, p.namespace, p.groups.effective).is_some()
}

// Puts the namespace that a process makes below its own into place `n`.
#[tactic(auto, unfolding(crate::specs::Calls::below))]
fn make_namespace(t: &mut Tables, n: usize, p: Process, own: Namespace)
    requires { own.level < max_level }
    ensures { tables_of t.new ≡ with_namespace (tables_of t.old) n p own }
{
    namespace_put(
        t,
        n,
        p.namespace,
        own.level + 1,
        p.users.effective,
        own.deny,
    );
}

// A process as a member of a namespace, with both sets full.
#[tactic(auto, unfolding(crate::specs::Calls::entered))]
fn member(p: Process, namespace: u64) -> Process
    ensures { result ≡ entered p «namespace» }
{
    Process {
        namespace,
        permitted: CapabilitySet::FULL,
        effective: CapabilitySet::FULL,
        ..p
    }
}

// The place of a process that makes a namespace, and the free place for this with its number, which `tables` alone knows.
#[derive(Clone, Copy)]
struct Maker {
    place: usize,
    free: usize,
    number: u64,
}

// Clone and unshare alike, up to the free namespace.
fn find_maker(t: &Tables, caller: u64) -> Result<Maker, Errno>
    ensures told { Makes (by_kernel_starts (tables_of t.now)) (tables_of t.now) caller result }
    ensures room { HasRoom (tables_of t.now) result }
{
    // First always: the caller must exist, else 3.
    let place = find_caller(t, caller).ok_or(Errno::ESRCH)?;
    let p = process_at(t, place);
    let own = namespace_at(t, p.namespace as usize);
    // 87 if the caller's level is 32.
    if MAX_LEVEL <= own.level {
        return Err(Errno::EUSERS);
    }
    // 1 if its effective user or group ID has no translation into its own namespace.
    if !knows_itself(t, p) {
        return Err(Errno::EPERM);
    }
    // 28 if no namespace is free.
    let (free, number) = free_namespace_place(t).ok_or(Errno::ENOSPC)?;
    Ok(Maker {
        place,
        free,
        number,
    })
}

// A child in a new namespace. Answers the child's number and the namespace's. Refuses: 3 no caller, 87 the caller's
// level is 32, 1 its effective IDs are not mapped in its own namespace, 28 no namespace is free, 11 no process is free.
// Ruled out, for instance: the two numbers in the other order; a new namespace on the caller's own level.
#[tactic(auto, unfolding(crate::specs::Calls::clone_of))]
pub fn clone(t: &mut Tables, caller: u64) -> Result<Answer, Errno>
    ensures { Promise result t.old t.new (quick clone_of (tables_of t.old) caller) }
{
    let maker = find_maker(t, caller)?;
    // For clone, 11 if no process is free.
    let (free, number) = free_process_place(t).ok_or(Errno::EAGAIN)?;
    let p = process_at(t, maker.place);
    let own = namespace_at(t, p.namespace as usize);
    make_namespace(t, maker.free, p, own);
    process_put(t, free, member(p, maker.free as u64));
    Ok(Answer::ChildIn(number, maker.number))
}

// The caller in a new namespace. Answers the namespace's number. Refuses as clone does, but for 11.
// Ruled out, for instance: the parent's number as the answer; a new namespace on the caller's own level.
#[tactic(auto, unfolding(crate::specs::Calls::unshare_of))]
pub fn unshare(t: &mut Tables, caller: u64) -> Result<Answer, Errno>
    ensures { Promise result t.old t.new (quick unshare_of (tables_of t.old) caller) }
{
    let maker = find_maker(t, caller)?;
    let p = process_at(t, maker.place);
    let own = namespace_at(t, p.namespace as usize);
    make_namespace(t, maker.free, p, own);
    process_put(t, maker.place, member(p, maker.free as u64));
    Ok(Answer::NewNamespace(maker.number))
}

// The caller joins a namespace. Refuses: 3 no caller or no such namespace, 22 already a member, 1 without SYS_ADMIN in
// it.
// Ruled out, for instance: SYS_ADMIN asked in the caller's own namespace; done with the caller left where it was.
#[tactic(auto, unfolding(crate::specs::Calls::setns_of))]
pub fn setns(t: &mut Tables, caller: u64, name: u64) -> Result<Answer, Errno>
    ensures { Promise result t.old t.new (setns_of (tables_of t.old) caller name) }
{
    // First always: the caller must exist, else 3.
    let place = find_caller(t, caller).ok_or(Errno::ESRCH)?;
    // Then the namespace named, else 3.
    let target = named_namespace(t, place, name).ok_or(Errno::ESRCH)?;
    let p = process_at(t, place);
    // 22 if already a member.
    if p.namespace == target as u64 {
        return Err(Errno::EINVAL);
    }
    // 1 without SYS_ADMIN in the target.
    if !capable(t, p, target as u64, CAP_SYS_ADMIN) {
        return Err(Errno::EPERM);
    }
    process_put(t, place, member(p, target as u64));
    Ok(Answer::Done)
}
