// Changes of real, effective and saved IDs.
ghost use Rattle.std.specs.Prelude.{◌≡◌, cond};
ghost use Rattle.capability.specs.Sets.{empty_set};
ghost use Rattle.tables.specs.Tables.{tables_of};
ghost use Rattle.tables.specs.Reply.{Promise};
ghost use Rattle.hierarchy.specs.KernelStarts.{by_kernel_starts, quick};
ghost use Rattle.credentials.specs.Calls.{chosen, is_one_of, all_one_of, loses_all, loses_effective, may_take, with_users, with_ids, set_ids_of};

use capability::CapabilitySet;
use hierarchy::capable::capable;
use hierarchy::translate::to_kernel;
use idmap::NO_ID;
use records::kinds::{ids_in, set_id};
use records::{Ids, Kind, Process};
use tables::Tables;
use tables::answer::{Answer, Errno};
use tables::find::find_caller;
use tables::processes::{process_at, process_put};

// The kernel ID for an ID that is given: 4,294,967,295 leaves the old one.
#[tactic(auto, unfolding(hierarchy::specs::KernelStarts::by_kernel_starts))]
fn choose(t: &Tables, kind: Kind, namespace: u64, id: u32, old: u32) -> Option<u32>
    ensures { result ≡ chosen (by_kernel_starts (tables_of t.now)) kind «namespace» id old }
{
    if id == NO_ID {
        Some(old)
    } else {
        to_kernel(t, kind, namespace, id)
    }
}

// The three have names, so this is no `contains`.
fn one_of(id: u32, ids: Ids) -> bool
    ensures { result ≡ is_one_of id ids }
{
    id == ids.real || id == ids.effective || id == ids.saved
}

#[tactic(auto, unfolding(crate::specs::Calls::all_one_of))]
fn all_one_of(new: Ids, old: Ids) -> bool
    ensures { result ≡ all_one_of new old }
{
    one_of(new.real, old) && one_of(new.effective, old) && one_of(new.saved, old)
}

// Whether the change takes the namespace's ID 0 from all three. What ID 0 is, the old three and the new are parameters
// here and in the next, as of the definitions.
fn loses_all(zero: Option<u32>, old: Ids, new: Ids) -> bool
    ensures { result ≡ loses_all zero old new }
{
    matches!(zero, Some(z) if one_of(z, old) && !one_of(z, new))
}

// Whether it takes ID 0 from the effective one.
fn loses_effective(zero: Option<u32>, old: Ids, new: Ids) -> bool
    ensures { result ≡ loses_effective zero old new }
{
    matches!(zero, Some(z) if z == old.effective && z != new.effective)
}

// A set, or the empty one where it is lost.
fn kept(set: CapabilitySet, lost: bool) -> CapabilitySet
    ensures { result ≡ cond lost (record { bits = empty_set }) set }
{
    if lost { CapabilitySet::EMPTY } else { set }
}

// The process with new user IDs, and the sets that the change leaves it.
#[tactic(auto, unfolding(crate::specs::Calls::with_users))]
fn with_users(zero: Option<u32>, p: Process, new: Ids) -> Process
    ensures { result ≡ with_users zero p new }
{
    let all = loses_all(zero, p.users, new);
    let lost = loses_effective(zero, p.users, new);
    Process {
        users: new,
        permitted: kept(p.permitted, all),
        effective: kept(p.effective, all || lost),
        ..p
    }
}

// The process with new IDs of a kind. A match, since `by_kind` would make both records.
#[tactic(auto, unfolding(crate::specs::Calls::with_groups, hierarchy::specs::KernelStarts::by_kernel_starts))]
fn with_ids(t: &Tables, kind: Kind, p: Process, new: Ids) -> Process
    ensures { result ≡ with_ids (by_kernel_starts (tables_of t.now)) kind p new }
{
    match kind {
        Kind::User => with_users(to_kernel(t, Kind::User, p.namespace, 0), p, new),
        Kind::Group => Process { groups: new, ..p },
    }
}

// Whether the caller may take these IDs.
#[tactic(auto, unfolding(crate::specs::Calls::may_take))]
fn permitted(t: &Tables, kind: Kind, p: Process, new: Ids, old: Ids) -> bool
    ensures { result ≡ may_take (tables_of t.now) kind p new old }
{
    capable(t, p, p.namespace, set_id(kind)) || all_one_of(new, old)
}

// Sets the caller's real, effective and saved IDs of a kind, given as IDs of its namespace. Refuses: 3 no caller; 22 an
// ID that is not mapped; 1 where, without SETUID (SETGID) in its own namespace, one is none of the present three.
// Ruled out, for instance: sets kept when the effective ID 0 is given up; a saved ID that is none of the present three.
#[tactic(auto, unfolding(crate::specs::Calls::set_ids_of))]
pub fn set_ids(t: &mut Tables, kind: Kind, caller: u64, given: Ids) -> Result<Answer, Errno>
    ensures { Promise result t.old t.new (quick set_ids_of (tables_of t.old) kind caller given.real given.effective given.saved) }
{
    // First always: the caller must exist, else 3.
    let place = find_caller(t, caller).ok_or(Errno::ESRCH)?;
    let p = process_at(t, place);
    let old = ids_in(kind, p);
    // 4,294,967,295 leaves the real ID as it is; 22 if another given one has no translation out.
    let real = choose(t, kind, p.namespace, given.real, old.real).ok_or(Errno::EINVAL)?;
    // The effective ID alike.
    let effective = choose(t, kind, p.namespace, given.effective, old.effective).ok_or(
        Errno::EINVAL,
    )?;
    // The saved ID alike.
    let saved = choose(t, kind, p.namespace, given.saved, old.saved).ok_or(Errno::EINVAL)?;
    let new = Ids {
        real,
        effective,
        saved,
    };
    // 1 if, without SETUID (SETGID) in its own namespace, any is none of the caller's present three.
    if !permitted(t, kind, p, new, old) {
        return Err(Errno::EPERM);
    }
    process_put(t, place, with_ids(t, kind, p, new));
    Ok(Answer::Done)
}
