// Setgroups.
ghost use Rattle.std.specs.Prelude.{◌≡◌, ◌≤◌, length};
ghost use Rattle.records.specs.Records.{max_groups};
ghost use Rattle.tables.specs.Tables.{tables_of};
ghost use Rattle.tables.specs.Reply.{Promise};
ghost use Rattle.hierarchy.specs.KernelStarts.{by_kernel_starts, quick};
ghost use Rattle.credentials.specs.Calls.{kernel_groups, listed_of, set_groups_of};

use capability::CAP_SETGID;
use hierarchy::capable::capable;
use hierarchy::translate::to_kernel;
use records::{GroupList, Kind, MAX_GROUPS, Process};
use tables::Tables;
use tables::answer::{Answer, Errno};
use tables::find::find_caller;
use tables::namespaces::namespace_at;
use tables::processes::{process_at, process_put};

// The kernel IDs of groups, in order, where a list has room for them and each group is mapped.
fn kernel_groups(t: &Tables, namespace: u64, list: &[u32]) -> Option<GroupList>
    requires { length list.now ≤ max_groups }
    ensures { result ≡ listed_of (kernel_groups (by_kernel_starts (tables_of t.now)) «namespace» list.now) }
{
    let mut ids = [0; MAX_GROUPS];
    // The places are counted: nothing is known of what a zip over `iter_mut` writes.
    for (i, id) in list.iter().enumerate() {
        ids[i] = to_kernel(t, Kind::Group, namespace, *id)?;
    }
    Some(GroupList {
        count: list.len() as u64,
        ids,
    })
}

// Replaces the caller's supplementary groups. Refuses: 3 no caller; 1 without SETGID in its own namespace, or where
// that has no group map yet or denies setgroups; 22 over 16 groups, or where one is not mapped.
// Ruled out, for instance: seventeen groups; a list where setgroups is denied.
#[tactic(auto, unfolding(crate::specs::Calls::set_groups_of, crate::specs::Calls::with_list))]
pub fn setgroups(t: &mut Tables, caller: u64, list: &[u32]) -> Result<Answer, Errno>
    ensures { Promise result t.old t.new (quick set_groups_of (tables_of t.old) caller list.now) }
{
    // First always: the caller must exist, else 3.
    let place = find_caller(t, caller).ok_or(Errno::ESRCH)?;
    let p = process_at(t, place);
    // 1 without SETGID in its own namespace, ..
    if !capable(t, p, p.namespace, CAP_SETGID) {
        return Err(Errno::EPERM);
    }
    let own = namespace_at(t, p.namespace as usize);
    // .. or group map unwritten, ..
    if !own.groups.state.is_written() {
        return Err(Errno::EPERM);
    }
    // .. or "deny".
    if own.deny {
        return Err(Errno::EPERM);
    }
    // 22 over 16 groups.
    if MAX_GROUPS < list.len() {
        return Err(Errno::EINVAL);
    }
    // 22 if one has no translation.
    let supplementary = kernel_groups(t, p.namespace, list).ok_or(Errno::EINVAL)?;
    process_put(t, place, Process { supplementary, ..p });
    Ok(Answer::Done)
}
