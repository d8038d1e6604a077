// A process's own IDs, as seen in its namespace.
ghost use Rattle.std.specs.Prelude.{◌≡◌};
ghost use Rattle.tables.specs.Tables.{tables_of};
ghost use Rattle.hierarchy.specs.KernelStarts.{by_kernel_starts, quick};
ghost use Rattle.credentials.specs.Calls.{seen, seen_ids, seen_groups, own_ids_of};

use hierarchy::translate::from_kernel;
use idmap::OVERFLOW_ID;
use records::{GroupList, Ids, Kind, MAX_GROUPS, NO_GROUPS, ZERO_IDS};
use tables::Tables;
use tables::answer::Errno;
use tables::find::find_caller;
use tables::processes::process_at;

// A process's own IDs, as seen in its namespace.
#[derive(Clone, Copy)]
pub struct OwnIds {
    pub users: Ids,
    pub groups: Ids,
    pub supplementary: GroupList,
}

// Own IDs that are all 0, and no groups: what stands for none.
pub const NO_OWN_IDS: OwnIds = OwnIds {
    users: ZERO_IDS,
    groups: ZERO_IDS,
    supplementary: NO_GROUPS,
};

// A kernel ID as a namespace sees it.
#[tactic(auto, unfolding(hierarchy::specs::KernelStarts::by_kernel_starts))]
fn seen(t: &Tables, kind: Kind, namespace: u64, id: u32) -> u32
    ensures { result ≡ seen (by_kernel_starts (tables_of t.now)) kind «namespace» id }
{
    from_kernel(t, kind, namespace, id).unwrap_or(OVERFLOW_ID)
}

// The three IDs of a kind. They are inlined, since what a call writes ID by ID is copied by twos, for which a processor
// waits.
#[inline(always)]
fn seen_ids(t: &Tables, kind: Kind, namespace: u64, ids: Ids) -> Ids
    ensures { result ≡ seen_ids (by_kernel_starts (tables_of t.now)) kind «namespace» ids }
{
    Ids {
        real: seen(t, kind, namespace, ids.real),
        effective: seen(t, kind, namespace, ids.effective),
        saved: seen(t, kind, namespace, ids.saved),
    }
}

// The supplementary groups in order: as many as a list says, and as it has places for.
fn seen_groups(t: &Tables, namespace: u64, list: GroupList) -> GroupList
    ensures { result ≡ seen_groups (by_kernel_starts (tables_of t.now)) «namespace» list }
{
    let count = list.count.min(MAX_GROUPS as u64) as usize;
    let mut ids = [0; MAX_GROUPS];
    // The places are counted: nothing is known of what a zip over `iter_mut` writes.
    for (i, id) in list.ids[..count].iter().enumerate() {
        ids[i] = seen(t, Kind::Group, namespace, *id);
    }
    GroupList {
        count: count as u64,
        ids,
    }
}

// The caller's own IDs. Refuses: 3 no caller.
// Ruled out, for instance: kernel IDs shown as they are; group IDs by the user map.
#[tactic(auto, unfolding(crate::specs::Calls::own_ids_of))]
pub fn own_ids(t: &Tables, caller: u64) -> Result<OwnIds, Errno>
    ensures { result ≡ quick own_ids_of (tables_of t.now) caller }
{
    // First always: the caller must exist, else 3.
    let place = find_caller(t, caller).ok_or(Errno::ESRCH)?;
    let p = process_at(t, place);
    Ok(OwnIds {
        users: seen_ids(t, Kind::User, p.namespace, p.users),
        groups: seen_ids(t, Kind::Group, p.namespace, p.groups),
        supplementary: seen_groups(t, p.namespace, p.supplementary),
    })
}
