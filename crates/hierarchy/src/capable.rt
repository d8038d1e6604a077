// Who holds a capability in a namespace: user_namespaces(7), three rules.
ghost use Rattle.std.specs.Prelude.{◌≡◌};
ghost use Rattle.tables.specs.Tables.{tables_of};
ghost use Rattle.hierarchy.specs.Walks.{height_of, owned_by, capable_in};

use records::{Namespace, Process};
use tables::namespaces::namespace_at;
use tables::{MAX_LEVEL, Tables};

// How many steps lead from a namespace to the initial one, as many as there are levels at most.
#[tactic(auto, unfolding(crate::specs::Walks::height_of))]
fn height(t: &Tables, place: u64) -> u64
    ensures { result ≡ height_of (tables_of t.now) place }
{
    namespace_at(t, place as usize).level.min(MAX_LEVEL)
}

// Whether the namespace's parent is `own` and its owner `euid`.
#[tactic(auto, unfolding(crate::specs::Walks::owned_by))]
fn owned(n: Namespace, own: u64, euid: u32) -> bool
    ensures { result ≡ owned_by own euid n }
{
    n.parent == own && n.owner == euid
}

// Whether a process holds a capability in a namespace. Linux: ns_capable.
pub fn capable(t: &Tables, p: Process, place: u64, capability: u32) -> bool
    ensures { result ≡ capable_in (tables_of t.now) p place capability }
{
    let mut left = height(t, place);
    let mut at = place;
    // No counted `for`: document 01 names a loop that yields yes or no by break, the level falling.
    loop {
        // At the process's own namespace: its effective set decides.
        if at == p.namespace {
            break p.effective.has(capability);
        }
        // At the initial namespace with neither: no.
        if at == 0 {
            break false;
        }
        // At a namespace whose parent is the process's own and whose owner is its effective user: yes.
        let n = namespace_at(t, at as usize);
        if owned(n, p.namespace, p.users.effective) {
            break true;
        }
        if left == 0 {
            break false;
        }
        at = n.parent;
        left -= 1;
    }
}
