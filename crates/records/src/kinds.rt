// What goes by the kind of an ID.
ghost use Rattle.std.specs.Prelude.{◌≡◌};
ghost use Rattle.records.specs.Records.{by_kind, ids_in, map_in, set_id_of};

use crate::{IdMap, Ids, Kind, Namespace, Process};
use capability::{CAP_SETGID, CAP_SETUID};

// What goes by the kind: what users have, or groups.
pub fn by_kind<T: Copy>(kind: Kind, user: T, group: T) -> T
    ensures { result ≡ by_kind kind user group }
{
    match kind {
        Kind::User => user,
        Kind::Group => group,
    }
}

// A process's IDs of a kind. This and the next name the two parts between which the kind chooses, which is all that they
// are.
pub fn ids_in(kind: Kind, p: Process) -> Ids
    ensures { result ≡ ids_in kind p }
{
    by_kind(kind, p.users, p.groups)
}

// A namespace's map of a kind.
pub fn map_in(kind: Kind, n: Namespace) -> IdMap
    ensures { result ≡ map_in kind n }
{
    by_kind(kind, n.users, n.groups)
}

// The number of the capability to set IDs of a kind.
pub fn set_id(kind: Kind) -> u32
    ensures { result ≡ set_id_of kind }
{
    by_kind(kind, CAP_SETUID, CAP_SETGID)
}
