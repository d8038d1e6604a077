// Translation of IDs between a namespace and the initial one, by the kernel starts of the lines.
ghost use Rattle.std.specs.Prelude.{◌≡◌};
ghost use Rattle.tables.specs.Tables.{tables_of};
ghost use Rattle.hierarchy.specs.Walks.{itself};
ghost use Rattle.hierarchy.specs.KernelStarts.{to_kernel, from_kernel};

use idmap::NO_ID;
use idmap::lookup::{lookup_inside, lookup_kernel};
use records::Kind;
use tables::Tables;
use tables::namespaces::map_lines;

// In the initial namespace each ID but 'no ID' stands for itself.
fn itself(id: u32) -> Option<u32>
    ensures { result ≡ itself id }
{
    if id == NO_ID { None } else { Some(id) }
}

// The kernel ID that an ID of a namespace stands for. The tables, the kind and the place are no struct, since callers
// have each from elsewhere. Linux: make_kuid, make_kgid.
#[tactic(auto, unfolding(crate::specs::KernelStarts::to_kernel))]
pub fn to_kernel(t: &Tables, kind: Kind, place: u64, id: u32) -> Option<u32>
    ensures { result ≡ to_kernel (tables_of t.now) kind place id }
{
    if place == 0 {
        return itself(id);
    }
    lookup_kernel(map_lines(t, place as usize, kind), id)
}

// The ID of a namespace that stands for a kernel ID. A function of its own: with the lookup as a parameter of one, two
// names would still stand for two lookups. Linux: from_kuid, from_kgid.
#[tactic(auto, unfolding(crate::specs::KernelStarts::from_kernel))]
pub fn from_kernel(t: &Tables, kind: Kind, place: u64, id: u32) -> Option<u32>
    ensures { result ≡ from_kernel (tables_of t.now) kind place id }
{
    if place == 0 {
        return itself(id);
    }
    lookup_inside(map_lines(t, place as usize, kind), id)
}
