// The namespace table. Its functions are not generic over the process table too: a trait's members would be all of what
// they do.
ghost use Rattle.std.specs.Prelude.{◌≡◌, ◌+◌, ◌*◌, ◌<◌};
ghost use Rattle.records.specs.Records.{namespace_width, free_namespace, map_in, with_deny, unmapped, LinesOf};
ghost use Rattle.tables.specs.Tables.{namespace_places, namespaces_at, tables_of, namespace_at, starts_at, put_namespace, clear_starts, put_map};

use crate::{NAMESPACE_PLACES, NAMESPACES_AT, Tables};
use idmap::MAX_LINES;
use records::namespaces::{
    DENY, MAP_WIDTH, NAMESPACE_WIDTH, free_namespace, lines_of, map_at, map_words, namespace_of,
    unmapped_words,
};
use records::{IdMap, Kind, Namespace};

// The namespace in a place of the table. A place past the end has none.
#[inline(always)]
pub fn namespace_at(t: &Tables, place: usize) -> Namespace
    ensures { result ≡ namespace_at (tables_of t.now) place }
{
    if place < NAMESPACE_PLACES {
        namespace_of(rows::get(t, row_at(place), NAMESPACE_WIDTH))
    } else {
        free_namespace()
    }
}

// Where the row of a namespace starts.
fn row_at(place: usize) -> usize
    requires { place < namespace_places }
    ensures { result ≡ namespaces_at + place * namespace_width }
{
    NAMESPACES_AT + place * NAMESPACE_WIDTH
}

// Stores a namespace with both maps unwritten in a place of the table. A place past the end takes nothing.
pub fn namespace_put(t: &mut Tables, place: usize, parent: u64, level: u64, owner: u32, deny: bool)
    ensures { tables_of t.new ≡ clear_starts (put_namespace (tables_of t.old) place (unmapped parent level owner deny)) place }
{
    if place < NAMESPACE_PLACES {
        rows::put(
            t,
            row_at(place),
            &unmapped_words(parent, level, owner, deny),
        );
    }
}

// Leaves a place of the table without a namespace. A place past the end has none.
pub fn namespace_clear(t: &mut Tables, place: usize)
    ensures { tables_of t.new ≡ clear_starts (put_namespace (tables_of t.old) place free_namespace) place }
{
    if place < NAMESPACE_PLACES {
        rows::put(t, row_at(place), &[0; NAMESPACE_WIDTH]);
    }
}

// Stores the map of a kind of a namespace, with the kernel starts of its lines. A place past the end takes nothing.
pub fn map_put(t: &mut Tables, place: usize, kind: Kind, map: IdMap, kernel: [u32; MAX_LINES])
    ensures { tables_of t.new ≡ put_map (tables_of t.old) kind place map kernel }
{
    if place < NAMESPACE_PLACES {
        rows::put(t, row_at(place) + map_at(kind), &map_words(map, kernel));
    }
}

// Stores the setgroups setting of a namespace. A place past the end takes nothing.
pub fn deny_put(t: &mut Tables, place: usize, deny: bool)
    ensures { tables_of t.new ≡ put_namespace (tables_of t.old) place (with_deny (namespace_at (tables_of t.old) place) deny) }
{
    if place < NAMESPACE_PLACES {
        rows::put(t, row_at(place) + DENY, &[deny as u64]);
    }
}

// The written lines of a namespace's map of a kind and their kernel starts, as the words that hold them where they
// stand.
pub fn map_lines(t: &Tables, place: usize, kind: Kind) -> &[u64]
    ensures { LinesOf result.now (map_in kind (namespace_at (tables_of t.now) place)) (starts_at (tables_of t.now) kind place) }
{
    if NAMESPACE_PLACES <= place {
        return rows::get(t, 0, 0);
    }
    lines_of(rows::get(t, row_at(place) + map_at(kind), MAP_WIDTH))
}
