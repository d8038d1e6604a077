// The tables as they are at the start.
ghost use Rattle.std.specs.Prelude.{◌≡◌};
ghost use Rattle.tables.specs.Tables.{tables_of, first_process, fixed_map, initial_tables, with_processes, without_namespaces};

use crate::namespaces::{map_put, namespace_clear, namespace_put};
use crate::processes::process_put;
use crate::{NAMESPACE_PLACES, PROCESS_PLACES, Tables};
use capability::CapabilitySet;
use idmap::{Line, MAX_LINES, NO_ID, NO_LINE};
use records::processes::free_process;
use records::{IdMap, Kind, MapState, NO_GROUPS, Process, ZERO_IDS};

fn first_process() -> Process
    ensures { result ≡ first_process }
{
    Process {
        live: true,
        namespace: 0,
        users: ZERO_IDS,
        groups: ZERO_IDS,
        supplementary: NO_GROUPS,
        permitted: CapabilitySet::FULL,
        effective: CapabilitySet::FULL,
    }
}

fn fixed_map() -> IdMap
    ensures { result ≡ fixed_map }
{
    let fixed = Line {
        inside: 0,
        parent: 0,
        count: NO_ID,
    };
    IdMap {
        state: MapState::Written(1),
        lines: [fixed, NO_LINE, NO_LINE, NO_LINE, NO_LINE],
    }
}

// All places free but the first.
fn fill_processes(t: &mut Tables)
    ensures { tables_of t.new ≡ with_processes (tables_of t.old) initial_tables.processes }
{
    let mut places = [free_process(); PROCESS_PLACES];
    places[0] = first_process();
    for (i, p) in places.iter().enumerate() {
        process_put(t, i, *p);
    }
}

// No namespace in any place.
fn clear_namespaces(t: &mut Tables)
    ensures { tables_of t.new ≡ without_namespaces (tables_of t.old) }
{
    for i in 0..NAMESPACE_PLACES {
        namespace_clear(t, i);
    }
}

// No namespace but the initial one.
fn fill_namespaces(t: &mut Tables)
    ensures { tables_of t.new ≡ with_processes initial_tables (tables_of t.old).processes }
{
    clear_namespaces(t);
    namespace_put(t, 0, 0, 0, 0, false);
    map_put(t, 0, Kind::User, fixed_map(), [0; MAX_LINES]);
    map_put(t, 0, Kind::Group, fixed_map(), [0; MAX_LINES]);
}

// The initial tables, whatever stood in the array.
pub fn initial(t: &mut Tables)
    ensures { tables_of t.new ≡ initial_tables }
{
    fill_processes(t);
    fill_namespaces(t);
}
