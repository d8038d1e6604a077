// Who is where: callers, the processes and namespaces that they name, the lowest places that are unused, and the
// numbers that places stand for.
ghost use Rattle.std.specs.Prelude.{◌≡◌, ◌<◌};
ghost use Rattle.tables.specs.Tables.{process_places, tables_of};
ghost use Rattle.tables.specs.Find.{process_number, namespace_number, caller_named, process_named, namespace_named, free_process_place, free_namespace_place, free_as};

use crate::namespaces::namespace_at;
use crate::processes::process_at;
use crate::{NAMESPACE_PLACES, PROCESS_PLACES, Tables};

// The number of the process in a place: process 1 is in place 0.
fn process_number(place: usize) -> u64
    requires { place < process_places }
    ensures { result ≡ process_number place }
{
    place as u64 + 1
}

// The number of the namespace in a place: namespace 0 is in place 0. A function as the one above, since definitions name
// both.
fn namespace_number(place: usize) -> u64
    ensures { result ≡ namespace_number place }
{
    place as u64
}

// The place of the process that calls, by its number.
#[tactic(auto, unfolding(crate::specs::Find::caller_named))]
pub fn find_caller(t: &Tables, caller: u64) -> Option<usize>
    ensures { result ≡ caller_named (tables_of t.now) caller }
{
    if caller == 0 {
        return None;
    }
    let place = (caller - 1) as usize;
    if process_at(t, place).live {
        Some(place)
    } else {
        None
    }
}

// The place of the process that the process at `caller` names. Every caller may name every process.
#[tactic(auto, unfolding(crate::specs::Find::process_named))]
pub fn named_process(t: &Tables, caller: usize, name: u64) -> Option<usize>
    ensures { result ≡ process_named (tables_of t.now) caller name }
{
    find_caller(t, name)
}

// The place of the namespace that the process at `caller` names. Every caller may name every namespace. Neither this
// nor the search below is generic over the two tables: a trait's members would be all of what they do.
#[tactic(auto, unfolding(crate::specs::Find::namespace_named))]
pub fn named_namespace(t: &Tables, caller: usize, name: u64) -> Option<usize>
    ensures { result ≡ namespace_named (tables_of t.now) caller name }
{
    let place = name as usize;
    if namespace_at(t, place).live {
        Some(place)
    } else {
        None
    }
}

// The lowest place with no process, and the number of what is put there. By `position`, unlike the search below: over
// this many places a `find` took a quarter longer for each.
pub fn free_process_place(t: &Tables) -> Option<(usize, u64)>
    ensures { result ≡ free_as process_number (free_process_place (tables_of t.now)) }
{
    let place = (0..PROCESS_PLACES).position(|i| !process_at(t, i).live)?;
    Some((place, process_number(place)))
}

// The lowest place with no namespace, and the number of what is put there.
pub fn free_namespace_place(t: &Tables) -> Option<(usize, u64)>
    ensures { result ≡ free_as namespace_number (free_namespace_place (tables_of t.now)) }
{
    let place = (0..NAMESPACE_PLACES).find(|i| !namespace_at(t, *i).live)?;
    Some((place, namespace_number(place)))
}
