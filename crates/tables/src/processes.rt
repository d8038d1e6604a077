// The process table. It and the namespace table have no functions generic over both: a trait's members would be all of
// what these do.
ghost use Rattle.std.specs.Prelude.{◌≡◌};
ghost use Rattle.tables.specs.Tables.{tables_of, process_at, put_process};

use crate::{PROCESS_PLACES, PROCESSES_AT, Tables};
use records::Process;
use records::processes::{PROCESS_WIDTH, free_process, process_of, process_words};

// The process in a place of the table. A place past the end is free.
pub fn process_at(t: &Tables, place: usize) -> Process
    ensures { result ≡ process_at (tables_of t.now) place }
{
    if place < PROCESS_PLACES {
        process_of(rows::get(t, PROCESSES_AT + place * PROCESS_WIDTH, PROCESS_WIDTH))
    } else {
        free_process()
    }
}

// Stores a process in a place of the table. A place past the end takes nothing.
pub fn process_put(t: &mut Tables, place: usize, p: Process)
    ensures { tables_of t.new ≡ put_process (tables_of t.old) place p }
{
    if place < PROCESS_PLACES {
        rows::put(t, PROCESSES_AT + place * PROCESS_WIDTH, &process_words(p));
    }
}
