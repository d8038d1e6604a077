// The tables of processes and namespaces, in one array of words that the caller lends: loads and stores of records, the
// initial tables, and who is where. Nothing above this crate knows the layout.
#![tactic(auto)]

pub mod answer;
pub mod find;
pub mod initial;
pub mod namespaces;
pub mod processes;

use records::namespaces::NAMESPACE_WIDTH;
use records::processes::PROCESS_WIDTH;

// The places for processes, and those for namespaces.
pub const PROCESS_PLACES: usize = 128;

pub const NAMESPACE_PLACES: usize = 64;

// The highest level that a namespace has.
pub const MAX_LEVEL: u64 = 32;

// Where the tables start in the array: the processes, then the namespaces.
const PROCESSES_AT: usize = 0;

const NAMESPACES_AT: usize = PROCESSES_AT + PROCESS_PLACES * PROCESS_WIDTH;

// The words of both.
pub const TABLES_WIDTH: usize = NAMESPACES_AT + NAMESPACE_PLACES * NAMESPACE_WIDTH;

// An array and no struct with a model: a program lends it as words.
pub type Tables = [u64; TABLES_WIDTH];
