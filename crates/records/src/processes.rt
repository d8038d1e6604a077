// A process and its row of words. The two become one another by functions and not by From: contracts name the definitions
// that these functions are, and `process_of` takes a row of any length.
ghost use Rattle.std.specs.Prelude.{◌≡◌, ◌+◌, ◌≤◌, [], ◌∷◌};
ghost use Rattle.records.specs.Records.{ids_at, process_width, free_process, process_of, process_from};

use crate::{GroupList, Ids, MAX_GROUPS, NO_GROUPS, Process, ZERO_IDS};
use capability::CapabilitySet;
use idmap::low;

// The words of the IDs of one kind.
const IDS_WIDTH: usize = 3;

// Where the parts of a process stand in its row.
const LIVE: usize = 0;

const NAMESPACE: usize = LIVE + 1;

const USERS: usize = NAMESPACE + 1;

const GROUPS: usize = USERS + IDS_WIDTH;

const SUPPLEMENTARY: usize = GROUPS + IDS_WIDTH;

const PERMITTED: usize = SUPPLEMENTARY + 1 + MAX_GROUPS;

const EFFECTIVE: usize = PERMITTED + 1;

// The words of a process's row.
pub const PROCESS_WIDTH: usize = EFFECTIVE + 1;

// The three IDs of a kind, from a place of a row on.
fn ids_at(row: &[u64; PROCESS_WIDTH], at: usize) -> Ids
    requires { at + 3 ≤ process_width }
    ensures { result ≡ ids_at row.now at }
{
    Ids {
        real: low(row[at]),
        effective: low(row[at + 1]),
        saved: low(row[at + 2]),
    }
}

// The record of a whole row. IDs are kept in the low 32 bits of their words.
fn read_process(row: &[u64; PROCESS_WIDTH]) -> Process
    ensures { result ≡ process_of row.now }
{
    Process {
        live: row[LIVE] == 1,
        namespace: row[NAMESPACE],
        users: ids_at(row, USERS),
        groups: ids_at(row, GROUPS),
        supplementary: GroupList {
            count: row[SUPPLEMENTARY],
            // By name: of `from_fn` and of `map` over 16 places this was not proved.
            ids: [
                low(row[SUPPLEMENTARY + 1]),
                low(row[SUPPLEMENTARY + 2]),
                low(row[SUPPLEMENTARY + 3]),
                low(row[SUPPLEMENTARY + 4]),
                low(row[SUPPLEMENTARY + 5]),
                low(row[SUPPLEMENTARY + 6]),
                low(row[SUPPLEMENTARY + 7]),
                low(row[SUPPLEMENTARY + 8]),
                low(row[SUPPLEMENTARY + 9]),
                low(row[SUPPLEMENTARY + 10]),
                low(row[SUPPLEMENTARY + 11]),
                low(row[SUPPLEMENTARY + 12]),
                low(row[SUPPLEMENTARY + 13]),
                low(row[SUPPLEMENTARY + 14]),
                low(row[SUPPLEMENTARY + 15]),
                low(row[SUPPLEMENTARY + 16]),
            ],
        },
        permitted: CapabilitySet {
            bits: row[PERMITTED],
        },
        effective: CapabilitySet {
            bits: row[EFFECTIVE],
        },
    }
}

// The three IDs of a kind as words.
fn id_words(ids: Ids) -> [u64; IDS_WIDTH]
    ensures { result ≡ ids.real ∷ ids.effective ∷ ids.saved ∷ [] }
{
    [ids.real as u64, ids.effective as u64, ids.saved as u64]
}

// The IDs of groups as words.
fn group_words(ids: [u32; MAX_GROUPS]) -> [u64; MAX_GROUPS]
    ensures { result ≡ ids }
{
    ids.map(|id| id as u64)
}

// The row of a record: the words that are read as it.
pub fn process_words(p: Process) -> [u64; PROCESS_WIDTH]
    ensures { process_of result ≡ p }
{
    let mut row = [0; PROCESS_WIDTH];
    row[LIVE] = p.live as u64;
    row[NAMESPACE] = p.namespace;
    row[USERS..GROUPS].copy_from_slice(&id_words(p.users));
    row[GROUPS..SUPPLEMENTARY].copy_from_slice(&id_words(p.groups));
    row[SUPPLEMENTARY] = p.supplementary.count;
    row[SUPPLEMENTARY + 1..PERMITTED].copy_from_slice(&group_words(p.supplementary.ids));
    row[PERMITTED] = p.permitted.bits;
    row[EFFECTIVE] = p.effective.bits;
    row
}

// A record of no process.
pub fn free_process() -> Process
    ensures { result ≡ free_process }
{
    Process {
        live: false,
        namespace: 0,
        users: ZERO_IDS,
        groups: ZERO_IDS,
        supplementary: NO_GROUPS,
        permitted: CapabilitySet::EMPTY,
        effective: CapabilitySet::EMPTY,
    }
}

// The record that a row holds. A row of another length holds none. As `namespace_of`, it is not generic over both.
#[tactic(auto, unfolding(crate::specs::Records::process_from))]
pub fn process_of(row: &[u64]) -> Process
    ensures { result ≡ process_from row.now }
{
    match <&[u64; PROCESS_WIDTH]>::try_from(row) {
        Ok(row) => read_process(row),
        Err(_) => free_process(),
    }
}
