// The records of the tables, processes and namespaces, and the rows of words that hold them: a row is read into a
// record, and a record is laid out as words that are read as it.
#![tactic(auto)]

ghost use Rattle.std.specs.Prelude.{◌≡◌};
ghost use Rattle.records.specs.Records.{is_written, state_count};

pub mod kinds;
pub mod namespaces;
pub mod processes;

use capability::CapabilitySet;
use idmap::{Line, MAX_LINES};

// The most supplementary groups that a process has.
pub const MAX_GROUPS: usize = 16;

// Which IDs a map or a call is about.
#[derive(Clone, Copy)]
pub enum Kind {
    User,
    Group,
}

// The IDs of one kind that a process has, all kernel IDs.
#[derive(Clone, Copy)]
pub struct Ids {
    pub real: u32,
    pub effective: u32,
    pub saved: u32,
}

// The supplementary groups of a process, kernel IDs: the first `count` of `ids`. There is no heap, and a row's count
// may be any number, so this is no list of at most 16.
#[derive(Clone, Copy)]
pub struct GroupList {
    pub count: u64,
    pub ids: [u32; MAX_GROUPS],
}

// IDs that are all 0, and no groups.
pub const ZERO_IDS: Ids = Ids {
    real: 0,
    effective: 0,
    saved: 0,
};

pub const NO_GROUPS: GroupList = GroupList {
    count: 0,
    ids: [0; MAX_GROUPS],
};

// A process, or that the place has none: `live` stands beside the fields and is no Option, since the definition
// `process_of` reads each row as a record, a free one too.
#[derive(Clone, Copy)]
pub struct Process {
    pub live: bool,
    pub namespace: u64,
    pub users: Ids,
    pub groups: Ids,
    pub supplementary: GroupList,
    pub permitted: CapabilitySet,
    pub effective: CapabilitySet,
}

// Whether a map is written, and with how many lines. No Option: document 01 names this enum, and the array beside it.
#[derive(Clone, Copy)]
pub enum MapState {
    Unwritten,
    Written(usize),
}

impl MapState {
    pub fn is_written(self) -> bool
        ensures { result ≡ is_written self }
    {
        matches!(self, MapState::Written(_))
    }

    // How many lines the map has: none before it is written.
    pub fn count(self) -> usize
        ensures { result ≡ state_count self }
    {
        match self {
            MapState::Unwritten => 0,
            MapState::Written(n) => n,
        }
    }
}

#[derive(Clone, Copy)]
pub struct IdMap {
    pub state: MapState,
    pub lines: [Line; MAX_LINES],
}

// A namespace, or that the place has none, as for a process: `namespace_of`. Its parent is a place and no box, and so is
// a process's namespace, since all tables stand in one lent array.
#[derive(Clone, Copy)]
pub struct Namespace {
    pub live: bool,
    pub parent: u64,
    pub level: u64,
    pub owner: u32,
    pub users: IdMap,
    pub groups: IdMap,
    pub deny: bool,
}
