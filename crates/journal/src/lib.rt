// Calls as bytes, both ways: docs/journal.md has the format.
#![tactic(auto)]

pub mod layout;
mod numbers;
pub mod read;
pub mod write;

// The version byte of a journal.
pub const VERSION: u8 = 1;

// The bytes of a record's length, and the most that it can say.
pub const SIZE_BYTES: usize = 2;

pub const MAX_SIZE: usize = 65535;

// The bytes of the longest record.
pub const MAX_RECORD: usize = SIZE_BYTES + MAX_SIZE;

// The bytes of a name or a capability set, and of any other number.
pub const NAME_BYTES: usize = 8;

pub const NUMBER_BYTES: usize = 4;

// The most IDs that a record has.
pub const MAX_IDS: usize = (MAX_SIZE - 1 - NAME_BYTES) / NUMBER_BYTES;
