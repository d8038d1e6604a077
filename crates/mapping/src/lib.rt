// The map files and the setgroups file of a process's namespace: writes and reads.
#![tactic(auto)]

pub mod read;
pub mod setgroups;
pub mod write;
