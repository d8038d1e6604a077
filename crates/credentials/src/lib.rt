// The calls about a process's credentials: ID changes, setgroups, own IDs, the capability question, drop and translate.
#![tactic(auto)]

pub mod capability_calls;
pub mod groups;
pub mod ids;
pub mod own;
pub mod translate;
