// Walks along the hierarchy of namespaces: who holds a capability; and translation, which the kernel starts of the
// lines make one lookup. The walk takes at most as many steps as there are levels, so it is safe and ends on any
// contents of the tables.
#![tactic(auto)]

pub mod capable;
pub mod translate;
