// What a call answers: document 01's answers but a process's own IDs, which have a type of their own, and its refusals
// under Linux' names.

// The refusals, with their numbers.
#[derive(Clone, Copy, Debug)]
pub enum Errno {
    EPERM = 1,
    ESRCH = 3,
    EAGAIN = 11,
    EINVAL = 22,
    ENOSPC = 28,
    ERANGE = 34,
    EUSERS = 87,
}

// What a call answers where it does not refuse.
#[derive(Clone, Copy)]
pub enum Answer {
    Done,
    Child(u64),
    ChildIn(u64, u64),
    NewNamespace(u64),
    Yes,
    No,
    Length(usize),
    // A translation: an ID, or that it has none.
    Id(u32),
    Unmapped,
}
