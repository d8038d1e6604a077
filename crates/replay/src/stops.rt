// What stops a replay, in words.
use journal::read::Stop;
use std::fmt;

// Why a journal stops.
#[derive(Clone, Copy)]
pub struct Why(pub Stop);

impl fmt::Display for Why {
    fn fmt<W: fmt::Write>(&self, f: &mut fmt::Formatter<W>) -> fmt::Result {
        let words = match self.0 {
            Stop::Version => "version missing or unknown",
            Stop::Cut => "record cut off",
            Stop::Short => "short record",
            Stop::UnknownCall => "unknown call byte",
            Stop::Leftover => "leftover bytes",
        };
        f.write_str(words)
    }
}
