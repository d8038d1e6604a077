// A part of the journal in a buffer, the window: the version byte, and behind it what is read and not replayed.
ghost use Rattle.std.specs.Prelude.{◌≤◌};

use journal::MAX_RECORD;
use std::io;
use std::io::Read;

// The room for it. The version byte and two of the longest records fit.
pub const WINDOW_ROOM: usize = 1 + 2 * MAX_RECORD;

// The buffer has its length beside it, since a read asks for bytes to read into, and there is no heap.
#[derive(Drop)]
pub struct Window {
    bytes: [u8; WINDOW_ROOM],
    filled: usize,
    // Where the next record stands.
    pub at: usize,
    // How many bytes of the journal are dropped.
    dropped: u64,
    ghost in_room: { filled ≤ 131075 },
}

impl Window {
    pub fn new() -> Window {
        Window {
            bytes: [0; WINDOW_ROOM],
            filled: 0,
            at: 0,
            dropped: 0,
        }
    }

    // The bytes that the window has.
    pub fn held(&self) -> &[u8] {
        &self.bytes[..self.filled]
    }

    // The place in the journal of a place in the window.
    pub fn offset(&self, at: usize) -> u64 {
        self.dropped.wrapping_add(at as u64)
    }

    // Drops what is replayed, but for the version byte.
    fn drop_replayed(&mut self) {
        let at = self.at;
        let filled = self.filled;
        if 1 < at && at <= filled {
            self.bytes.copy_within(at..filled, 1);
            self.filled = filled - (at - 1);
            self.at = 1;
            self.dropped = self.dropped.wrapping_add((at - 1) as u64);
        }
    }

    // Reads on where no whole record is left, as much as there is room for, and answers how many bytes that are.
    pub fn read_on<R: Read>(&mut self, from: &mut R) -> io::Result<usize> {
        self.drop_replayed();
        let filled = self.filled;
        let n = from.read(&mut self.bytes[filled..])?;
        self.filled = filled + n;
        Ok(n)
    }
}
