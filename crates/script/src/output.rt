// Output, gathered in a buffer that is written when it is full.
ghost use Rattle.std.specs.Prelude.{◌≡◌, []};

use arrayvec::ArrayVec;
use std::io;
use std::io::Write;

// The room for it.
const ROOM: usize = 65536;

// std's BufWriter would take memory from the heap, and after an error write once more.
#[derive(Drop)]
pub struct Output<W> {
    to: W,
    held: ArrayVec<u8, ROOM>,
}

impl<W: Write> Output<W> {
    // Nothing is held at first.
    pub fn new(to: W) -> Output<W>
        ensures { result.held.items ≡ [] }
    {
        Output {
            to,
            held: ArrayVec::new(),
        }
    }

    // Writes what is gathered, and then bytes that do not fit behind it. It stands apart so that the test for room is
    // inlined.
    #[cold]
    #[inline(never)]
    fn write_behind(&mut self, bytes: &[u8]) -> io::Result<()> {
        self.flush()?;
        if self.held.try_extend_from_slice(bytes).is_ok() {
            return Ok(());
        }
        self.to.write_all(bytes)
    }
}

impl<W: Write> Write for Output<W> {
    fn write(&mut self, bytes: &[u8]) -> io::Result<usize> {
        self.write_all(bytes)?;
        Ok(bytes.len())
    }

    #[inline(always)]
    fn write_all(&mut self, bytes: &[u8]) -> io::Result<()> {
        if self.held.try_extend_from_slice(bytes).is_ok() {
            return Ok(());
        }
        self.write_behind(bytes)
    }

    fn flush(&mut self) -> io::Result<()> {
        self.to.write_all(self.held.as_slice())?;
        self.held.clear();
        self.to.flush()
    }
}
