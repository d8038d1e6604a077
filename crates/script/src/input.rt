// The lines of an input, as its bytes come in.
use crate::lines::MAX_LINE;
use arrayvec::ArrayVec;
use std::io;
use std::io::Read;

// The most bytes that one read brings.
const PIECE: usize = 65536;

// The room for a line that is gathered: one byte more than a line may have shows that it is too long, so that nothing
// beside it has to say so.
const LINE_ROOM: usize = MAX_LINE + 1;

// What a program does with the lines of its input.
pub trait Lines {
    type Error: From<io::Error> + Drop;

    // Takes the next line, without its newline.
    fn take_line(&mut self, line: &[u8]) -> Result<(), Self::Error>;

    // Writes what is gathered, since the input's next byte may be long in coming.
    fn flush(&mut self) -> io::Result<()>;
}

// Takes a piece of the input, whose first line may have begun in the piece before it.
fn take<L: Lines>(
    lines: &mut L,
    piece: &[u8],
    line: &mut ArrayVec<u8, LINE_ROOM>,
) -> Result<(), L::Error> {
    for b in piece {
        if *b == b'\n' {
            lines.take_line(line.as_slice())?;
            line.clear();
        } else {
            // Where there is no room the line is too long already.
            let _ = line.try_push(*b);
        }
    }
    Ok(lines.flush()?)
}

// Reads an input to its end. Nothing says that it has one, so the turns are counted; 2 to the 64 of them never come.
pub fn serve<R: Read, L: Lines>(from: &mut R, lines: &mut L) -> Result<(), L::Error> {
    let mut piece = [0u8; PIECE];
    let mut line = ArrayVec::new();
    for _ in 0..u64::MAX {
        let n = from.read(&mut piece)?;
        if n == 0 {
            break;
        }
        take(lines, &piece[..n], &mut line)?;
    }
    // The last line, where it lacks its newline.
    if !line.is_empty() {
        lines.take_line(line.as_slice())?;
    }
    Ok(lines.flush()?)
}
