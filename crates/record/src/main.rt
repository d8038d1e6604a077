// Turns a script on standard input into a journal on standard output: docs/console.md and docs/journal.md have the
// forms. A line that has no record ends the journal, and standard error says which line it is and why.
#![tactic(auto)]

ghost use Rattle.std.specs.Prelude.{◌≤◌, IfOk};

use crate::ends::{Ended, Stop};
use journal::write::{Beside, write_record};
use journal::{MAX_RECORD, VERSION};
use script::input::{Lines, serve};
use script::lines::{Line, Parser};
use script::output::Output;
use std::io;
use std::io::Write;

mod ends;

// Turns lines into records.
#[derive(Drop)]
struct Recorder<W> {
    parser: Parser,
    record: [u8; MAX_RECORD],
    // The number of the next line.
    number: u64,
    out: Output<W>,
}

impl<W: Write> Recorder<W> {
    // Makes the record of a line, and answers how many bytes it has, which are none of a blank line and of a comment. It
    // answers no slice, since this would lend all of the recorder while its output is written.
    #[tactic(auto, unfolding(journal::specs::Journal::write_of))]
    fn record(&mut self, line: &[u8]) -> Result<usize, Stop>
        ensures { IfOk result (λ n. n ≤ 65537) }
    {
        match self.parser.parse(line)? {
            Line::Blank => Ok(0),
            Line::Fresh => Err(Stop::Fresh),
            Line::Call(call, lent) => {
                let beside = Beside {
                    text: lent.text,
                    list: lent.list,
                    buffer_length: lent.buffer.map_or(0, |length| length.bytes as u64),
                };
                Ok(write_record(call, &beside, &mut self.record, 0)?)
            }
        }
    }
}

impl<W: Write> Lines for Recorder<W> {
    type Error = Ended;

    fn take_line(&mut self, line: &[u8]) -> Result<(), Ended> {
        let number = self.number;
        let n = self.record(line).map_err(|why| Ended::AtLine(number, why))?;
        self.out.write_all(&self.record[..n])?;
        self.number = number.wrapping_add(1);
        Ok(())
    }

    fn flush(&mut self) -> io::Result<()> {
        self.out.flush()
    }
}

fn main(rt: HostRuntime) -> io::Result<()> {
    let mut recorder = Recorder {
        parser: Parser::new(),
        record: [0; MAX_RECORD],
        number: 1,
        out: Output::new(rt.stdout()),
    };
    recorder.out.write_all(&[VERSION])?;
    match serve(&mut rt.stdin(), &mut recorder) {
        Ok(()) => Ok(()),
        Err(Ended::Failed(error)) => Err(error),
        Err(Ended::AtLine(number, why)) => {
            recorder.flush()?;
            eprintln!(rt; "line {number}: {why}")
        }
    }
}
