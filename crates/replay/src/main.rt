// Makes the calls of a journal on standard input and prints each answer: docs/journal.md has both forms.
#![tactic(auto)]

use crate::stops::Why;
use crate::window::Window;
use calls::Response;
use journal::MAX_IDS;
use journal::read::{Stop, Stopped};
use replay_step::{MAX_READ, step};
use script::answers::{Answered, Quoted, text_read};
use script::output::Output;
use std::io;
use std::io::{Read, Write};
use tables::answer::Errno;
use tables::{TABLES_WIDTH, Tables};

mod stops;
mod window;

// The tables that calls are made on, the journal, what is lent to its calls, and where answers go.
#[derive(Drop)]
struct Replay<'a, W> {
    tables: &'a mut Tables,
    window: Window,
    list: [u32; MAX_IDS],
    buffer: [u8; MAX_READ],
    out: Output<W>,
}

impl<W: Write> Replay<'_, W> {
    // Prints the answer of a call: of a read with the bytes that it read after it.
    fn print(&mut self, answer: Result<Response, Errno>) -> io::Result<()> {
        match text_read(answer, &self.buffer) {
            Some(text) => writeln!(self.out, "{} {}", Answered(answer), Quoted(text)),
            None => writeln!(self.out, "{}", Answered(answer)),
        }
    }

    // Makes the calls of the whole records that the window has, and answers what stops the next one, if anything does.
    // The turns are counted, as in `serve`.
    fn replay_whole(&mut self) -> io::Result<Option<Stopped>> {
        for _ in 0..u64::MAX {
            match step(
                self.tables,
                self.window.held(),
                self.window.at,
                &mut self.list,
                &mut self.buffer,
            ) {
                Ok(Some(replayed)) => {
                    self.print(replayed.answer)?;
                    self.window.at = replayed.record.next;
                }
                Ok(None) => return Ok(None),
                Err(stopped) => return Ok(Some(stopped)),
            }
        }
        Ok(None)
    }

    // Reads the input to its end or to a stop. Nothing says that it has an end, so the turns are counted; 2 to the 64
    // of them never come.
    fn serve<R: Read>(&mut self, from: &mut R) -> io::Result<Option<Stopped>> {
        for _ in 0..u64::MAX {
            let n = self.window.read_on(from)?;
            let stopped = self.replay_whole()?;
            self.out.flush()?;
            // More input may complete a record that is cut off.
            if n == 0 || !matches!(stopped, None | Some(Stopped { why: Stop::Cut, .. })) {
                return Ok(stopped);
            }
        }
        Ok(None)
    }
}

fn main(rt: HostRuntime) -> io::Result<()> {
    let mut tables = [0u64; TABLES_WIDTH];
    tables::initial::initial(&mut tables);
    let mut replay = Replay {
        tables: &mut tables,
        window: Window::new(),
        list: [0; MAX_IDS],
        buffer: [0; MAX_READ],
        out: Output::new(rt.stdout()),
    };
    if let Some(stopped) = replay.serve(&mut rt.stdin())? {
        let offset = replay.window.offset(stopped.at);
        writeln!(replay.out, "stopped at {offset}: {}", Why(stopped.why))?;
        replay.out.flush()?;
    }
    Ok(())
}
