// Reads calls from standard input, a line for each, and writes an answer line for each: docs/console.md has the form.
#![tactic(auto)]

use calls::Call;
use script::answers::{Answered, Quoted};
use script::input::{Lines, serve};
use script::lines::{BufferLength, Lent, Line, MAX_BUFFER, Malformed, Parser};
use script::output::Output;
use std::io;
use std::io::Write;
use tables::{TABLES_WIDTH, Tables};

// The tables that calls are made on, the room for the buffer of a read, and where answers go.
#[derive(Drop)]
struct Host<'a, W> {
    tables: &'a mut Tables,
    buffer: [u8; MAX_BUFFER],
    out: Output<W>,
}

impl<W: Write> Host<'_, W> {
    // A read. Each byte of its buffer is a dot before the call.
    fn read(&mut self, call: Call, length: BufferLength) -> io::Result<()> {
        let Host {
            tables,
            buffer,
            out,
        } = self;
        let buffer = &mut buffer[..length.bytes];
        buffer.fill(b'.');
        let answer = calls::answer(tables, call, b"", &[], buffer);
        writeln!(out, "{} {}", Answered(answer), Quoted(buffer))
    }

    // Makes a call with what is lent to it.
    fn call(&mut self, call: Call, lent: Lent<'_>) -> io::Result<()> {
        if let Some(length) = lent.buffer {
            return self.read(call, length);
        }
        let answer = calls::answer(self.tables, call, lent.text, lent.list, &mut []);
        writeln!(self.out, "{}", Answered(answer))
    }

    fn fresh(&mut self) -> io::Result<()> {
        tables::initial::initial(self.tables);
        self.out.write_all(b"fresh\n")
    }
}

// Answers lines, and writes nothing for a comment and for a blank one.
#[derive(Drop)]
struct Console<'a, W> {
    parser: Parser,
    host: Host<'a, W>,
}

impl<W: Write> Lines for Console<'_, W> {
    type Error = io::Error;

    fn take_line(&mut self, line: &[u8]) -> io::Result<()> {
        match self.parser.parse(line) {
            Ok(Line::Blank) => Ok(()),
            Ok(Line::Fresh) => self.host.fresh(),
            Ok(Line::Call(call, lent)) => self.host.call(call, lent),
            Err(Malformed) => self.host.out.write_all(b"malformed\n"),
        }
    }

    fn flush(&mut self) -> io::Result<()> {
        self.host.out.flush()
    }
}

fn main(rt: HostRuntime) -> io::Result<()> {
    let mut tables = [0u64; TABLES_WIDTH];
    tables::initial::initial(&mut tables);
    let mut console = Console {
        parser: Parser::new(),
        host: Host {
            tables: &mut tables,
            buffer: [0; MAX_BUFFER],
            out: Output::new(rt.stdout()),
        },
    };
    serve(&mut rt.stdin(), &mut console)
}
