// Answers as text.
ghost use Rattle.std.specs.Prelude.{◌≡◌, take, length, IfSome};

use calls::Response;
use credentials::own::OwnIds;
use records::Ids;
use std::fmt;
use tables::answer::{Answer, Errno};

// A refusal's number and name.
#[derive(Clone, Copy)]
pub struct Refused(pub Errno);

impl fmt::Display for Refused {
    fn fmt<W: fmt::Write>(&self, f: &mut fmt::Formatter<W>) -> fmt::Result {
        write!(f, "refused {} {:?}", self.0 as u64, self.0)
    }
}

// Three IDs, each after a space.
#[derive(Clone, Copy)]
struct ThreeIds(Ids);

impl fmt::Display for ThreeIds {
    fn fmt<W: fmt::Write>(&self, f: &mut fmt::Formatter<W>) -> fmt::Result {
        let Ids {
            real,
            effective,
            saved,
        } = self.0;
        write!(f, " {real} {effective} {saved}")
    }
}

// A list of IDs, each after a space.
#[derive(Clone, Copy)]
struct List<'a>(&'a [u32]);

impl fmt::Display for List<'_> {
    fn fmt<W: fmt::Write>(&self, f: &mut fmt::Formatter<W>) -> fmt::Result {
        for id in self.0 {
            write!(f, " {id}")?;
        }
        Ok(())
    }
}

// A process's own IDs.
#[derive(Clone, Copy)]
struct Own(OwnIds);

impl fmt::Display for Own {
    fn fmt<W: fmt::Write>(&self, f: &mut fmt::Formatter<W>) -> fmt::Result {
        let users = ThreeIds(self.0.users);
        let groups = ThreeIds(self.0.groups);
        write!(f, "uid{users} gid{groups} groups")?;
        let list = self.0.supplementary;
        let count = (list.count as usize).min(list.ids.len());
        write!(f, "{}", List(&list.ids[..count]))
    }
}

// An answer that is no refusal and no own IDs.
#[derive(Clone, Copy)]
struct Plain(Answer);

impl fmt::Display for Plain {
    fn fmt<W: fmt::Write>(&self, f: &mut fmt::Formatter<W>) -> fmt::Result {
        match self.0 {
            Answer::Done => f.write_str("done"),
            Answer::Child(process) => write!(f, "child {process}"),
            Answer::ChildIn(process, name) => write!(f, "child {process} namespace {name}"),
            Answer::NewNamespace(name) => write!(f, "namespace {name}"),
            Answer::Yes => f.write_str("yes"),
            Answer::No => f.write_str("no"),
            Answer::Length(length) => write!(f, "length {length}"),
            Answer::Id(id) => write!(f, "id {id}"),
            Answer::Unmapped => f.write_str("unmapped"),
        }
    }
}

// What a call answers.
#[derive(Clone, Copy)]
pub struct Answered(pub Result<Response, Errno>);

impl fmt::Display for Answered {
    fn fmt<W: fmt::Write>(&self, f: &mut fmt::Formatter<W>) -> fmt::Result {
        match self.0 {
            Ok(Response::Plain(answer)) => write!(f, "{}", Plain(answer)),
            Ok(Response::Own(ids)) => write!(f, "{}", Own(ids)),
            Err(e) => write!(f, "{}", Refused(e)),
        }
    }
}

// The text that a read put at the front of its buffer, if the answer is one of a read.
pub fn text_read(answer: Result<Response, Errno>, buffer: &[u8]) -> Option<&[u8]>
    ensures { IfSome result (λ text. text.now ≡ take (length text.now) buffer.now) }
{
    match answer {
        Ok(Response::Plain(Answer::Length(length))) => buffer.get(..length),
        _ => None,
    }
}

// A text in quotes, with its escapes.
#[derive(Clone, Copy)]
pub struct Quoted<'a>(pub &'a [u8]);

// Whether a byte of a text is printed as it is.
fn is_plain(b: u8) -> bool {
    matches!(b, b' '..=b'~') && !matches!(b, b'"' | b'\\')
}

fn write_escaped<W: fmt::Write>(f: &mut fmt::Formatter<W>, b: u8) -> fmt::Result {
    match b {
        b'\n' => f.write_str("\\n"),
        b'\t' => f.write_str("\\t"),
        b'"' => f.write_str("\\\""),
        b'\\' => f.write_str("\\\\"),
        b' '..=b'~' => f.write_char(char::from(b)),
        _ => write!(f, "\\x{b:02x}"),
    }
}

// Writes plain bytes, or one that is not. The plain ones are written as one text, since one by one takes twice as long.
fn write_part<W: fmt::Write>(f: &mut fmt::Formatter<W>, part: &[u8]) -> fmt::Result {
    match (part, str::from_utf8(part)) {
        ([_, _, ..], Ok(plain)) => f.write_str(plain),
        _ => {
            for b in part {
                write_escaped(f, *b)?;
            }
            Ok(())
        }
    }
}

impl fmt::Display for Quoted<'_> {
    fn fmt<W: fmt::Write>(&self, f: &mut fmt::Formatter<W>) -> fmt::Result {
        f.write_str("\"")?;
        for part in self.0.chunk_by(|a, b| is_plain(*a) && is_plain(*b)) {
            write_part(f, part)?;
        }
        f.write_str("\"")
    }
}
