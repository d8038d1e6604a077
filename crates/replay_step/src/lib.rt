// Makes the call of one record of a journal, so that a loop over it makes all of them.
#![tactic(auto)]

ghost use Rattle.std.specs.Prelude.{◌≡◌, ◌+◌, ◌≤◌, length};
ghost use Rattle.tables.specs.Tables.{tables_of};
ghost use Rattle.calls.specs.Calls.{CallPromise};
ghost use Rattle.journal.specs.Reading.{read_at, list_after};
ghost use Rattle.replay_step.specs.Replay.{read_in, answer_in, made_of, replay_of, Inside, Unchanged};

use calls::Response;
use idmap::MAX_LINES;
use idmap::show::LINE_BYTES;
use journal::MAX_IDS;
use journal::read::{Record, Stopped, read_record};
use tables::Tables;
use tables::answer::Errno;

// The bytes of the longest text that a read gives: the lines of a full map.
pub const MAX_READ: usize = MAX_LINES * LINE_BYTES;

// A record that stands at an offset, and what its call was answered.
#[derive(Clone, Copy)]
pub struct Replayed {
    pub record: Record,
    pub answer: Result<Response, Errno>,
}

// Makes the call of a record. The text is a part of the journal, and the buffer of a read is as much of the lent one as
// it is long.
fn make(
    t: &mut Tables,
    r: Record,
    journal: &[u8],
    list: &[u32],
    buffer: &mut [u8],
) -> Result<Response, Errno>
    requires { Inside r journal.now list.now }
    ensures { CallPromise result t.old t.new buffer.new (made_of (tables_of t.old) r journal.now list.now buffer.old) }
{
    let end = r.tail + r.text;
    let length = (r.buffer as usize).min(buffer.len());
    calls::answer(
        t,
        r.call,
        &journal[r.tail..end],
        &list[..r.ids],
        &mut buffer[..length],
    )
}

// Reads the record at an offset of a journal and makes its call. At 0 the version byte is read, and the record after
// it. The list of the call is put into the lent array, and the text of a read into the lent buffer. Ruled out, for
// instance: a call of a record that is bad; the answer of another record than the one at the offset.
pub fn step(
    t: &mut Tables,
    journal: &[u8],
    at: usize,
    list: &mut [u32; MAX_IDS],
    buffer: &mut [u8; MAX_READ],
) -> Result<Option<Replayed>, Stopped>
    ensures read { read_in result ≡ read_at journal.now at }
    ensures ids { list.new ≡ list_after journal.now (read_at journal.now at) list.old }
    ensures made { CallPromise (answer_in result) t.old t.new buffer.new (replay_of (tables_of t.old) journal.now (read_at journal.now at) buffer.old) }
    ensures unchanged { Unchanged (read_at journal.now at) t.old t.new }
{
    let Some(record) = read_record(journal, at, list)? else {
        return Ok(None);
    };
    let answer = make(t, record, journal, list, buffer);
    Ok(Some(Replayed { record, answer }))
}
