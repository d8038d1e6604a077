// The next call of a journal, for programs in other languages, which are given numbers.
ghost use Rattle.std.specs.Prelude.{◌≡◌};
ghost use Rattle.calls.specs.Calls.{call_reply};
ghost use Rattle.journal.specs.Reading.{read_at, list_after};
ghost use Rattle.replay_step.specs.Replay.{Unchanged};
ghost use Rattle.exports.specs.Codes.{space_after};
ghost use Rattle.exports.specs.Replay.{response_code, response_ids, read_words, ids_after, step_at, CodedStep};

use crate::words::RECORD_WORDS;
use crate::{OWN_WORDS, answer_code, refusal, row, space, words};
use calls::Response;
use journal::MAX_IDS;
use replay_step::MAX_READ;
use tables::Tables;
use tables::answer::{Answer, Errno};

// The number of what a call answers: own IDs are the number of groups.
fn response_code(r: Result<Response, Errno>) -> u64
    ensures { result ≡ response_code r }
{
    match r {
        Ok(Response::Plain(a)) => answer_code(a),
        Ok(Response::Own(o)) => o.supplementary.count,
        Err(e) => refusal(e),
    }
}

// The new namespace of a clone, else 0.
fn new_namespace(r: Result<Response, Errno>) -> u64
    ensures { result ≡ space_after (call_reply r) 0 }
{
    match r {
        Ok(Response::Plain(a)) => space(Ok(a), 0),
        Ok(Response::Own(_)) | Err(_) => 0,
    }
}

// Stores own IDs where the answer is these.
fn put_own(r: Result<Response, Errno>, ids: &mut [u32; OWN_WORDS])
    ensures { ids.new ≡ response_ids r ids.old }
{
    if let Ok(Response::Own(o)) = r {
        *ids = row(o);
    }
}

// Reads the record at an offset of a journal, makes its call, and stores what stands there as words. At 0 the version
// byte is read, and the record after it. The IDs of the call's list, the text of a read and own IDs are put into what
// is lent for them. Ruled out, for instance: the offset asked for in place of the bad record's; a call's arguments in
// another order than the journal has them.
pub fn oarhatchet_replay(
    t: &mut Tables,
    journal: &[u8],
    at: usize,
    record: &mut [u64; RECORD_WORDS],
    list: &mut [u32; MAX_IDS],
    buffer: &mut [u8; MAX_READ],
    ids: &mut [u32; OWN_WORDS],
) -> u64
    ensures made { CodedStep result t.old t.new buffer.new (step_at t.old journal.now at buffer.old) }
    ensures unchanged { Unchanged (read_at journal.now at) t.old t.new }
    ensures words { «record».new ≡ read_words (read_at journal.now at) at (space_after (step_at t.old journal.now at buffer.old).reply 0) }
    ensures list { list.new ≡ list_after journal.now (read_at journal.now at) list.old }
    ensures ids { ids.new ≡ ids_after (step_at t.old journal.now at buffer.old).reply ids.old }
{
    // By cases, and not by one response for all of them: own IDs are many words, and each copy of one moves them.
    match replay_step::step(t, journal, at, list, buffer) {
        Ok(Some(r)) => {
            *record = words::found_words(r.record, new_namespace(r.answer));
            put_own(r.answer, ids);
            response_code(r.answer)
        }
        // Where there is no call, the answer is "done".
        Ok(None) => {
            *record = words::plain_words(0, at);
            answer_code(Answer::Done)
        }
        Err(s) => {
            *record = words::plain_words(s.why as u64, s.at);
            answer_code(Answer::Done)
        }
    }
}
