// The records of calls, for programs in other languages that keep a journal, which are given numbers.
ghost use Rattle.std.specs.Prelude.{◌≡◌};
ghost use Rattle.journal.specs.Layout.{template_of};
ghost use Rattle.exports.specs.Journal.{written_code, write_by, buffer_after};

use crate::refusal;
use journal::write::Beside;
use journal::{layout, write};
use tables::answer::Errno;

// The bytes of a record, or the number of a refusal, negated.
fn bytes(w: Result<usize, Errno>) -> u64
    ensures { result ≡ written_code w }
{
    match w {
        Ok(n) => n as u64,
        Err(e) => refusal(e),
    }
}

// Writes the record of the call that has this call byte into a buffer from a place on. Its names, the caller first, and
// its other numbers stand in order in the two arrays; of a read the buffer's length stands beside them. What the call
// does not have is not looked at.
pub fn oarhatchet_write_record(
    call: u8,
    names: &[u64; 3],
    numbers: &[u32; 3],
    text: &[u8],
    list: &[u32],
    length: u64,
    buffer: &mut [u8],
    at: usize,
) -> u64
    ensures answer { result ≡ written_code (write_by (template_of call) names.now numbers.now text.now list.now length buffer.old at) }
    ensures bytes { buffer.new ≡ buffer_after (template_of call) names.now numbers.now text.now list.now length buffer.old at }
{
    match layout::template_of(call) {
        Some(d) => {
            let c = layout::call_by(d, names, numbers);
            let beside = Beside {
                text,
                list,
                buffer_length: length,
            };
            bytes(write::write_record(c, &beside, buffer, at))
        }
        None => refusal(Errno::EINVAL),
    }
}
