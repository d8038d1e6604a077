// What stands at an offset of a journal, as the words that C is given, which are numbers and no types of their own.
ghost use Rattle.std.specs.Prelude.{◌≡◌};
ghost use Rattle.exports.specs.Replay.{found_words, plain_words};

use journal::layout;
use journal::read::Record;

// The words of what stands at an offset: what it is, three names, three other numbers, where these end and the call's
// text or list starts, the bytes of the one, the IDs of the other, an offset, and the new namespace of a clone.
pub const RECORD_WORDS: usize = 12;

// The words where there is no call: what there is, and its offset.
pub(crate) fn plain_words(what: u64, offset: usize) -> [u64; RECORD_WORDS]
    ensures { result ≡ plain_words what offset }
{
    [what, 0, 0, 0, 0, 0, 0, 0, 0, 0, offset as u64, 0]
}

// The words of a call.
pub(crate) fn found_words(r: Record, namespace: u64) -> [u64; RECORD_WORDS]
    ensures { result ≡ found_words r namespace }
{
    let c = r.call;
    let names = layout::names_of(c);
    let numbers = layout::numbers_of(c, r.buffer as u64);
    [
        layout::byte_of(c) as u64,
        names[0],
        names[1],
        names[2],
        numbers[0],
        numbers[1],
        numbers[2],
        r.tail as u64,
        r.text as u64,
        r.ids as u64,
        r.next as u64,
        namespace,
    ]
}
