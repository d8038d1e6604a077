// The writer: a call's record, put into a buffer that the caller lends. A buffer and a place in it go together, and each
// function asks for the room of what it stores.
ghost use Rattle.std.specs.Prelude.{◌≡◌, ◌+◌, ◌≤◌, length};
ghost use Rattle.prelude.specs.Parts.{put_at};
ghost use Rattle.journal.specs.Journal.{tail_of, body_of, record_of, long_buffer, write_of, buffer_by};

use crate::layout::Lent;
use crate::{MAX_SIZE, NAME_BYTES, NUMBER_BYTES, SIZE_BYTES, layout, numbers};
use calls::Call;
use idmap::TWO_TO_32;
use tables::answer::Errno;

// What is lent beside a call: a text, a list, and how long a read's buffer is, which of a record may be any number.
#[derive(Clone, Copy)]
pub struct Beside<'a> {
    pub text: &'a [u8],
    pub list: &'a [u32],
    pub buffer_length: u64,
}

// The bytes of what runs to a record's end.
#[tactic(auto, using(crate::proofs::BigEndian::length_all))]
fn tail_bytes(lent: Lent, beside: &Beside) -> usize
    ensures { result ≡ length (tail_of lent beside.now.text.now beside.now.list.now) }
{
    match lent {
        Lent::Nothing | Lent::Buffer => 0,
        Lent::Text => beside.text.len(),
        Lent::Groups => beside.list.len() * NUMBER_BYTES,
    }
}

// Stores a text byte by byte: `copy_from_slice` of a length that is known only when it runs is a call of memmove, which
// the archive for C would then ask of its host.
fn put_text(buffer: &mut [u8], at: usize, text: &[u8])
    requires { at + length text.now ≤ length buffer.old }
    ensures { buffer.new ≡ put_at buffer.old at text.now }
{
    for (i, b) in text.iter().enumerate() {
        buffer[at + i] = *b;
    }
}

#[tactic(auto, using(crate::proofs::Puts::put_nothing))]
fn put_tail(buffer: &mut [u8], at: usize, lent: Lent, beside: &Beside)
    requires { at + length (tail_of lent beside.now.text.now beside.now.list.now) ≤ length buffer.old }
    ensures { buffer.new ≡ put_at buffer.old at (tail_of lent beside.now.text.now beside.now.list.now) }
{
    match lent {
        Lent::Nothing | Lent::Buffer => {}
        Lent::Text => put_text(buffer, at, beside.text),
        Lent::Groups => numbers::put_numbers(buffer, at, NUMBER_BYTES, beside.list),
    }
}

// Whether a buffer's length needs over four bytes.
fn long_buffer(lent: Lent, buffer_length: u64) -> bool
    ensures { result ≡ long_buffer buffer_length lent }
{
    matches!(lent, Lent::Buffer) && buffer_length >= TWO_TO_32
}

// Stores a record, whose length is `size`.
#[tactic(auto, using(crate::proofs::Layouts::few_names, crate::proofs::Layouts::few_numbers, crate::proofs::Writes::body_size, crate::proofs::Writes::taken_long))]
fn put_record(buffer: &mut [u8], at: usize, size: usize, c: Call, beside: &Beside)
    requires size { size ≡ length (body_of c beside.now.text.now beside.now.list.now beside.now.buffer_length) }
    requires room { at + 2 + size ≤ length buffer.old }
    ensures { buffer.new ≡ put_at buffer.old at (record_of c beside.now.text.now beside.now.list.now beside.now.buffer_length) }
{
    let form = layout::form_of(c);
    let names = layout::names_of(c);
    let numbers = layout::numbers_of(c, beside.buffer_length);
    let byte = at + SIZE_BYTES;
    let first_name = byte + 1;
    let first_number = first_name + form.names * NAME_BYTES;
    let tail = first_number + form.numbers * NUMBER_BYTES;
    numbers::put_number(buffer, at, SIZE_BYTES, size as u64);
    buffer[byte] = layout::byte_of(c);
    numbers::put_numbers(buffer, first_name, NAME_BYTES, &names[..form.names]);
    numbers::put_numbers(buffer, first_number, NUMBER_BYTES, &numbers[..form.numbers]);
    put_tail(buffer, tail, form.lent, beside);
}

// Writes the record of a call, with what is lent beside it, into a buffer from a place on, and answers how many bytes
// it has, or why none was written. Ruled out, for instance: a record's first bytes where the whole does not fit; a
// length that is cut off at two bytes.
#[tactic(auto, using(std::proofs::lemmas::Bool::Decides::nat_tests, crate::proofs::Layouts::few_names, crate::proofs::Layouts::few_numbers, crate::proofs::Writes::body_size, crate::proofs::Writes::record_size), unfolding(crate::specs::Journal::write_of))]
pub fn write_record(c: Call, beside: &Beside, buffer: &mut [u8], at: usize) -> Result<usize, Errno>
    ensures answer { result ≡ write_of c beside.now.text.now beside.now.list.now beside.now.buffer_length buffer.old at }
    ensures bytes { buffer.new ≡ buffer_by c beside.now.text.now beside.now.list.now beside.now.buffer_length (write_of c beside.now.text.now beside.now.list.now beside.now.buffer_length buffer.old at) buffer.old at }
{
    let lent = layout::form_of(c).lent;
    let tail = tail_bytes(lent, beside);
    let fixed = layout::fixed_bytes(c);
    // A length has two bytes.
    if tail > MAX_SIZE - fixed {
        return Err(Errno::EINVAL);
    }
    // A buffer's length has four.
    if long_buffer(lent, beside.buffer_length) {
        return Err(Errno::EINVAL);
    }
    let size = fixed + tail;
    // There is room for the record.
    if buffer.len() < at || buffer.len() - at < SIZE_BYTES + size {
        return Err(Errno::ERANGE);
    }
    put_record(buffer, at, size, c, beside);
    Ok(SIZE_BYTES + size)
}
