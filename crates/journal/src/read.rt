// The reader: the call of the record at an offset of a journal.
ghost use Rattle.std.specs.Prelude.{◌≡◌, ◌+◌, ◌*◌, ◌≤◌, ◌<◌, ◌^◌, length, get_or, Some};
ghost use Rattle.journal.specs.Numbers.{number_at, numbers_at};
ghost use Rattle.journal.specs.Layout.{form_of, fixed_bytes, call_by};
ghost use Rattle.journal.specs.Reading.{leftover, text_bytes, id_count, buffer_length, names_in, numbers_in, stop_at, record_by, body_read, record_at, read_at, list_after};

use crate::layout::Lent;
use crate::numbers::{name_at, number_at};
use crate::{MAX_IDS, NAME_BYTES, NUMBER_BYTES, SIZE_BYTES, VERSION, layout, numbers};
use calls::Call;

// Why the reading of a journal stops, with the numbers that programs in other languages are told.
#[derive(Clone, Copy)]
pub enum Stop {
    // The journal is empty or begins with another byte than the version's.
    Version = 1,
    // The journal ends within the record.
    Cut = 2,
    // The record is too short for its call.
    Short = 3,
    // No call has the call byte.
    UnknownCall = 4,
    // Bytes are left after the record's last argument.
    Leftover = 5,
}

// A call, where its text or its list starts, how many bytes the one and IDs the other has, how long its buffer is, and
// where the next record starts. What a call has none of is 0, as in the words that C is given.
#[derive(Clone, Copy)]
pub struct Record {
    pub call: Call,
    pub tail: usize,
    pub text: usize,
    pub ids: usize,
    pub buffer: u32,
    pub next: usize,
}

// A stop, with the offset where the bad record starts.
#[derive(Clone, Copy)]
pub struct Stopped {
    pub at: usize,
    pub why: Stop,
}

impl Stop {
    fn at(self, at: usize) -> Stopped
        ensures { result ≡ stop_at at self }
    {
        Stopped { at, why: self }
    }
}

// What stands at an offset: a record, the journal's end, or a stop.
pub type Read = Result<Option<Record>, Stopped>;

// A record's call, by the template of its call byte, and what stands in the record after its length, where all the
// arguments of such a call have room.
#[derive(Clone, Copy)]
struct Body<'a> {
    template: Call,
    bytes: &'a [u8],
    ghost whole: { fixed_bytes (form_of template) ≤ length bytes.now },
}

impl Body<'_> {
    // A name, or 0 past the last.
    #[tactic(auto, using(crate::proofs::Gets::numbers_get, crate::proofs::Gets::numbers_past))]
    fn name(&self, i: usize) -> u64
        ensures { result ≡ get_or (names_in self.now.template self.now.bytes.now) i 0 }
    {
        if i < layout::form_of(self.template).names {
            name_at(self.bytes, 1 + NAME_BYTES * i)
        } else {
            0
        }
    }

    // Another number, or 0 past the last.
    #[tactic(auto, using(crate::proofs::Gets::numbers_get, crate::proofs::Gets::numbers_past))]
    fn number(&self, i: usize) -> u32
        ensures { result ≡ get_or (numbers_in self.now.template self.now.bytes.now) i 0 }
    {
        let form = layout::form_of(self.template);
        if i < form.numbers {
            number_at(self.bytes, 1 + form.names * NAME_BYTES + NUMBER_BYTES * i)
        } else {
            0
        }
    }

    // The call, with its arguments.
    #[tactic(auto, using(crate::proofs::Table::by_three))]
    fn call(&self) -> Call
        ensures { result ≡ call_by self.now.template (names_in self.now.template self.now.bytes.now) (numbers_in self.now.template self.now.bytes.now) }
    {
        let names = [self.name(0), self.name(1), self.name(2)];
        let numbers = [self.number(0), self.number(1), self.number(2)];
        layout::call_by(self.template, &names, &numbers)
    }

    // The length of a read's buffer, which is its one number.
    fn buffer_length(&self) -> u32
        ensures { result ≡ buffer_length (form_of self.now.template).lent (numbers_in self.now.template self.now.bytes.now) }
    {
        match layout::form_of(self.template).lent {
            Lent::Buffer => self.number(0),
            Lent::Nothing | Lent::Text | Lent::Groups => 0,
        }
    }
}

// What is lent to a call, by the bytes that stand after its record's numbers.
impl Lent {
    // Whether bytes are left over: of a list those that are no whole ID.
    fn leaves_over(self, rest: usize) -> bool
        ensures { result ≡ leftover self rest }
    {
        match self {
            Lent::Nothing | Lent::Buffer => rest > 0,
            Lent::Text => false,
            Lent::Groups => rest % NUMBER_BYTES > 0,
        }
    }

    fn text_bytes(self, rest: usize) -> usize
        ensures { result ≡ text_bytes self rest }
    {
        match self {
            Lent::Text => rest,
            Lent::Nothing | Lent::Groups | Lent::Buffer => 0,
        }
    }

    fn id_count(self, rest: usize) -> usize
        ensures { result ≡ id_count self rest }
    {
        match self {
            Lent::Groups => rest / NUMBER_BYTES,
            Lent::Nothing | Lent::Text | Lent::Buffer => 0,
        }
    }
}

// The record at an offset, of a template's call, with what stands in it after its length.
#[tactic(auto, using(std::proofs::lemmas::Bool::Decides::nat_tests), unfolding(crate::specs::Reading::record_by))]
fn record_in(at: usize, body: &[u8], c: Call) -> Read
    requires { at + 2 + length body.now < 2 ^ 64 }
    ensures { result ≡ record_by at body.now (Some c) }
{
    let size = body.len();
    let next = at + SIZE_BYTES + size;
    let fixed = layout::fixed_bytes(c);
    // A record has all the arguments of its call.
    if size < fixed {
        return Err(Stop::Short.at(at));
    }
    let body = Body {
        template: c,
        bytes: body,
    };
    let lent = layout::form_of(c).lent;
    let rest = size - fixed;
    // And nothing after them.
    if lent.leaves_over(rest) {
        return Err(Stop::Leftover.at(at));
    }
    Ok(Some(Record {
        call: body.call(),
        tail: at + SIZE_BYTES + fixed,
        text: lent.text_bytes(rest),
        ids: lent.id_count(rest),
        buffer: body.buffer_length(),
        next,
    }))
}

// The record at an offset, with what stands in it after its length.
#[tactic(auto, using(std::proofs::lemmas::Bool::Decides::nat_tests), unfolding(crate::specs::Reading::record_by))]
fn record_of(at: usize, body: &[u8]) -> Read
    requires { (0 < length body.now) × (at + 2 + length body.now < 2 ^ 64) }
    ensures { result ≡ body_read at body.now }
{
    let call = layout::template_of(body[0]).ok_or(Stop::UnknownCall.at(at))?;
    record_in(at, body, call)
}

// The record at an offset past the version byte. It is inlined, as `layout::template_of` says.
#[inline(always)]
#[tactic(auto, using(std::proofs::lemmas::Bool::Decides::nat_tests), unfolding(crate::specs::Reading::record_at, prelude::specs::Parts::part))]
fn record_at(journal: &[u8], at: usize) -> Read
    ensures { result ≡ record_at journal.now at }
{
    if journal.len() <= at {
        return Ok(None);
    }
    let left = journal.len() - at;
    // The two bytes of its length are there.
    if left < SIZE_BYTES {
        return Err(Stop::Cut.at(at));
    }
    let start = at + SIZE_BYTES;
    let size = numbers::size_at(journal, at);
    // And as many as it says.
    if left - SIZE_BYTES < size {
        return Err(Stop::Cut.at(at));
    }
    // A record has a call byte.
    if size == 0 {
        return Err(Stop::Short.at(at));
    }
    let end = start + size;
    record_of(at, &journal[start..end])
}

// The record at an offset; at 0 the version byte is read, and the record after it. A journal and an offset in it go
// together in C too.
#[tactic(auto, using(std::proofs::lemmas::Bool::Decides::nat_tests), unfolding(crate::specs::Reading::read_at))]
fn version_then_record(journal: &[u8], at: usize) -> Read
    ensures { result ≡ read_at journal.now at }
{
    // A journal begins with its version.
    if at == 0 && (journal.is_empty() || journal[0] != VERSION) {
        return Err(Stop::Version.at(0));
    }
    // One call, since its body is inlined.
    record_at(journal, at.max(1))
}

// The record at an offset of a journal; at 0 the version byte, and the record after it. The IDs of its list are put
// into the lent array. Ruled out, for instance: the offset where a bad record ends in place of where it starts; a call
// from a record with bytes left over.
pub fn read_record(journal: &[u8], at: usize, list: &mut [u32; MAX_IDS]) -> Read
    ensures answer { result ≡ read_at journal.now at }
    ensures ids { list.new ≡ list_after journal.now (read_at journal.now at) list.old }
{
    let found = version_then_record(journal, at)?;
    if let Some(r) = found {
        numbers::load_list(journal, r.tail, r.ids, list);
    }
    Ok(found)
}
