// Numbers as bytes, the highest byte first.
ghost use Rattle.std.specs.Prelude.{◌≡◌, ℕ, ◌+◌, ◌*◌, ◌≤◌, length, map};
ghost use Rattle.prelude.specs.Parts.{part, put_at};
ghost use Rattle.journal.specs.Numbers.{big_endian, all_big_endian, number_at, numbers_at};

use crate::NUMBER_BYTES;

// A number that is stored. It is no `Into<u64>`: contracts speak of `value`, which that has not.
pub(crate) trait Number: Copy {
    ghost value: { Self → ℕ };

    fn value(self) -> u64
        ensures { result ≡ value self };
}

impl Number for u64 {
    ghost value = { λ x. x };

    fn value(self) -> u64 {
        self
    }
}

impl Number for u32 {
    ghost value = { λ x. x };

    fn value(self) -> u64 {
        u64::from(self)
    }
}

// Stores the lowest `width` bytes of a number. Each function here asks for the room of what it stores or reads, which
// differs, so that no type can say it.
#[tactic(auto, using(crate::proofs::Puts::number_put))]
pub(crate) fn put_number(buffer: &mut [u8], at: usize, width: usize, x: u64)
    requires { (width ≤ 8) × (at + width ≤ length buffer.old) }
    ensures { buffer.new ≡ put_at buffer.old at (big_endian width x) }
{
    buffer[at..at + width].copy_from_slice(&x.to_be_bytes()[8 - width..]);
}

// Stores numbers of `width` bytes each, one after the other.
pub(crate) fn put_numbers<T: Number>(buffer: &mut [u8], at: usize, width: usize, numbers: &[T])
    requires width { width ≤ 8 }
    requires room { at + length (all_big_endian width (map T.value numbers.now)) ≤ length buffer.old }
    ensures { buffer.new ≡ put_at buffer.old at (all_big_endian width (map T.value numbers.now)) }
{
    // A place that goes on by the width, as what is stored does.
    let mut place = at;
    for x in numbers {
        put_number(buffer, place, width, x.value());
        place += width;
    }
}

// The bytes at a place, as a copy, of which a number is made.
#[tactic(auto, unfolding(prelude::specs::Parts::part))]
fn bytes_at<const W: usize>(s: &[u8], at: usize) -> [u8; W]
    requires { at + W ≤ length s.now }
    ensures { result ≡ part W at s.now }
{
    let mut bytes = [0; W];
    bytes.copy_from_slice(&s[at..at + W]);
    bytes
}

// One function for each width: from_be_bytes belongs to each type, so a trait would have these three bodies too.
// The length of two bytes at a place.
#[tactic(auto, using(crate::proofs::Gets::size_read))]
pub(crate) fn size_at(s: &[u8], at: usize) -> usize
    requires { at + 2 ≤ length s.now }
    ensures { result ≡ number_at 2 at s.now }
{
    usize::from(u16::from_be_bytes(bytes_at(s, at)))
}

// The number of four bytes at a place.
#[tactic(auto, using(crate::proofs::Gets::number_read))]
pub(crate) fn number_at(s: &[u8], at: usize) -> u32
    requires { at + 4 ≤ length s.now }
    ensures { result ≡ number_at 4 at s.now }
{
    u32::from_be_bytes(bytes_at(s, at))
}

// The name of eight bytes at a place.
#[tactic(auto, using(crate::proofs::Gets::name_read))]
pub(crate) fn name_at(s: &[u8], at: usize) -> u64
    requires { at + 8 ≤ length s.now }
    ensures { result ≡ number_at 8 at s.now }
{
    u64::from_be_bytes(bytes_at(s, at))
}

// Puts the numbers of four bytes from a place on into a list.
#[tactic(auto, using(crate::proofs::Gets::gets))]
pub(crate) fn load_list(s: &[u8], at: usize, count: usize, list: &mut [u32])
    requires { (at + 4 * count ≤ length s.now) × (count ≤ length list.old) }
    ensures { list.new ≡ put_at list.old 0 (numbers_at 4 count at s.now) }
{
    // By index: nothing is known of what a zip over `iter_mut` writes.
    for i in 0..count {
        list[i] = number_at(s, at + NUMBER_BYTES * i);
    }
}
