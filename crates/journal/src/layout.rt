// The call bytes, and what a call's record has after its call byte: the table of docs/journal.md. A byte that is given
// never changes. They are bytes and no enum, since C names them so, and a journal may have any byte where one stands.
ghost use Rattle.std.specs.Prelude.{◌≡◌};
ghost use Rattle.records.specs.Records.{by_kind};
ghost use Rattle.journal.specs.Layout.{by_way, byte_of, template_of, form_by, form_of, fixed_bytes, names_of, numbers_of, first_three, call_by};

use crate::{NAME_BYTES, NUMBER_BYTES};
use calls::Call;
use credentials::translate::Way;
use records::kinds::by_kind;
use records::{Ids, Kind, ZERO_IDS};

pub const FORK: u8 = 0x10;

pub const CLONE: u8 = 0x11;

pub const UNSHARE: u8 = 0x14;

pub const SETNS: u8 = 0x17;

pub const WRITE_UID_MAP: u8 = 0x20;

pub const WRITE_GID_MAP: u8 = 0x21;

pub const WRITE_SETGROUPS: u8 = 0x22;

pub const READ_UID_MAP: u8 = 0x23;

pub const READ_GID_MAP: u8 = 0x24;

pub const READ_SETGROUPS: u8 = 0x25;

pub const SETRESUID: u8 = 0x30;

pub const SETRESGID: u8 = 0x31;

pub const SETGROUPS: u8 = 0x32;

pub const CAPSET: u8 = 0x33;

pub const GETIDS: u8 = 0x34;

pub const CAPABLE: u8 = 0x40;

pub const TRANSLATE_UID_OUT: u8 = 0x41;

pub const TRANSLATE_UID_BACK: u8 = 0x42;

pub const TRANSLATE_GID_OUT: u8 = 0x43;

pub const TRANSLATE_GID_BACK: u8 = 0x44;

fn translate_byte(kind: Kind, way: Way) -> u8
    ensures { result ≡ by_kind kind (by_way way 0x41 0x42) (by_way way 0x43 0x44) }
{
    match way {
        Way::Out => by_kind(kind, TRANSLATE_UID_OUT, TRANSLATE_GID_OUT),
        Way::Back => by_kind(kind, TRANSLATE_UID_BACK, TRANSLATE_GID_BACK),
    }
}

// The call byte of a call.
#[tactic(auto, unfolding(crate::specs::Layout::byte_of))]
pub fn byte_of(c: Call) -> u8
    ensures { result ≡ byte_of c }
{
    match c {
        Call::Fork(_) => FORK,
        Call::Clone(_) => CLONE,
        Call::Unshare(_) => UNSHARE,
        Call::Setns(_, _) => SETNS,
        Call::WriteMap(kind, _, _) => by_kind(kind, WRITE_UID_MAP, WRITE_GID_MAP),
        Call::WriteSetgroups(_, _) => WRITE_SETGROUPS,
        Call::ReadMap(kind, _, _) => by_kind(kind, READ_UID_MAP, READ_GID_MAP),
        Call::ReadSetgroups(_, _) => READ_SETGROUPS,
        Call::SetIds(kind, _, _) => by_kind(kind, SETRESUID, SETRESGID),
        Call::SetGroups(_) => SETGROUPS,
        Call::Capable(_, _, _) => CAPABLE,
        Call::Drop(_, _, _) => CAPSET,
        Call::OwnIdsOf(_) => GETIDS,
        Call::Translate(kind, way, _, _, _) => translate_byte(kind, way),
    }
}

// The call of a call byte, with all its numbers 0, if there is one. It is inlined, as `record_at` is: a call that is
// handed on in memory is stored byte by byte and loaded by the word, for which a processor waits.
#[inline(always)]
#[tactic(auto, using(crate::proofs::Layouts::template_none), unfolding(crate::specs::Layout::template_of, crate::specs::Layout::with_byte, crate::specs::Layout::byte_of))]
pub fn template_of(byte: u8) -> Option<Call>
    ensures { result ≡ template_of byte }
{
    match byte {
        FORK => Some(Call::Fork(0)),
        CLONE => Some(Call::Clone(0)),
        UNSHARE => Some(Call::Unshare(0)),
        SETNS => Some(Call::Setns(0, 0)),
        WRITE_UID_MAP => Some(Call::WriteMap(Kind::User, 0, 0)),
        WRITE_GID_MAP => Some(Call::WriteMap(Kind::Group, 0, 0)),
        WRITE_SETGROUPS => Some(Call::WriteSetgroups(0, 0)),
        READ_UID_MAP => Some(Call::ReadMap(Kind::User, 0, 0)),
        READ_GID_MAP => Some(Call::ReadMap(Kind::Group, 0, 0)),
        READ_SETGROUPS => Some(Call::ReadSetgroups(0, 0)),
        SETRESUID => Some(Call::SetIds(Kind::User, 0, ZERO_IDS)),
        SETRESGID => Some(Call::SetIds(Kind::Group, 0, ZERO_IDS)),
        SETGROUPS => Some(Call::SetGroups(0)),
        CAPSET => Some(Call::Drop(0, 0, 0)),
        GETIDS => Some(Call::OwnIdsOf(0)),
        CAPABLE => Some(Call::Capable(0, 0, 0)),
        TRANSLATE_UID_OUT => Some(Call::Translate(Kind::User, Way::Out, 0, 0, 0)),
        TRANSLATE_UID_BACK => Some(Call::Translate(Kind::User, Way::Back, 0, 0, 0)),
        TRANSLATE_GID_OUT => Some(Call::Translate(Kind::Group, Way::Out, 0, 0, 0)),
        TRANSLATE_GID_BACK => Some(Call::Translate(Kind::Group, Way::Back, 0, 0, 0)),
        _ => None,
    }
}

// What is lent beside a call: nothing, a text or a list, which run to the record's end, or a buffer, whose length is
// the record's last number.
#[derive(Clone, Copy)]
pub enum Lent {
    Nothing,
    Text,
    Groups,
    Buffer,
}

// What a record has after its call byte: names of eight bytes each, other numbers of four, and what is lent. That there
// are at most three of each is no part of it, since the definition `form_of` gives a form by its three parts.
#[derive(Clone, Copy)]
pub struct Form {
    pub names: usize,
    pub numbers: usize,
    pub lent: Lent,
}

#[tactic(auto, unfolding(crate::specs::Layout::form_of))]
pub fn form_of(c: Call) -> Form
    ensures { result ≡ form_of c }
{
    let (names, numbers, lent) = match c {
        Call::Fork(_) | Call::Clone(_) | Call::Unshare(_) | Call::OwnIdsOf(_) => (
            1,
            0,
            Lent::Nothing,
        ),
        Call::Setns(_, _) => (2, 0, Lent::Nothing),
        Call::WriteMap(_, _, _) | Call::WriteSetgroups(_, _) => (2, 0, Lent::Text),
        Call::ReadMap(_, _, _) | Call::ReadSetgroups(_, _) => (2, 1, Lent::Buffer),
        Call::SetIds(_, _, _) => (1, 3, Lent::Nothing),
        Call::SetGroups(_) => (1, 0, Lent::Groups),
        Call::Capable(_, _, _) | Call::Translate(_, _, _, _, _) => (2, 1, Lent::Nothing),
        Call::Drop(_, _, _) => (3, 0, Lent::Nothing),
    };
    Form {
        names,
        numbers,
        lent,
    }
}

// The bytes of a call's record before a text or a list, without the record's length: the call byte, the names and the
// other numbers.
#[tactic(auto, using(crate::proofs::Layouts::few_names, crate::proofs::Layouts::few_numbers))]
pub fn fixed_bytes(c: Call) -> usize
    ensures { result ≡ fixed_bytes (form_of c) }
{
    let f = form_of(c);
    1 + f.names * NAME_BYTES + f.numbers * NUMBER_BYTES
}

// The names of a call in order, the caller first, and 0 past the last: as many as C has words for.
#[tactic(auto, unfolding(crate::specs::Layout::names_of))]
pub fn names_of(c: Call) -> [u64; 3]
    ensures { result ≡ first_three (names_of c) }
{
    match c {
        Call::Fork(a)
        | Call::Clone(a)
        | Call::Unshare(a)
        | Call::SetIds(_, a, _)
        | Call::SetGroups(a)
        | Call::OwnIdsOf(a) => [a, 0, 0],
        Call::Setns(a, b)
        | Call::WriteMap(_, a, b)
        | Call::WriteSetgroups(a, b)
        | Call::ReadMap(_, a, b)
        | Call::ReadSetgroups(a, b)
        | Call::Capable(a, b, _)
        | Call::Translate(_, _, a, b, _) => [a, b, 0],
        Call::Drop(a, b, d) => [a, b, d],
    }
}

// The other numbers of a call in order, where a read has its buffer's length, and 0 past the last.
#[tactic(auto, unfolding(crate::specs::Layout::numbers_of))]
pub fn numbers_of(c: Call, buffer_length: u64) -> [u64; 3]
    ensures { result ≡ first_three (numbers_of c buffer_length) }
{
    match c {
        Call::Fork(_)
        | Call::Clone(_)
        | Call::Unshare(_)
        | Call::Setns(_, _)
        | Call::WriteMap(_, _, _)
        | Call::WriteSetgroups(_, _)
        | Call::SetGroups(_)
        | Call::Drop(_, _, _)
        | Call::OwnIdsOf(_) => [0, 0, 0],
        Call::ReadMap(_, _, _) | Call::ReadSetgroups(_, _) => [buffer_length, 0, 0],
        Call::SetIds(_, _, i) => [
            u64::from(i.real),
            u64::from(i.effective),
            u64::from(i.saved),
        ],
        Call::Capable(_, _, x) | Call::Translate(_, _, _, _, x) => [u64::from(x), 0, 0],
    }
}

// The call of a template with the names and the other numbers that stand in order in two arrays.
#[tactic(auto, unfolding(crate::specs::Layout::call_by))]
pub fn call_by(c: Call, names: &[u64; 3], numbers: &[u32; 3]) -> Call
    ensures { result ≡ call_by c names.now numbers.now }
{
    match c {
        Call::Fork(_) => Call::Fork(names[0]),
        Call::Clone(_) => Call::Clone(names[0]),
        Call::Unshare(_) => Call::Unshare(names[0]),
        Call::Setns(_, _) => Call::Setns(names[0], names[1]),
        Call::WriteMap(kind, _, _) => Call::WriteMap(kind, names[0], names[1]),
        Call::WriteSetgroups(_, _) => Call::WriteSetgroups(names[0], names[1]),
        Call::ReadMap(kind, _, _) => Call::ReadMap(kind, names[0], names[1]),
        Call::ReadSetgroups(_, _) => Call::ReadSetgroups(names[0], names[1]),
        Call::SetIds(kind, _, _) => {
            let ids = Ids {
                real: numbers[0],
                effective: numbers[1],
                saved: numbers[2],
            };
            Call::SetIds(kind, names[0], ids)
        }
        Call::SetGroups(_) => Call::SetGroups(names[0]),
        Call::Capable(_, _, _) => Call::Capable(names[0], names[1], numbers[0]),
        Call::Drop(_, _, _) => Call::Drop(names[0], names[1], names[2]),
        Call::OwnIdsOf(_) => Call::OwnIdsOf(names[0]),
        Call::Translate(kind, way, _, _, _) => Call::Translate(
            kind, way, names[0], names[1], numbers[0],
        ),
    }
}
