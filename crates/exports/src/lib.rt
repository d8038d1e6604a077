// Every call, and the journal of calls, for programs in other languages: bindings/c/oarhatchet.h has the C names and
// types. Tables cross as one pointer to the lent array, texts, lists and buffers as pointer and length, answers as
// numbers. C names each call, a user's and a group's, and each way of a translation, so no function here is one over
// calls, kinds or ways.
#![tactic(auto)]

ghost use Rattle.std.specs.Prelude.{◌≡◌};
ghost use Rattle.records.specs.declared.Kind.TheVariants.{User, Group};
ghost use Rattle.tables.specs.Tables.{tables_width, tables_of, initial_tables};
ghost use Rattle.tables.specs.Reply.{answered, reply_of, number_of};
ghost use Rattle.hierarchy.specs.KernelStarts.{quick};
ghost use Rattle.process.specs.Calls.{fork_of, clone_of, unshare_of, setns_of};
ghost use Rattle.mapping.specs.Calls.{write_map_of, write_setgroups_of, read_map_of, read_setgroups_of};
ghost use Rattle.credentials.specs.declared.translate.Way.TheVariants.{Out, Back};
ghost use Rattle.credentials.specs.Calls.{set_ids_of, set_groups_of, capable_reply, drop_of, own_ids_of, translate_reply};
ghost use Rattle.exports.specs.Codes.{negated, code_of, Coded, CodedRead, space_after, ids_row, CodedIds};

use credentials::own::OwnIds;
use credentials::translate::Way;
use idmap::NO_ID;
use records::{Ids, Kind, MAX_GROUPS};
use tables::answer::{Answer, Errno};
use tables::{TABLES_WIDTH, Tables};

pub mod record;
pub mod replay;
mod words;

pub use words::RECORD_WORDS;

// The number of a refusal, negated.
pub(crate) fn refusal(e: Errno) -> u64
    ensures { result ≡ negated (number_of e) }
{
    (e as u64).wrapping_neg()
}

// The number of an answer or of a refusal.
pub(crate) fn code(a: Result<Answer, Errno>) -> u64
    ensures { result ≡ code_of (reply_of a) }
{
    match a {
        Ok(a) => answer_code(a),
        Err(e) => refusal(e),
    }
}

// The number of an answer.
pub(crate) fn answer_code(a: Answer) -> u64
    ensures { result ≡ code_of (answered a) }
{
    match a {
        Answer::Done | Answer::No => 0,
        Answer::Yes => 1,
        Answer::Child(p) | Answer::ChildIn(p, _) => p,
        Answer::NewNamespace(n) => n,
        Answer::Length(n) => n as u64,
        Answer::Id(x) => x as u64,
        Answer::Unmapped => NO_ID as u64,
    }
}

// How many words the lent array has, so that a program can compare its own declaration.
pub fn oarhatchet_words() -> u64
    ensures { result ≡ tables_width }
{
    TABLES_WIDTH as u64
}

pub fn oarhatchet_initial(t: &mut Tables)
    ensures { tables_of t.new ≡ initial_tables }
{
    tables::initial::initial(t)
}

pub fn oarhatchet_fork(t: &mut Tables, caller: u64) -> u64
    ensures { Coded result t.old t.new (fork_of (tables_of t.old) caller) }
{
    code(process::fork(t, caller))
}

// The number of a new namespace where there is one, else what was there.
pub(crate) fn space(a: Result<Answer, Errno>, old: u64) -> u64
    ensures { result ≡ space_after (reply_of a) old }
{
    match a {
        Ok(Answer::ChildIn(_, n)) => n,
        _ => old,
    }
}

pub fn oarhatchet_clone(t: &mut Tables, caller: u64, new_namespace: &mut u64) -> u64
    ensures coded { Coded result t.old t.new (quick clone_of (tables_of t.old) caller) }
    ensures new_namespace_after { new_namespace.new ≡ space_after (quick clone_of (tables_of t.old) caller).reply new_namespace.old }
{
    let answer = process::clone(t, caller);
    *new_namespace = space(answer, *new_namespace);
    code(answer)
}

pub fn oarhatchet_unshare(t: &mut Tables, caller: u64) -> u64
    ensures { Coded result t.old t.new (quick unshare_of (tables_of t.old) caller) }
{
    code(process::unshare(t, caller))
}

pub fn oarhatchet_setns(t: &mut Tables, caller: u64, target: u64) -> u64
    ensures { Coded result t.old t.new (setns_of (tables_of t.old) caller target) }
{
    code(process::setns(t, caller, target))
}

pub fn oarhatchet_write_uid_map(t: &mut Tables, caller: u64, process: u64, text: &[u8]) -> u64
    ensures { Coded result t.old t.new (quick write_map_of (tables_of t.old) User caller process text.now) }
{
    code(mapping::write::write_map(t, Kind::User, caller, process, text))
}

pub fn oarhatchet_write_gid_map(t: &mut Tables, caller: u64, process: u64, text: &[u8]) -> u64
    ensures { Coded result t.old t.new (quick write_map_of (tables_of t.old) Group caller process text.now) }
{
    code(mapping::write::write_map(t, Kind::Group, caller, process, text))
}

pub fn oarhatchet_write_setgroups(t: &mut Tables, caller: u64, process: u64, text: &[u8]) -> u64
    ensures { Coded result t.old t.new (write_setgroups_of (tables_of t.old) caller process text.now) }
{
    code(mapping::setgroups::write_setgroups(t, caller, process, text))
}

pub fn oarhatchet_read_uid_map(t: &Tables, caller: u64, process: u64, buffer: &mut [u8]) -> u64
    ensures { CodedRead result buffer.new (quick read_map_of (tables_of t.now) User caller process buffer.old) }
{
    code(mapping::read::read_map(t, Kind::User, caller, process, buffer))
}

pub fn oarhatchet_read_gid_map(t: &Tables, caller: u64, process: u64, buffer: &mut [u8]) -> u64
    ensures { CodedRead result buffer.new (quick read_map_of (tables_of t.now) Group caller process buffer.old) }
{
    code(mapping::read::read_map(t, Kind::Group, caller, process, buffer))
}

pub fn oarhatchet_read_setgroups(t: &Tables, caller: u64, process: u64, buffer: &mut [u8]) -> u64
    ensures { CodedRead result buffer.new (read_setgroups_of (tables_of t.now) caller process buffer.old) }
{
    code(mapping::read::read_setgroups(t, caller, process, buffer))
}

pub fn oarhatchet_setresuid(
    t: &mut Tables,
    caller: u64,
    real: u32,
    effective: u32,
    saved: u32,
) -> u64
    ensures { Coded result t.old t.new (quick set_ids_of (tables_of t.old) User caller real effective saved) }
{
    let ids = Ids {
        real,
        effective,
        saved,
    };
    code(credentials::ids::set_ids(t, Kind::User, caller, ids))
}

pub fn oarhatchet_setresgid(
    t: &mut Tables,
    caller: u64,
    real: u32,
    effective: u32,
    saved: u32,
) -> u64
    ensures { Coded result t.old t.new (quick set_ids_of (tables_of t.old) Group caller real effective saved) }
{
    let ids = Ids {
        real,
        effective,
        saved,
    };
    code(credentials::ids::set_ids(t, Kind::Group, caller, ids))
}

pub fn oarhatchet_setgroups(t: &mut Tables, caller: u64, list: &[u32]) -> u64
    ensures { Coded result t.old t.new (quick set_groups_of (tables_of t.old) caller list.now) }
{
    code(credentials::groups::setgroups(t, caller, list))
}

pub fn oarhatchet_capable(t: &Tables, caller: u64, target: u64, number: u32) -> u64
    ensures { result ≡ code_of (capable_reply (tables_of t.now) caller target number) }
{
    code(credentials::capability_calls::ask(t, caller, target, number))
}

pub fn oarhatchet_capset(t: &mut Tables, caller: u64, permitted: u64, effective: u64) -> u64
    ensures { Coded result t.old t.new (drop_of (tables_of t.old) caller permitted effective) }
{
    code(credentials::capability_calls::drop(t, caller, permitted, effective))
}

// Where the groups stand among the words of own IDs: after three user IDs and three group IDs.
const GROUPS_AT: usize = 6;

// The words of own IDs, with as many places as there may be groups.
pub const OWN_WORDS: usize = GROUPS_AT + MAX_GROUPS;

pub(crate) fn row(own: OwnIds) -> [u32; OWN_WORDS]
    ensures { result ≡ ids_row own }
{
    let mut row = [0; OWN_WORDS];
    row[..GROUPS_AT].copy_from_slice(&[
        own.users.real,
        own.users.effective,
        own.users.saved,
        own.groups.real,
        own.groups.effective,
        own.groups.saved,
    ]);
    row[GROUPS_AT..].copy_from_slice(&own.supplementary.ids);
    row
}

pub fn oarhatchet_getids(t: &Tables, caller: u64, ids: &mut [u32; OWN_WORDS]) -> u64
    ensures { CodedIds result ids.old ids.new (quick own_ids_of (tables_of t.now) caller) }
{
    match credentials::own::own_ids(t, caller) {
        Ok(own) => {
            *ids = row(own);
            own.supplementary.count
        }
        Err(e) => refusal(e),
    }
}

pub fn oarhatchet_translate_uid_out(t: &Tables, caller: u64, target: u64, id: u32) -> u64
    ensures { result ≡ code_of (quick translate_reply (tables_of t.now) User Out caller target id) }
{
    code(credentials::translate::translate(t, Kind::User, Way::Out, caller, target, id))
}

pub fn oarhatchet_translate_uid_back(t: &Tables, caller: u64, target: u64, id: u32) -> u64
    ensures { result ≡ code_of (quick translate_reply (tables_of t.now) User Back caller target id) }
{
    code(credentials::translate::translate(t, Kind::User, Way::Back, caller, target, id))
}

pub fn oarhatchet_translate_gid_out(t: &Tables, caller: u64, target: u64, id: u32) -> u64
    ensures { result ≡ code_of (quick translate_reply (tables_of t.now) Group Out caller target id) }
{
    code(credentials::translate::translate(t, Kind::Group, Way::Out, caller, target, id))
}

pub fn oarhatchet_translate_gid_back(t: &Tables, caller: u64, target: u64, id: u32) -> u64
    ensures { result ≡ code_of (quick translate_reply (tables_of t.now) Group Back caller target id) }
{
    code(credentials::translate::translate(t, Kind::Group, Way::Back, caller, target, id))
}
