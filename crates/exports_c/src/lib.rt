// The functions of `exports` under their C names, as a static library: bindings/c/oarhatchet.h declares them. Each
// promises what the function of that name in `exports` does. There is one for each name that C has.
#![tactic(auto)]

ghost use Rattle.std.specs.Prelude.{◌≡◌};
ghost use Rattle.records.specs.declared.Kind.TheVariants.{User, Group};
ghost use Rattle.tables.specs.Tables.{tables_width, tables_of, initial_tables};
ghost use Rattle.hierarchy.specs.KernelStarts.{quick};
ghost use Rattle.process.specs.Calls.{fork_of, clone_of, unshare_of, setns_of};
ghost use Rattle.mapping.specs.Calls.{write_map_of, write_setgroups_of, read_map_of, read_setgroups_of};
ghost use Rattle.credentials.specs.declared.translate.Way.TheVariants.{Out, Back};
ghost use Rattle.credentials.specs.Calls.{set_ids_of, set_groups_of, capable_reply, drop_of, own_ids_of, translate_reply};
ghost use Rattle.journal.specs.Layout.{template_of};
ghost use Rattle.journal.specs.Reading.{read_at, list_after};
ghost use Rattle.replay_step.specs.Replay.{Unchanged};
ghost use Rattle.exports.specs.Codes.{code_of, Coded, CodedRead, space_after, CodedIds};
ghost use Rattle.exports.specs.Journal.{written_code, write_by, buffer_after};
ghost use Rattle.exports.specs.Replay.{read_words, ids_after, step_at, CodedStep};

use exports::{OWN_WORDS, RECORD_WORDS};
use journal::MAX_IDS;
use replay_step::MAX_READ;
use tables::Tables;

// How many words the lent array has, so that a program can compare its own declaration.
#[unsafe(no_mangle)]
pub extern "C" fn oarhatchet_words() -> u64
    ensures { result ≡ tables_width }
{
    exports::oarhatchet_words()
}

#[unsafe(no_mangle)]
pub extern "C" fn oarhatchet_initial(t: &mut Tables)
    ensures { tables_of t.new ≡ initial_tables }
{
    exports::oarhatchet_initial(t)
}

#[unsafe(no_mangle)]
pub extern "C" fn oarhatchet_fork(t: &mut Tables, caller: u64) -> u64
    ensures { Coded result t.old t.new (fork_of (tables_of t.old) caller) }
{
    exports::oarhatchet_fork(t, caller)
}

#[unsafe(no_mangle)]
pub extern "C" fn oarhatchet_clone(t: &mut Tables, caller: u64, new_namespace: &mut u64) -> u64
    ensures coded { Coded result t.old t.new (quick clone_of (tables_of t.old) caller) }
    ensures new_namespace_after { new_namespace.new ≡ space_after (quick clone_of (tables_of t.old) caller).reply new_namespace.old }
{
    exports::oarhatchet_clone(t, caller, new_namespace)
}

#[unsafe(no_mangle)]
pub extern "C" fn oarhatchet_unshare(t: &mut Tables, caller: u64) -> u64
    ensures { Coded result t.old t.new (quick unshare_of (tables_of t.old) caller) }
{
    exports::oarhatchet_unshare(t, caller)
}

#[unsafe(no_mangle)]
pub extern "C" fn oarhatchet_setns(t: &mut Tables, caller: u64, target: u64) -> u64
    ensures { Coded result t.old t.new (setns_of (tables_of t.old) caller target) }
{
    exports::oarhatchet_setns(t, caller, target)
}

#[unsafe(no_mangle)]
pub extern "C" fn oarhatchet_write_uid_map(
    t: &mut Tables,
    caller: u64,
    process: u64,
    text: &[u8],
) -> u64
    ensures { Coded result t.old t.new (quick write_map_of (tables_of t.old) User caller process text.now) }
{
    exports::oarhatchet_write_uid_map(t, caller, process, text)
}

#[unsafe(no_mangle)]
pub extern "C" fn oarhatchet_write_gid_map(
    t: &mut Tables,
    caller: u64,
    process: u64,
    text: &[u8],
) -> u64
    ensures { Coded result t.old t.new (quick write_map_of (tables_of t.old) Group caller process text.now) }
{
    exports::oarhatchet_write_gid_map(t, caller, process, text)
}

#[unsafe(no_mangle)]
pub extern "C" fn oarhatchet_write_setgroups(
    t: &mut Tables,
    caller: u64,
    process: u64,
    text: &[u8],
) -> u64
    ensures { Coded result t.old t.new (write_setgroups_of (tables_of t.old) caller process text.now) }
{
    exports::oarhatchet_write_setgroups(t, caller, process, text)
}

#[unsafe(no_mangle)]
pub extern "C" fn oarhatchet_read_uid_map(
    t: &Tables,
    caller: u64,
    process: u64,
    buffer: &mut [u8],
) -> u64
    ensures { CodedRead result buffer.new (quick read_map_of (tables_of t.now) User caller process buffer.old) }
{
    exports::oarhatchet_read_uid_map(t, caller, process, buffer)
}

#[unsafe(no_mangle)]
pub extern "C" fn oarhatchet_read_gid_map(
    t: &Tables,
    caller: u64,
    process: u64,
    buffer: &mut [u8],
) -> u64
    ensures { CodedRead result buffer.new (quick read_map_of (tables_of t.now) Group caller process buffer.old) }
{
    exports::oarhatchet_read_gid_map(t, caller, process, buffer)
}

#[unsafe(no_mangle)]
pub extern "C" fn oarhatchet_read_setgroups(
    t: &Tables,
    caller: u64,
    process: u64,
    buffer: &mut [u8],
) -> u64
    ensures { CodedRead result buffer.new (read_setgroups_of (tables_of t.now) caller process buffer.old) }
{
    exports::oarhatchet_read_setgroups(t, caller, process, buffer)
}

#[unsafe(no_mangle)]
pub extern "C" fn oarhatchet_setresuid(
    t: &mut Tables,
    caller: u64,
    real: u32,
    effective: u32,
    saved: u32,
) -> u64
    ensures { Coded result t.old t.new (quick set_ids_of (tables_of t.old) User caller real effective saved) }
{
    exports::oarhatchet_setresuid(t, caller, real, effective, saved)
}

#[unsafe(no_mangle)]
pub extern "C" fn oarhatchet_setresgid(
    t: &mut Tables,
    caller: u64,
    real: u32,
    effective: u32,
    saved: u32,
) -> u64
    ensures { Coded result t.old t.new (quick set_ids_of (tables_of t.old) Group caller real effective saved) }
{
    exports::oarhatchet_setresgid(t, caller, real, effective, saved)
}

#[unsafe(no_mangle)]
pub extern "C" fn oarhatchet_setgroups(t: &mut Tables, caller: u64, list: &[u32]) -> u64
    ensures { Coded result t.old t.new (quick set_groups_of (tables_of t.old) caller list.now) }
{
    exports::oarhatchet_setgroups(t, caller, list)
}

#[unsafe(no_mangle)]
pub extern "C" fn oarhatchet_capable(t: &Tables, caller: u64, target: u64, number: u32) -> u64
    ensures { result ≡ code_of (capable_reply (tables_of t.now) caller target number) }
{
    exports::oarhatchet_capable(t, caller, target, number)
}

#[unsafe(no_mangle)]
pub extern "C" fn oarhatchet_capset(
    t: &mut Tables,
    caller: u64,
    permitted: u64,
    effective: u64,
) -> u64
    ensures { Coded result t.old t.new (drop_of (tables_of t.old) caller permitted effective) }
{
    exports::oarhatchet_capset(t, caller, permitted, effective)
}

#[unsafe(no_mangle)]
pub extern "C" fn oarhatchet_getids(t: &Tables, caller: u64, ids: &mut [u32; OWN_WORDS]) -> u64
    ensures { CodedIds result ids.old ids.new (quick own_ids_of (tables_of t.now) caller) }
{
    exports::oarhatchet_getids(t, caller, ids)
}

#[unsafe(no_mangle)]
pub extern "C" fn oarhatchet_translate_uid_out(t: &Tables, caller: u64, target: u64, id: u32) -> u64
    ensures { result ≡ code_of (quick translate_reply (tables_of t.now) User Out caller target id) }
{
    exports::oarhatchet_translate_uid_out(t, caller, target, id)
}

#[unsafe(no_mangle)]
pub extern "C" fn oarhatchet_translate_uid_back(
    t: &Tables,
    caller: u64,
    target: u64,
    id: u32,
) -> u64
    ensures { result ≡ code_of (quick translate_reply (tables_of t.now) User Back caller target id) }
{
    exports::oarhatchet_translate_uid_back(t, caller, target, id)
}

#[unsafe(no_mangle)]
pub extern "C" fn oarhatchet_translate_gid_out(t: &Tables, caller: u64, target: u64, id: u32) -> u64
    ensures { result ≡ code_of (quick translate_reply (tables_of t.now) Group Out caller target id) }
{
    exports::oarhatchet_translate_gid_out(t, caller, target, id)
}

#[unsafe(no_mangle)]
pub extern "C" fn oarhatchet_translate_gid_back(
    t: &Tables,
    caller: u64,
    target: u64,
    id: u32,
) -> u64
    ensures { result ≡ code_of (quick translate_reply (tables_of t.now) Group Back caller target id) }
{
    exports::oarhatchet_translate_gid_back(t, caller, target, id)
}

// Writes the record of the call that has this call byte into a buffer from a place on. Its names, the caller first, and
// its other numbers stand in order in the two arrays; of a read the buffer's length stands beside them. What the call
// does not have is not looked at.
#[unsafe(no_mangle)]
pub extern "C" fn oarhatchet_write_record(
    call: u8,
    names: &[u64; 3],
    numbers: &[u32; 3],
    text: &[u8],
    list: &[u32],
    length: u64,
    buffer: &mut [u8],
    at: usize,
) -> u64
    ensures answer { result ≡ written_code (write_by (template_of call) names.now numbers.now text.now list.now length buffer.old at) }
    ensures bytes { buffer.new ≡ buffer_after (template_of call) names.now numbers.now text.now list.now length buffer.old at }
{
    exports::record::oarhatchet_write_record(call, names, numbers, text, list, length, buffer, at)
}

// Reads the record at an offset of a journal, makes its call, and stores what stands there as words. At 0 the version
// byte is read, and the record after it. The IDs of the call's list, the text of a read and own IDs are put into what
// is lent for them. Ruled out, for instance: the offset asked for in place of the bad record's; a call's arguments in
// another order than the journal has them.
#[unsafe(no_mangle)]
pub extern "C" fn oarhatchet_replay(
    t: &mut Tables,
    journal: &[u8],
    at: usize,
    record: &mut [u64; RECORD_WORDS],
    list: &mut [u32; MAX_IDS],
    buffer: &mut [u8; MAX_READ],
    ids: &mut [u32; OWN_WORDS],
) -> u64
    ensures made { CodedStep result t.old t.new buffer.new (step_at t.old journal.now at buffer.old) }
    ensures unchanged { Unchanged (read_at journal.now at) t.old t.new }
    ensures words { «record».new ≡ read_words (read_at journal.now at) at (space_after (step_at t.old journal.now at buffer.old).reply 0) }
    ensures list { list.new ≡ list_after journal.now (read_at journal.now at) list.old }
    ensures ids { ids.new ≡ ids_after (step_at t.old journal.now at buffer.old).reply ids.old }
{
    exports::replay::oarhatchet_replay(t, journal, at, record, list, buffer, ids)
}
