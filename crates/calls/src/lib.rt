// Every call of document 01 through one entry point, so that a list of calls is a loop over one function.
#![tactic(auto)]

ghost use Rattle.tables.specs.Tables.{tables_of};
ghost use Rattle.std.specs.Prelude.{◌≡◌};
ghost use Rattle.hierarchy.specs.KernelStarts.{quick};
ghost use Rattle.calls.specs.Calls.{plain_of, own_of, answer_by, CallPromise};

use credentials::own::OwnIds;
use credentials::translate::Way;
use records::{Ids, Kind};
use tables::Tables;
use tables::answer::{Answer, Errno};

// A call, as numbers; the text, the list and the buffer that some of them take are lent beside it.
#[derive(Clone, Copy)]
pub enum Call {
    Fork(u64),
    Clone(u64),
    Unshare(u64),
    Setns(u64, u64),
    WriteMap(Kind, u64, u64),
    WriteSetgroups(u64, u64),
    ReadMap(Kind, u64, u64),
    ReadSetgroups(u64, u64),
    SetIds(Kind, u64, Ids),
    SetGroups(u64),
    Capable(u64, u64, u32),
    Drop(u64, u64, u64),
    OwnIdsOf(u64),
    Translate(Kind, Way, u64, u64, u32),
}

// What a call answers where it does not refuse: an answer, or the caller's own IDs.
#[derive(Clone, Copy)]
pub enum Response {
    Plain(Answer),
    Own(OwnIds),
}

// An answer that has no IDs beside it. A name for it, since `map` and the case would stand at 13 calls.
fn plain(answer: Result<Answer, Errno>) -> Result<Response, Errno>
    ensures { result ≡ plain_of answer }
{
    Ok(Response::Plain(answer?))
}

// What the own-ID question answers: a name as that one is.
fn own(ids: Result<OwnIds, Errno>) -> Result<Response, Errno>
    ensures { result ≡ own_of ids }
{
    Ok(Response::Own(ids?))
}

// Answers a call: the promise is by cases the calls' own.
// Ruled out, for instance: IDs beside an answer that has none; a clone made where unshare is asked for.
pub fn answer(
    t: &mut Tables,
    c: Call,
    text: &[u8],
    list: &[u32],
    buffer: &mut [u8],
) -> Result<Response, Errno>
    ensures { CallPromise result t.old t.new buffer.new (quick answer_by (tables_of t.old) c text.now list.now buffer.old) }
{
    match c {
        Call::Fork(caller) => plain(process::fork(t, caller)),
        Call::Clone(caller) => plain(process::clone(t, caller)),
        Call::Unshare(caller) => plain(process::unshare(t, caller)),
        Call::Setns(caller, name) => plain(process::setns(t, caller, name)),
        Call::WriteMap(kind, caller, name) => plain(mapping::write::write_map(
            t, kind, caller, name, text,
        )),
        Call::WriteSetgroups(caller, name) => plain(mapping::setgroups::write_setgroups(
            t, caller, name, text,
        )),
        Call::ReadMap(kind, caller, name) => plain(mapping::read::read_map(
            t, kind, caller, name, buffer,
        )),
        Call::ReadSetgroups(caller, name) => plain(mapping::read::read_setgroups(
            t, caller, name, buffer,
        )),
        Call::SetIds(kind, caller, ids) => plain(credentials::ids::set_ids(t, kind, caller, ids)),
        Call::SetGroups(caller) => plain(credentials::groups::setgroups(t, caller, list)),
        Call::Capable(caller, name, number) => plain(credentials::capability_calls::ask(
            t, caller, name, number,
        )),
        Call::Drop(caller, permitted, effective) => plain(credentials::capability_calls::drop(
            t, caller, permitted, effective,
        )),
        Call::OwnIdsOf(caller) => own(credentials::own::own_ids(t, caller)),
        Call::Translate(kind, way, caller, name, id) => plain(credentials::translate::translate(
            t, kind, way, caller, name, id,
        )),
    }
}
