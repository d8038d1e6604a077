// Translate: an ID of a namespace out to the initial one, or back.
ghost use Rattle.std.specs.Prelude.{◌≡◌};
ghost use Rattle.tables.specs.Tables.{tables_of};
ghost use Rattle.tables.specs.Reply.{reply_of};
ghost use Rattle.hierarchy.specs.KernelStarts.{by_kernel_starts, quick};
ghost use Rattle.credentials.specs.Calls.{turned, translate_reply};

use hierarchy::translate::{from_kernel, to_kernel};
use records::Kind;
use tables::Tables;
use tables::answer::{Answer, Errno};
use tables::find::{find_caller, named_namespace};

// Out: from a namespace's ID to its kernel ID. Back: from a kernel ID to the namespace's.
#[derive(Clone, Copy)]
pub enum Way {
    Out,
    Back,
}

// An ID translated between the namespace at `place` and the initial one. With the lookup as a closure this would still
// choose between two.
#[tactic(auto, unfolding(hierarchy::specs::KernelStarts::by_kernel_starts))]
fn turned(t: &Tables, kind: Kind, way: Way, place: u64, id: u32) -> Option<u32>
    ensures { result ≡ turned (by_kernel_starts (tables_of t.now)) kind way place id }
{
    match way {
        Way::Out => to_kernel(t, kind, place, id),
        Way::Back => from_kernel(t, kind, place, id),
    }
}

// The translation of an ID between a namespace and the initial one, or that it has none. Refuses: 3 no caller or no
// such namespace.
// Ruled out, for instance: the parent's ID instead of the kernel ID; a refusal of an ID that is not mapped.
#[tactic(auto, unfolding(crate::specs::Calls::translate_reply))]
pub fn translate(
    t: &Tables,
    kind: Kind,
    way: Way,
    caller: u64,
    name: u64,
    id: u32,
) -> Result<Answer, Errno>
    ensures { reply_of result ≡ quick translate_reply (tables_of t.now) kind way caller name id }
{
    // First always: the caller must exist, else 3.
    let place = find_caller(t, caller).ok_or(Errno::ESRCH)?;
    // Then the namespace named, else 3.
    let n = named_namespace(t, place, name).ok_or(Errno::ESRCH)?;
    // An ID, or "unmapped", which is an answer: a match names both.
    match turned(t, kind, way, n as u64, id) {
        Some(x) => Ok(Answer::Id(x)),
        None => Ok(Answer::Unmapped),
    }
}
