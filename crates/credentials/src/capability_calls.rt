// The capability question, and drop.
ghost use Rattle.std.specs.Prelude.{◌≡◌, true};
ghost use Rattle.tables.specs.Tables.{tables_of};
ghost use Rattle.tables.specs.Reply.{reply_of, Promise};
ghost use Rattle.capability.specs.Sets.{is_within};
ghost use Rattle.credentials.specs.Calls.{with_sets, capable_reply, drop_of};

use capability::{CAP_LAST_CAP, CapabilitySet};
use hierarchy::capable::capable;
use records::Process;
use tables::Tables;
use tables::answer::{Answer, Errno};
use tables::find::{find_caller, named_namespace};
use tables::processes::{process_at, process_put};

// Whether the caller holds a capability in a namespace. Refuses: 3 no caller or no such namespace, 22 the number is
// over 36.
// Ruled out, for instance: an answer for number 37; yes for no.
#[tactic(auto, unfolding(crate::specs::Calls::capable_reply))]
pub fn ask(t: &Tables, caller: u64, name: u64, number: u32) -> Result<Answer, Errno>
    ensures { reply_of result ≡ capable_reply (tables_of t.now) caller name number }
{
    // First always: the caller must exist, else 3.
    let place = find_caller(t, caller).ok_or(Errno::ESRCH)?;
    // Then the namespace named, else 3.
    let n = named_namespace(t, place, name).ok_or(Errno::ESRCH)?;
    // 22 if the number is over 36, else yes or no.
    if CAP_LAST_CAP < number {
        return Err(Errno::EINVAL);
    }
    let p = process_at(t, place);
    if capable(t, p, n as u64, number) {
        Ok(Answer::Yes)
    } else {
        Ok(Answer::No)
    }
}

// The process with lowered sets.
#[tactic(auto, unfolding(crate::specs::Calls::with_sets))]
fn with_sets(p: Process, permitted: u64, effective: u64) -> Process
    requires { (is_within permitted p.permitted.bits ≡ true) × (is_within effective permitted ≡ true) }
    ensures { result ≡ with_sets p permitted effective }
{
    let kept = p.permitted.lowered(CapabilitySet::new(permitted));
    Process {
        permitted: kept,
        effective: kept.lowered(CapabilitySet::new(effective)),
        ..p
    }
}

// A drop of capabilities. Refuses: 3 no caller, 1 where the permitted set would gain one or the effective set is no
// part of it.
// Ruled out, for instance: an effective set beyond the new permitted one; a permitted set that is not lowered.
#[tactic(auto, unfolding(crate::specs::Calls::drop_of))]
pub fn drop(t: &mut Tables, caller: u64, permitted: u64, effective: u64) -> Result<Answer, Errno>
    ensures { Promise result t.old t.new (drop_of (tables_of t.old) caller permitted effective) }
{
    // First always: the caller must exist, else 3.
    let place = find_caller(t, caller).ok_or(Errno::ESRCH)?;
    let p = process_at(t, place);
    let old = p.permitted;
    let new = CapabilitySet::new(permitted);
    // 1 where it adds one to the permitted set, ..
    if !new.within(old) {
        return Err(Errno::EPERM);
    }
    // .. or the new effective set is no part of the new permitted.
    if !CapabilitySet::new(effective).within(new) {
        return Err(Errno::EPERM);
    }
    process_put(t, place, with_sets(p, permitted, effective));
    Ok(Answer::Done)
}
