// The setgroups file: its write.
ghost use Rattle.std.specs.Prelude.{◌≡◌};
ghost use Rattle.tables.specs.Tables.{tables_of};
ghost use Rattle.tables.specs.Reply.{Promise};
ghost use Rattle.mapping.specs.Calls.{setting_in, write_setgroups_to, write_setgroups_of};

use capability::CAP_SYS_ADMIN;
use hierarchy::capable::capable;
use records::Process;
use tables::Tables;
use tables::answer::{Answer, Errno};
use tables::find::{find_caller, named_process};
use tables::namespaces::{deny_put, namespace_at};
use tables::processes::process_at;

// Whether a text sets "deny" or "allow", with or without one newline after; any other text sets nothing.
#[tactic(auto, unfolding(crate::specs::Calls::setting_in, crate::specs::Calls::is_word))]
fn asked_setting(text: &[u8]) -> Option<bool>
    ensures { result ≡ setting_in text.now }
{
    // Compared whole: a match of byte strings is 25 cases, and not all of them were proved.
    if text == b"deny".as_slice() || text == b"deny\n".as_slice() {
        return Some(true);
    }
    if text == b"allow".as_slice() || text == b"allow\n".as_slice() {
        return Some(false);
    }
    None
}

// The write to namespace `n` by process `w`.
#[tactic(auto, unfolding(crate::specs::Calls::write_setgroups_to))]
fn write_to(t: &mut Tables, w: Process, n: u64, text: &[u8]) -> Result<Answer, Errno>
    ensures { Promise result t.old t.new (write_setgroups_to (tables_of t.old) w n text.now) }
{
    // 1 without SYS_ADMIN in the target.
    if !capable(t, w, n, CAP_SYS_ADMIN) {
        return Err(Errno::EPERM);
    }
    let target = namespace_at(t, n as usize);
    // 22 unless the text is exactly one of the words.
    let deny = asked_setting(text).ok_or(Errno::EINVAL)?;
    // "deny" gets 1 if the group map is written.
    if deny && target.groups.state.is_written() {
        return Err(Errno::EPERM);
    }
    // "allow" gets 1 if the setting is "deny".
    if !deny && target.deny {
        return Err(Errno::EPERM);
    }
    deny_put(t, n as usize, deny);
    Ok(Answer::Done)
}

// Writes the setgroups setting of the namespace that process `name` is in. Refuses: 3 no caller or no such process; 1
// without SYS_ADMIN in the target; 22 a text that is neither word; 1 deny where the group map is written; 1 allow where
// the setting is deny.
// Ruled out, for instance: deny over a written group map; allow over deny.
#[tactic(auto, unfolding(crate::specs::Calls::write_setgroups_of))]
pub fn write_setgroups(t: &mut Tables, caller: u64, name: u64, text: &[u8]) -> Result<Answer, Errno>
    ensures { Promise result t.old t.new (write_setgroups_of (tables_of t.old) caller name text.now) }
{
    // First always: the caller must exist, else 3.
    let writer = find_caller(t, caller).ok_or(Errno::ESRCH)?;
    // Then the process named, else 3.
    let place = named_process(t, writer, name).ok_or(Errno::ESRCH)?;
    let w = process_at(t, writer);
    let p = process_at(t, place);
    write_to(t, w, p.namespace, text)
}
