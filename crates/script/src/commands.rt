// The call that a word and its numbers make, if they make one: the forms of docs/console.md.
use calls::Call;
use credentials::translate::Way;
use records::{Ids, Kind};

// A number that has to fit in 32 bits.
fn narrow(n: u64) -> Option<u32> {
    u32::try_from(n).ok()
}

fn set_ids(kind: Kind, caller: u64, real: u64, effective: u64, saved: u64) -> Option<Call> {
    let ids = Ids {
        real: narrow(real)?,
        effective: narrow(effective)?,
        saved: narrow(saved)?,
    };
    Some(Call::SetIds(kind, caller, ids))
}

fn translate(kind: Kind, way: Way, caller: u64, name: u64, id: u64) -> Option<Call> {
    Some(Call::Translate(kind, way, caller, name, narrow(id)?))
}

// The calls that take numbers only and lend no buffer.
pub fn plain_call(word: &[u8], numbers: &[u64]) -> Option<Call> {
    match (word, numbers) {
        (b"fork", [caller]) => Some(Call::Fork(*caller)),
        (b"clone", [caller]) => Some(Call::Clone(*caller)),
        (b"unshare", [caller]) => Some(Call::Unshare(*caller)),
        (b"setns", [caller, name]) => Some(Call::Setns(*caller, *name)),
        (b"setresuid", [caller, real, effective, saved]) => {
            set_ids(Kind::User, *caller, *real, *effective, *saved)
        }
        (b"setresgid", [caller, real, effective, saved]) => {
            set_ids(Kind::Group, *caller, *real, *effective, *saved)
        }
        (b"capable", [caller, name, number]) => {
            Some(Call::Capable(*caller, *name, narrow(*number)?))
        }
        (b"capset", [caller, permitted, effective]) => {
            Some(Call::Drop(*caller, *permitted, *effective))
        }
        (b"getids", [caller]) => Some(Call::OwnIdsOf(*caller)),
        (b"translate-uid-out", [caller, name, id]) => {
            translate(Kind::User, Way::Out, *caller, *name, *id)
        }
        (b"translate-uid-back", [caller, name, id]) => {
            translate(Kind::User, Way::Back, *caller, *name, *id)
        }
        (b"translate-gid-out", [caller, name, id]) => {
            translate(Kind::Group, Way::Out, *caller, *name, *id)
        }
        (b"translate-gid-back", [caller, name, id]) => {
            translate(Kind::Group, Way::Back, *caller, *name, *id)
        }
        _ => None,
    }
}

// The reads: a caller, a process and the buffer's length.
pub fn read_call(word: &[u8], numbers: &[u64]) -> Option<(Call, u64)> {
    let [caller, process, length] = numbers else {
        return None;
    };
    let call = match word {
        b"read-uid-map" => Call::ReadMap(Kind::User, *caller, *process),
        b"read-gid-map" => Call::ReadMap(Kind::Group, *caller, *process),
        b"read-setgroups" => Call::ReadSetgroups(*caller, *process),
        _ => return None,
    };
    Some((call, *length))
}

// The writes: a caller and a process, and a text after them.
pub fn write_call(word: &[u8], numbers: &[u64]) -> Option<Call> {
    let [caller, process] = numbers else {
        return None;
    };
    match word {
        b"write-uid-map" => Some(Call::WriteMap(Kind::User, *caller, *process)),
        b"write-gid-map" => Some(Call::WriteMap(Kind::Group, *caller, *process)),
        b"write-setgroups" => Some(Call::WriteSetgroups(*caller, *process)),
        _ => None,
    }
}
