//! Which calls may have changed a machine.
ghost use Rattle.std.specs.Prelude.{◌≡◌};
ghost use Rattle.shm_base.specs.Access.{same_bytes};
ghost use Rattle.shm_base.specs.History.{is_refusal};
ghost use Rattle.shm_schedules.specs.Alike.{is_change, is_void, looks};

use shm_base::{Call, Event, Reply};

/// Whether a reply is an error.
pub fn is_refusal(reply: &Reply) -> bool
    ensures { result ≡ is_refusal reply.now }
{
    match reply {
        Reply::Refused(_) => true,
        _ => false,
    }
}

fn are_same(bytes: &[u8], expected: &[u8]) -> bool
    ensures { result ≡ same_bytes bytes.now expected.now }
{
    bytes == expected
}

// Whether a call was refused and changed nothing. A refused `mprotect` has changed the pages below the one at
// which it was refused.
fn is_void(call: &Call, reply: &Reply) -> bool
    ensures { result ≡ is_void call.now reply.now }
{
    match call {
        Call::Mprotect { .. } => false,
        _ => is_refusal(reply),
    }
}

// Whether a call that is not refused changes nothing.
fn looks(call: &Call, reply: &Reply) -> bool
    ensures { result ≡ looks call.now reply.now }
{
    match (call, reply) {
        (Call::Load { .. }, _) => true,
        (Call::Stat { .. }, _) => true,
        (Call::CompareExchange { expected, .. }, Reply::Bytes(old)) => {
            !are_same(old.as_slice(), expected.as_slice())
        }
        _ => false,
    }
}

/// Whether a call may have changed the machine: it succeeded, and is no `load`, no `stat`, and no `cas` that
/// found other bytes than it expects; or it is an `mprotect`, which changes pages also if it is refused at a
/// higher one.
pub fn is_change(event: &Event) -> bool
    ensures { result ≡ is_change event.now }
{
    !is_void(&event.call, &event.reply) && !looks(&event.call, &event.reply)
}
