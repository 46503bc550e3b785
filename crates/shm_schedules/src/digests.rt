//! The number by which a list of replies is hashed.
ghost use Rattle.std.specs.Prelude.{◌≡◌};
ghost use Rattle.shm_schedules.specs.Digests.{mixed, with_bytes, with_replies, with_reply};

use shm_base::Reply;

// A digest with one more number.
fn mixed(digest: u64, number: u64) -> u64
    ensures { result ≡ mixed digest number }
{
    digest
        .wrapping_add(number)
        .wrapping_mul(6364136223846793005)
}

fn with_bytes(digest: u64, bytes: &[u8]) -> u64
    ensures { result ≡ with_bytes digest bytes.now }
{
    let mut all = digest;
    for byte in bytes {
        all = mixed(all, *byte as u64);
    }
    all
}

fn with_reply(digest: u64, reply: &Reply) -> u64
    ensures { result ≡ with_reply digest reply.now }
{
    match reply {
        Reply::Bytes(bytes) => with_bytes(digest, bytes.as_slice()),
        Reply::Number(number) => mixed(digest, *number),
        _ => mixed(digest, 1),
    }
}

pub(crate) fn with_replies(digest: u64, replies: &[Reply]) -> u64
    ensures { result ≡ with_replies digest replies.now }
{
    let mut all = digest;
    for reply in replies {
        all = with_reply(all, reply);
    }
    mixed(all, 257)
}
