//! The codes of answers: `nog_code` of the header.
ghost use Rattle.std.specs.Prelude.{◌≡◌, ◌≢◌};
ghost use Rattle.nogcuvema.specs.Answers.{refusal_code};

use shm_machine::Refusal;

/// The call was done.
pub(crate) const DONE: u32 = 0;

/// The host refused memory.
pub(crate) const NO_MEMORY: u32 = 2001;

/// The handle has no machine.
pub(crate) const CLOSED: u32 = 2002;

/// A number that no call can carry.
pub(crate) const OUT_OF_RANGE: u32 = 2003;

/// The machine's call counter is at its maximum, so it makes no more calls.
pub(crate) const SPENT: u32 = 2004;

/// A page on loan is in the way.
pub(crate) const LENT: u32 = 2005;

/// The caller has fewer counts than there are indexes.
pub(crate) const TOO_FEW_COUNTS: u32 = 2006;

/// The code of a refusal: the number of the errno, or a code of this interface.
pub(crate) fn refusal_code(refusal: Refusal) -> u32
    ensures code { result ≡ refusal_code refusal }
    ensures some { result ≢ 0 }
{
    match refusal {
        Refusal::Refused(errno) => errno.code(),
        Refusal::HostMemory => NO_MEMORY,
        Refusal::Spent => SPENT,
        Refusal::Lent => LENT,
    }
}
