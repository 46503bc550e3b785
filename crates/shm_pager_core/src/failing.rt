//! Failures of calls to come, which are added while a pager is in use.
ghost use Rattle.std.specs.Prelude.{◌≡◌, ◌<◌, length, true, Bool, OnErr, OnOk};
ghost use Rattle.shm_pager_core.specs.Failing.{FailsLater, calls_failing, endless, IsRefusedFailure, is_to_come};
ghost use Rattle.shm_pager_core.specs.Pages.{pager_seen};

use crate::pager::Pager;
use shm_base::HostMemory;
use thiserror::Error;

/// A side of an area. Only a mirror has a right side.
#[derive(Clone, Copy, Debug, PartialEq, Eq)]
pub enum Side {
    Left,
    Right,
}

/// A read or a write of a side that will fail: the `call`-th from now, counted from 1. If it is lasting, each
/// later one fails too.
#[derive(Clone, Copy, Debug, PartialEq, Eq)]
pub struct ComingFailure {
    pub side: Side,
    pub is_write: bool,
    pub call: u64,
    pub is_lasting: bool,
}

impl ComingFailure {
    /// Whether it is a call to come, of a side that a pager has: of the left side, or of any if there is a
    /// right one.
    pub fn is_to_come(&self, has_right: bool) -> bool
        ensures { result ≡ is_to_come has_right self.now }
    {
        self.call >= 1 && (has_right || self.side == Side::Left)
    }
}

/// Why a failure was refused. `NotThere`: its call is 0, or the pager does not have its side. `HostMemory`:
/// the host refused memory for the list of failures.
#[derive(Clone, Copy, Debug, PartialEq, Eq, Error)]
pub enum FailRefused {
    #[error("there is no such call")]
    NotThere,
    #[error("out of memory")]
    HostMemory,
}

/// A pager whose calls can be made to fail while it is in use.
pub trait FailPager: Pager {
    /// Whether it is a mirror, with a right side.
    ghost has_right: { Self → Bool };

    /// Makes a call to come fail. Calls nothing: each page stays as it is. Refused as [`FailRefused`] says;
    /// then nothing changed.
    fn fail(&mut self, failure: &ComingFailure) -> Result<(), FailRefused>
        ensures ok { let view = pager_seen Self.content Self.failed Self.most Self.calls in
            OnOk result (FailsLater failure.now (view self.old) (view self.new)) }
        ensures calls { OnOk result
            (Self.calls self.new ≡ calls_failing failure.now (Self.calls self.old)) }
        ensures granted { OnOk result (is_to_come (has_right self.old) failure.now ≡ true) }
        ensures err { OnErr result (self.new ≡ self.old) }
        ensures cause { IsRefusedFailure (has_right self.old) failure.now result };

    /// Makes each read of a slot fail until the slot is written; of a mirror, each read of both
    /// sides. Calls nothing: each page stays as it is. HostMemory: the host refused memory, and nothing changed.
    fn fail_slot(&mut self, slot: u32) -> Result<(), HostMemory>
        requires { slot < length (Self.content self.old) }
        ensures ok { let view = pager_seen Self.content Self.failed Self.most Self.calls in
            OnOk result (view self.new ≡ endless slot (view self.old)) }
        ensures err { OnErr result (self.new ≡ self.old) };
}
