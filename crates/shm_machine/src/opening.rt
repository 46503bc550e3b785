//! The swap areas with which a machine is opened, and which of their reads and writes fail.
ghost use Rattle.std.specs.Prelude.{◌≡◌, ◌==◌, ◌≤◌, IfOk, length, true, false};
ghost use Rattle.shm_machine.specs.Opened.{is_at, calls_at, IsMade, AreMade};

use shm_base::HostMemory;
use shm_pager::{AreaKind, AreaPager, Failing};
use shm_pager_core::Side;
use std::alloc::Global;

/// A swap area: its kind and its number of slots. Each side of a mirror has as many.
#[derive(Clone, Copy, Debug, PartialEq, Eq)]
pub struct AreaConfig {
    pub kind: AreaKind,
    pub slots: u32,
}

/// A call of a side of an area that fails: its `call`-th write, or its `call`-th read, counted from 1. Areas
/// count from 0.
#[derive(Clone, Copy, Debug, PartialEq, Eq)]
pub struct Failure {
    pub area: u32,
    pub side: Side,
    pub is_write: bool,
    pub call: u64,
}

impl Failure {
    // Whether the failure is one of this side's reads or writes.
    fn is_at(&self, area: u32, side: Side, is_write: bool) -> bool
        ensures { result ≡ is_at area side is_write self.now }
    {
        self.area == area && self.side == side && self.is_write == is_write
    }
}

// The failing reads, or the failing writes, of a side.
fn calls_at(
    alloc: Global,
    failures: &[Failure],
    area: u32,
    side: Side,
    is_write: bool,
) -> Result<Vec<u64>, HostMemory>
    ensures { IfOk result (λ v. v.items ≡ calls_at area side is_write failures.now) }
{
    let mut calls = Vec::new(alloc);
    for failure in failures {
        if failure.is_at(area, side, is_write) {
            calls.push(failure.call)?;
        }
    }
    Ok(calls)
}

fn failing(
    alloc: Global,
    failures: &[Failure],
    area: u32,
    side: Side,
) -> Result<Failing, HostMemory>
    ensures reads { IfOk result (λ f. f.reads.items ≡ calls_at area side false failures.now) }
    ensures writes { IfOk result (λ f. f.writes.items ≡ calls_at area side true failures.now) }
{
    Ok(Failing {
        reads: calls_at(alloc, failures, area, side, false)?,
        writes: calls_at(alloc, failures, area, side, true)?,
    })
}

// An area of zeros. Exactly the listed calls fail, and in a sparse area also writes for which the host
// refuses memory.
pub(crate) fn pager_for(
    alloc: Global,
    index: u32,
    area: &AreaConfig,
    failures: &[Failure],
) -> Result<AreaPager, HostMemory>
    ensures { IfOk result (IsMade failures.now index area.now) }
{
    let left = failing(alloc, failures, index, Side::Left)?;
    let right = failing(alloc, failures, index, Side::Right)?;
    AreaPager::new(alloc, area.kind, area.slots, left, right)
}

/// The areas in order.
pub(crate) fn pagers_for(
    alloc: Global,
    areas: &[AreaConfig],
    failures: &[Failure],
) -> Result<Vec<AreaPager>, HostMemory>
    requires { length areas.now ≤ 8 }
    ensures { IfOk result (λ v. AreMade failures.now 0 areas.now v.items) }
{
    let mut pagers = Vec::new(alloc);
    for (index, area) in areas.iter().enumerate() {
        pagers.push(pager_for(alloc, index as u32, area, failures)?)?;
    }
    Ok(pagers)
}
