//! Failures of swap areas that the host adds to a running machine.
ghost use Rattle.std.specs.Prelude.{◌≡◌};
ghost use Rattle.nogcuvema.specs.Failing.{FailsAs, PageFailsBy, coming_of, fail_code, page_code};
ghost use Rattle.nogcuvema.specs.Hosting.{HostedThrough};
ghost use Rattle.nogcuvema.specs.Lending.{page_by};

use crate::code::{DONE, NO_MEMORY, OUT_OF_RANGE};
use crate::handle::{Handle, with_machine};
use crate::loans::page_of;
use crate::open::side_of;
use crate::structs::NogFailure;
use shm_base::Errno;
use shm_life::PageNotFailed;
use shm_machine::Machine;
use shm_pager_core::{ComingFailure, FailRefused};
use std::alloc::Global;

fn fail_code(refusal: FailRefused) -> u32
    ensures { result ≡ fail_code refusal }
{
    match refusal {
        FailRefused::NotThere => OUT_OF_RANGE,
        FailRefused::HostMemory => NO_MEMORY,
    }
}

fn page_code(refusal: PageNotFailed) -> u32
    ensures { result ≡ page_code refusal }
{
    match refusal {
        PageNotFailed::NoSegment => Errno::Einval.code(),
        PageNotFailed::NoPage => OUT_OF_RANGE,
        PageNotFailed::NoSlot => Errno::Enoent.code(),
        PageNotFailed::HostMemory => NO_MEMORY,
    }
}

fn coming_of(failure: &NogFailure, is_lasting: u32) -> ComingFailure
    ensures { result ≡ coming_of failure.now is_lasting }
{
    ComingFailure {
        side: side_of(failure.side),
        is_write: failure.is_write != 0,
        call: failure.call,
        is_lasting: is_lasting != 0,
    }
}

fn fail(machine: &mut Machine, failure: &NogFailure, is_lasting: u32) -> u32
    ensures { FailsAs failure.now is_lasting machine.old result machine.new }
{
    if failure.side >= 2 {
        return OUT_OF_RANGE;
    }
    match machine
        .system
        .fail(failure.area, &coming_of(failure, is_lasting))
    {
        Ok(()) => DONE,
        Err(refusal) => fail_code(refusal),
    }
}

fn fail_page(machine: &mut Machine, id: i32, page: u32) -> u32
    ensures { PageFailsBy (page_by id page) machine.old result machine.new }
{
    let Some(page) = page_of(id, page) else {
        return Errno::Einval.code();
    };
    match machine.system.fail_page(page) {
        Ok(()) => DONE,
        Err(refusal) => page_code(refusal),
    }
}

/// Makes a read or a write of a swap area to come fail, counted from now; if it is lasting, each later one too.
/// Not counted as a call.
#[unsafe(no_mangle)]
pub extern "C" fn nog_fail(
    alloc: Global,
    handle: &mut Handle,
    failure: &NogFailure,
    is_lasting: u32,
) -> u32
    ensures { HostedThrough (FailsAs failure.now is_lasting) handle.old.kept.value result handle.new.kept.value }
{
    with_machine!(alloc, handle, |machine| fail(machine, failure, is_lasting))
}

/// Makes each read of the slot in which a page lies fail, until the slot is written or freed. Not counted as a
/// call.
#[unsafe(no_mangle)]
pub extern "C" fn nog_fail_page(alloc: Global, handle: &mut Handle, id: i32, page: u32) -> u32
    ensures { HostedThrough (PageFailsBy (page_by id page))
        handle.old.kept.value result handle.new.kept.value }
{
    with_machine!(alloc, handle, |machine| fail_page(machine, id, page))
}
