//! Pages on loan to the host, such as an emulator or a kernel.
ghost use Rattle.std.specs.Prelude.{◌≡◌, ◌≢◌, ◌==◌, true, length, option_map};
ghost use Rattle.shm_base.specs.declared.paging.TheConstants.{PAGE_SIZE};
ghost use Rattle.shm_base.specs.Callers.{caller_of};
ghost use Rattle.shm_fault.specs.Loans.{frame_met};
ghost use Rattle.shm_life.specs.Lending.{leaver_seen, page_seen};
ghost use Rattle.nogcuvema.specs.Hosting.{HostedThrough};
ghost use Rattle.nogcuvema.specs.Lending.{FrameThrough, IfFits, LendsBy, PageThrough, ReturnsBy, ShowsFrame, ShowsPage, given_by, is_given, lend_code, page_by, return_code};

use crate::code::{DONE, LENT, OUT_OF_RANGE};
use crate::handle::{Handle, with_machine};
use crate::structs::NogFrame;
use shm_base::{Errno, PAGE_BYTES, PageRef};
use shm_fault::FrameInfo;
use shm_life::{LendRefusal, ReturnRefusal};
use shm_machine::Machine;
use std::alloc::Global;

// The page of a segment, if the identifier is not negative.
pub(crate) fn page_of(id: i32, page: u32) -> Option<PageRef>
    ensures { result ≡ page_by id page }
{
    let Ok(seg) = u32::try_from(id) else {
        return None;
    };
    Some(PageRef { seg, page })
}

fn lend_code(refusal: LendRefusal) -> u32
    ensures code { result ≡ lend_code refusal }
    ensures some { result ≢ 0 }
{
    match refusal {
        LendRefusal::NoSegment => Errno::Einval.code(),
        LendRefusal::NoPage => OUT_OF_RANGE,
        LendRefusal::Lent => LENT,
        LendRefusal::Sigbus => Errno::Sigbus.code(),
    }
}

fn return_code(refusal: ReturnRefusal) -> u32
    ensures { result ≡ return_code refusal }
{
    match refusal {
        ReturnRefusal::NoSegment => Errno::Einval.code(),
        ReturnRefusal::NotLent => OUT_OF_RANGE,
    }
}

fn lend(machine: &mut Machine, id: i32, page: u32, bytes: &mut [u8]) -> u32
    ensures lends { let fits = length bytes.old == PAGE_SIZE in
        IfFits fits (LendsBy (page_by id page) bytes.old bytes.new) machine.old result machine.new }
    ensures bytes { result ≢ 0 → bytes.new ≡ bytes.old }
{
    if bytes.len() != PAGE_BYTES {
        return OUT_OF_RANGE;
    }
    let Some(page) = page_of(id, page) else {
        return Errno::Einval.code();
    };
    match machine.system.lend(page, bytes) {
        Ok(()) => DONE,
        Err(refusal) => lend_code(refusal),
    }
}

/// The page comes in as by a load, and its 4,096 bytes are copied out. From then on it is on loan, and stays in
/// its frame. Not counted as a call.
#[unsafe(no_mangle)]
pub extern "C" fn nog_lend(
    alloc: Global,
    handle: &mut Handle,
    id: i32,
    page: u32,
    bytes: &mut [u8],
) -> u32
    ensures lends { let fits = length bytes.old == PAGE_SIZE in
        HostedThrough (IfFits fits (LendsBy (page_by id page) bytes.old bytes.new))
        handle.old.kept.value result handle.new.kept.value }
    ensures bytes { result ≢ 0 → bytes.new ≡ bytes.old }
{
    with_machine!(alloc, handle, |machine| lend(machine, id, page, bytes))
}

// The bytes that a page comes back with: all of it, or none.
fn given(bytes: &[u8]) -> Option<&[u8]>
    ensures { option_map (λ b. b.now) result ≡ given_by bytes.now }
{
    if bytes.is_empty() { None } else { Some(bytes) }
}

fn give_back(machine: &mut Machine, id: i32, page: u32, bytes: &[u8]) -> u32
    ensures { let returns = ReturnsBy (page_by id page) (given_by bytes.now) in
        IfFits (is_given (length bytes.now)) returns machine.old result machine.new }
{
    if !bytes.is_empty() && bytes.len() != PAGE_BYTES {
        return OUT_OF_RANGE;
    }
    let Some(page) = page_of(id, page) else {
        return Errno::Einval.code();
    };
    match machine.system.give_back(page, given(bytes)) {
        Ok(()) => DONE,
        Err(refusal) => return_code(refusal),
    }
}

/// A page on loan comes back: with the 4,096 bytes that it has now, or with none if they did not change. Not
/// counted as a call.
#[unsafe(no_mangle)]
pub extern "C" fn nog_give_back(
    alloc: Global,
    handle: &mut Handle,
    id: i32,
    page: u32,
    bytes: &[u8],
) -> u32
    ensures { let returns = ReturnsBy (page_by id page) (given_by bytes.now) in
        HostedThrough (IfFits (is_given (length bytes.now)) returns)
        handle.old.kept.value result handle.new.kept.value }
{
    with_machine!(alloc, handle, |machine| give_back(machine, id, page, bytes))
}

// Writes what a frame shows, if it has a page.
fn put_frame(info: Option<FrameInfo>, frame: &mut NogFrame) -> u32
    ensures shows { ShowsFrame info frame.new result }
    ensures frame { result ≢ 0 → frame.new ≡ frame.old }
{
    let Some(info) = info else {
        return OUT_OF_RANGE;
    };
    let Some(owner) = info.owner else {
        return OUT_OF_RANGE;
    };
    let Ok(id) = i32::try_from(owner.seg) else {
        return OUT_OF_RANGE;
    };
    *frame = NogFrame::of(id, owner.page, &info);
    DONE
}

/// The frame whose page would leave it if a page came in now. Not counted as a call. Out of range: a frame is free.
#[unsafe(no_mangle)]
pub extern "C" fn nog_leaver(alloc: Global, handle: &mut Handle, frame: &mut NogFrame) -> u32
    ensures machine { FrameThrough (λ (m : Machine). leaver_seen m.system.memory)
        handle.old.kept.value frame.new result handle.new.kept.value }
    ensures frame { result ≢ 0 → frame.new ≡ frame.old }
{
    with_machine!(
        alloc,
        handle,
        |machine| put_frame(machine.system.leaver(), frame)
    )
}

/// The frame that the clock's hand meets after `place` others. Not counted as a call. Out of range: there are
/// not that many frames, or this one is free.
#[unsafe(no_mangle)]
pub extern "C" fn nog_frame_at(
    alloc: Global,
    handle: &mut Handle,
    place: u32,
    frame: &mut NogFrame,
) -> u32
    ensures machine { FrameThrough (λ (m : Machine). frame_met m.system.memory place)
        handle.old.kept.value frame.new result handle.new.kept.value }
    ensures frame { result ≢ 0 → frame.new ≡ frame.old }
{
    with_machine!(
        alloc,
        handle,
        |machine| put_frame(machine.system.frame_at(place), frame)
    )
}

fn page_at(
    machine: &Machine,
    pid: u32,
    addr: u64,
    id: &mut i32,
    page: &mut u32,
    is_writable: &mut u32,
) -> u32
    ensures shows { let seen = page_seen (caller_of machine.now.system.machine pid) addr in
        ShowsPage seen id.new page.new is_writable.new result }
    ensures id { result ≢ 0 → id.new ≡ id.old }
    ensures page { result ≢ 0 → page.new ≡ page.old }
    ensures writable { result ≢ 0 → is_writable.new ≡ is_writable.old }
{
    let (shown, may_write) = match machine.system.page_at(pid, addr) {
        Ok(found) => found,
        Err(errno) => return errno.code(),
    };
    let Ok(seg) = i32::try_from(shown.seg) else {
        return OUT_OF_RANGE;
    };
    *id = seg;
    *page = shown.page;
    *is_writable = u32::from(may_write);
    DONE
}

/// The page that an address of a live process shows, and whether the process may write there. Not counted as a
/// call.
#[unsafe(no_mangle)]
pub extern "C" fn nog_page_at(
    alloc: Global,
    handle: &mut Handle,
    pid: u32,
    addr: u64,
    id: &mut i32,
    page: &mut u32,
    is_writable: &mut u32,
) -> u32
    ensures machine { PageThrough pid addr handle.old.kept.value id.new page.new is_writable.new result
        handle.new.kept.value }
    ensures id { result ≢ 0 → id.new ≡ id.old }
    ensures page { result ≢ 0 → page.new ≡ page.old }
    ensures writable { result ≢ 0 → is_writable.new ≡ is_writable.old }
{
    with_machine!(
        alloc,
        handle,
        |machine| page_at(machine, pid, addr, id, page, is_writable)
    )
}
