//! Notices of destroyed segments, and counts of changes of pieces.
ghost use Rattle.std.specs.Prelude.{◌≡◌, ◌≢◌};
ghost use Rattle.shm_life.specs.Changing.{changes_of};
ghost use Rattle.nogcuvema.specs.Lookups.{Asks};
ghost use Rattle.nogcuvema.specs.Noticed.{NamesGone};
ghost use Rattle.nogcuvema.specs.Reads.{Reads};

use crate::code::{DONE, OUT_OF_RANGE, TOO_FEW_COUNTS};
use crate::handle::{Handle, with_machine};
use shm_life::Notice;
use shm_machine::Machine;
use std::alloc::Global;

fn gone(machine: &Machine, told: &mut [u32], id: &mut i32) -> u32
    ensures names { NamesGone told.old told.new id.new result machine.now.system }
    ensures id { result ≢ 0 → id.new ≡ id.old }
{
    match machine.system.next_gone(told) {
        Notice::Gone(seg) => {
            *id = seg as i32;
            DONE
        }
        Notice::Nothing => OUT_OF_RANGE,
        Notice::Short => TOO_FEW_COUNTS,
    }
}

/// The identifier of a destroyed segment that was not reported before; the host's count of its index rises by
/// 1. Out of range: all were reported.
#[unsafe(no_mangle)]
pub extern "C" fn nog_gone(
    alloc: Global,
    handle: &mut Handle,
    told: &mut [u32],
    id: &mut i32,
) -> u32
    ensures machine { Asks handle.old.kept.value (NamesGone told.old told.new id.new result)
        result handle.new.kept.value }
    ensures id { result ≢ 0 → id.new ≡ id.old }
    ensures told { result ≢ 0 → told.new ≡ told.old }
{
    with_machine!(alloc, handle, |machine| gone(machine, told, id))
}

/// A number that rises with each call that may change the pieces of this process. As long as it is the same,
/// so are the pieces. Processes whose pids have the same remainder modulo 64 share a number.
#[unsafe(no_mangle)]
pub extern "C" fn nog_changes(alloc: Global, handle: &mut Handle, pid: u32, count: &mut u64) -> u32
    ensures machine { Reads handle.old.kept.value (λ m. count.new ≡ changes_of pid m.system.changes)
        result handle.new.kept.value }
    ensures count { result ≢ 0 → count.new ≡ count.old }
{
    with_machine!(alloc, handle, |machine| {
        *count = machine.system.changes(pid);
        DONE
    })
}
