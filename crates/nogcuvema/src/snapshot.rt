//! Snapshots.
ghost use Rattle.nogcuvema.specs.Copied.{CopiesTo, IsCopied};

use crate::code::{CLOSED, DONE, LENT, NO_MEMORY};
use crate::handle::Handle;
use shm_machine::Machine;
use std::alloc::Global;

fn copied(alloc: Global, machine: &Machine, copy: &mut Handle) -> u32
    ensures { IsCopied machine.now copy.old.kept.value result copy.new.kept.value }
{
    if machine.system.lent() != 0 {
        return LENT;
    }
    let Ok(made) = machine.try_clone() else {
        return NO_MEMORY;
    };
    let Ok(block) = Box::new(alloc, made) else {
        return NO_MEMORY;
    };
    let _before = copy.take(alloc);
    copy.put(block);
    DONE
}

/// Puts a machine with the same state and memory into another handle, and drops the machine that was in that.
/// Afterwards the two are independent. If a page is on loan, or if the host refuses memory, neither handle
/// changes. C may pass one handle twice, which does not change it. Not counted as a call.
#[unsafe(no_mangle)]
pub extern "C" fn nog_snapshot(alloc: Global, handle: &mut Handle, copy: &mut Handle) -> u32
    ensures { CopiesTo handle.old.kept.value copy.old.kept.value result
        handle.new.kept.value copy.new.kept.value }
{
    match handle.take(alloc) {
        Some(kept) => {
            let code = copied(alloc, &kept, copy);
            // If it was passed twice, it has the copy now.
            let _copy = handle.take(alloc);
            handle.put(kept);
            code
        }
        None => CLOSED,
    }
}
