//! The handle that a C program keeps.
ghost use Rattle.std.specs.Prelude.{◌≡◌, Option, Some, None, option_map};
ghost use Rattle.nogcuvema.specs.Owned.{IsOpenAs};

use crate::owned::Kept;
use crate::parts::Parts;
use shm_machine::Machine;
use std::alloc::Global;
use std::mem::replace;

/// A machine, or none. C keeps it, and moves it only as a whole.
#[repr(C)]
#[derive(Drop)]
pub struct Handle {
    is_open: u32,
    pub kept: Kept,
    ghost rule: { IsOpenAs is_open kept.value },
}

impl Handle {
    /// A handle without a machine.
    #[inline(always)]
    pub fn empty() -> Handle
        ensures { result.kept.value ≡ None }
    {
        Handle {
            is_open: 0,
            kept: Kept::none(),
        }
    }

    /// Takes the machine out, if there is one.
    #[inline(always)]
    pub fn take(&mut self, alloc: Global) -> Option<Box<Machine>>
        ensures new { self.new.kept.value ≡ None }
        ensures old { option_map (λ c. c.value) result ≡ self.old.kept.value }
    {
        let Handle { is_open, kept } = replace(self, Handle::empty());
        if is_open == 0 {
            return None;
        }
        Some(kept.into_parts(alloc).into_box())
    }

    /// Puts a machine into a handle without one.
    #[inline(always)]
    pub fn put(&mut self, machine: Box<Machine>)
        requires { self.old.kept.value ≡ None }
        ensures { self.new.kept.value ≡ Some machine.value }
    {
        *self = Handle {
            is_open: 1,
            kept: Kept::of(Parts::of(machine)),
        };
    }
}

// The code of what is done with the machine in a handle, which has the machine again afterwards; CLOSED if
// there is none. A macro, because the contract of a generic function can't say what a closure writes through
// the references that it captures.
macro_rules! with_machine {
    ($alloc:expr, $handle:expr, |$machine:ident| $act:expr) => {
        match $handle.take($alloc) {
            Some(mut kept) => {
                let $machine = &mut *kept;
                let code = $act;
                $handle.put(kept);
                code
            }
            None => $crate::code::CLOSED,
        }
    };
}

pub(crate) use with_machine;
