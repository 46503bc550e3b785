//! A machine on the heap, by a pointer that C keeps.
ghost use Rattle.std.specs.Prelude.{◌≡◌, Option, Some, None, IsSome};
ghost use Rattle.nogcuvema.specs.Owned.{owned};
ghost use Rattle.shm_machine.specs.declared.machine.Machine.{Machine};

use crate::parts::Parts;
use shm_machine::Machine;
use std::alloc::{Allocator, Global};
use std::marker::Model;

/// The block of a machine, or nothing. Dropping it frees nothing.
#[repr(C)]
#[derive(Drop)]
pub struct Kept {
    at: *mut u8,
    pub ghost value: { Option Machine },
}

impl Model for Kept {
    ghost also_owns = { λ k. owned
        (⟦<Global as Allocator>⟧.dealloc_token (record { memory = record { seal = tt } })) k.at k.value };
}

impl Kept {
    /// Nothing.
    #[inline(always)]
    pub fn none() -> Kept
        ensures { result.value ≡ None }
    {
        Kept {
            at: std::ptr::null_mut(),
        }
    }

    /// Takes over the block of a machine.
    #[inline(always)]
    pub fn of(parts: Parts<Machine, Global>) -> Kept
        ensures { result.value ≡ Some parts.value }
    {
        let Parts { ptr, alloc: _ } = parts;
        Kept { at: ptr as *mut u8 }
    }

    /// Returns the block.
    #[inline(always)]
    pub fn into_parts(self, alloc: Global) -> Parts<Machine, Global>
        requires { IsSome self.value }
        ensures { self.value ≡ Some result.value }
    {
        let Kept { at } = self;
        Parts {
            ptr: at as *mut Machine,
            alloc,
        }
    }
}
