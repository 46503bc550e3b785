//! Reports destroyed segments to a host that keeps something for each segment. No identifier is used twice,
//! and the table counts the segments that were destroyed at each index. So a host that counts the reports for
//! each index gets one report for each segment, and the machine keeps no list.
ghost use Rattle.std.specs.Prelude.{◌≡◌, ◌<◌, ◌^◌, ◌&&◌, nat_lt};
ghost use Rattle.shm_base.specs.Identifier.{destroyed_at, identifier};
ghost use Rattle.shm_base.specs.declared.bounds.TheConstants.{INDEXES, SEQUENCES};
ghost use Rattle.shm_life.specs.Notices.{Notices};

use crate::kernel::Kernel;
use crate::system::System;
use shm_base::{Errno, INDEXES, SEQUENCES};
use shm_pager_core::Pager;

/// A report of a destroyed segment, or why there is none.
#[derive(Clone, Copy, Debug, PartialEq, Eq)]
pub enum Notice {
    /// The segment with this identifier was destroyed.
    Gone(u32),
    /// Every destroyed segment was reported.
    Nothing,
    /// The host has fewer counts than the table has indexes.
    Short,
}

// The identifier of the segment that came after this many others at an index.
fn identifier(index: u32, sequence: u32) -> u32
    requires index { index < INDEXES }
    requires sequence { sequence < SEQUENCES }
    ensures value { result ≡ identifier index sequence }
    ensures small { result < 2 ^ 31 }
{
    index + INDEXES * sequence
}

impl<P: Pager> Kernel<P> {
    // Whether the segment that came after this many others at an index was destroyed.
    fn is_gone(&self, index: u32, sequence: u32) -> bool
        requires { index < INDEXES }
        ensures { let gone = nat_lt sequence (destroyed_at self.now.flat.table index) in
            result ≡ (nat_lt sequence SEQUENCES && gone) }
    {
        if sequence >= SEQUENCES {
            return false;
        }
        let id = identifier(index, sequence) as i32;
        matches!(self.segments.look(id), Err(Errno::Eidrm))
    }

    fn next_gone(&self, told: &mut [u32]) -> Notice
        ensures { Notices self.now.flat.table told.old result told.new }
    {
        let indexes = self.segments.indexes();
        if told.len() < indexes as usize {
            return Notice::Short;
        }
        for index in 0..indexes {
            let sequence = told[index as usize];
            if self.is_gone(index, sequence) {
                told[index as usize] = sequence + 1;
                return Notice::Gone(identifier(index, sequence));
            }
        }
        Notice::Nothing
    }
}

impl<P: Pager> System<P> {
    /// Reports the first destroyed segment at the lowest index that was not reported before. `told` has a
    /// count for each index of the table: how many of the segments that were destroyed there were reported.
    /// The count of that index rises by 1. If all counts are 0 at the start, each destroyed segment is
    /// reported once.
    pub fn next_gone(&self, told: &mut [u32]) -> Notice
        ensures { Notices self.now.machine.table told.old result told.new }
    {
        self.kernel.next_gone(told)
    }
}
