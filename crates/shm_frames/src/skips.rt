//! Blocks of frames that the clock's hand skips.
//!
//! The hand passes the frames of locked segments in each turn. A mark on a block of 64 frames says that no
//! page of the block may go, so the hand does not look at them one by one again. The caller forgets a block's
//! mark when a frame of the block gets a page, and all marks when it unlocks a segment. Memory is reserved
//! once, and no mark is written before its block or a later one is skipped.
ghost use Rattle.std.specs.Prelude.{◌≡◌, ℕ, ◌+◌, ◌/◌, ◌<◌, ◌≤◌, false, true, length, set, replicate, vec_capacity, IfOk};
ghost use Rattle.shm_base.specs.Stored.{padded};
ghost use Rattle.shm_frames.specs.Skips.{is_skipped};

use crate::frames::copied;
use shm_base::{FrameNo, HostMemory};
use std::alloc::Global;
use std::marker::Model;

/// How many frames share one mark.
pub const BLOCK_FRAMES: u32 = 64;

const BLOCK: usize = BLOCK_FRAMES as usize;

/// The blocks of 64 frames that the clock's hand skips. Contracts see a list of marks, one for each block.
pub struct Skips {
    // Whether each of the first blocks is skipped. The blocks after these are not.
    marks: Vec<bool>,
    blocks: u32,
}

impl Drop for Skips {
    fn drop(self) {
        let Skips {
            marks: _,
            blocks: _,
        } = self;
    }
}

impl Model for Skips {
    ghost use Rattle.std.specs.Prelude.{Bool, false, ◌≤◌, ◌<◌, ◌^◌, List, length, vec_capacity};
    ghost use Rattle.shm_base.specs.Stored.{padded};

    ghost Value = { List Bool };

    ghost view = { λ a. padded a.marks.items a.blocks false };

    ghost invariant = { λ a. (length a.marks.items ≤ a.blocks) × (a.blocks ≤ vec_capacity a.marks)
        × (a.blocks < 2 ^ 32) };
}

// Marks the block of a frame.
fn mark(marks: &mut Vec<bool>, frame: FrameNo)
    requires { frame / 64 < vec_capacity marks.old }
    ensures marks { marks.new.items ≡ set (padded marks.old.items (frame / 64 + 1) false) (frame / 64) true }
    ensures room { vec_capacity marks.new ≡ vec_capacity marks.old }
{
    let block = frame as usize / BLOCK;
    for _block in marks.len()..block + 1 {
        marks.push_reserved(false);
    }
    marks[block] = true;
}

impl Skips {
    /// Skips no block of this many frames. Reserves the memory for all marks, and touches none of it.
    pub fn new(alloc: Global, frames: u32) -> Result<Skips, HostMemory>
        ensures { IfOk result (λ skips. skips ≡ replicate (frames / 64 + 1) false) }
    {
        let blocks = frames / BLOCK_FRAMES + 1;
        Ok(Skips {
            marks: Vec::with_capacity(alloc, blocks as usize)?,
            blocks,
        })
    }

    /// A copy of the marks, with memory for all of them.
    pub fn try_clone(&self) -> Result<Skips, HostMemory>
        ensures { IfOk result (λ copy. copy ≡ self.now) }
    {
        Ok(Skips {
            marks: copied(&self.marks, self.blocks)?,
            blocks: self.blocks,
        })
    }

    /// The first frame, from this one on, whose block is not skipped. It may be past the last frame.
    pub fn next(&self, frame: FrameNo) -> usize
        ensures on { frame ≤ result }
        ensures open { is_skipped self.now result ≡ false }
        ensures skipped { (i : ℕ) → frame ≤ i → i < result → is_skipped self.now i ≡ true }
    {
        let from = frame as usize;
        for block in from / BLOCK..self.marks.len() {
            if !self.marks[block] {
                return from.max(block * BLOCK);
            }
        }
        from.max(self.marks.len() * BLOCK)
    }

    /// Marks the block of a frame as skipped.
    pub fn mark(&mut self, frame: FrameNo)
        requires { frame / 64 < length self.old }
        ensures { self.new ≡ set self.old (frame / 64) true }
    {
        mark(&mut self.marks, frame);
    }

    /// Removes the mark of a frame's block.
    pub fn forget(&mut self, frame: FrameNo)
        ensures { self.new ≡ set self.old (frame / 64) false }
    {
        let block = frame as usize / BLOCK;
        if block < self.marks.len() {
            self.marks[block] = false;
        }
    }

    /// Removes all marks.
    pub fn forget_all(&mut self)
        ensures { self.new ≡ replicate (length self.old) false }
    {
        self.marks.clear();
    }
}
