//! Pages in memory.
ghost use Rattle.std.specs.Prelude.{◌≡◌, ◌<◌, [], length, set, get_or, replicate, IsOk, IfOk};
ghost use Rattle.shm_base.specs.Page.{zero_page};

use shm_base::{HostMemory, PAGE_BYTES, zeros};
use shm_pager_core::{ClonePager, Pager, PagerFault};
use std::alloc::{AllocError, Global};
use std::marker::Model;

/// Pages in one allocation, made with the pager. None of its calls fails.
pub struct RamPager {
    pages: Vec<[u8; PAGE_BYTES]>,
}

impl Model for RamPager {
    ghost use Rattle.std.specs.Prelude.{ℕ, ◌<◌, ◌^◌, List, length};

    ghost Value = { List (List ℕ) };

    ghost view = { λ p. p.pages.items };

    ghost invariant = { λ p. length p.pages.items < 2 ^ 32 };
}

impl RamPager {
    /// A pager with zeros in each slot. AllocError: the host refused memory.
    pub fn new(alloc: Global, slots: u32) -> Result<RamPager, AllocError>
        ensures { IfOk result (λ p. p ≡ replicate slots zero_page) }
    {
        let mut pages = Vec::with_capacity(alloc, slots as usize)?;
        for _i in 0..slots {
            pages.push(zeros())?;
        }
        Ok(RamPager { pages })
    }

    // Returns the memory, which holds only zeros by now.
    fn release(self)
        requires { self ≡ replicate (length self) zero_page }
    {
        let RamPager { pages: _ } = self;
    }
}

impl Pager for RamPager {
    ghost content = { λ p. p };

    ghost failed = { λ _. 0 };

    ghost most = { λ _. 0 };

    ghost calls = { λ _. [] };

    fn slots(&self) -> u32 {
        self.pages.len() as u32
    }

    fn failures(&self) -> u64 {
        0
    }

    fn write(&mut self, slot: u32, page: &[u8; PAGE_BYTES]) -> Result<(), PagerFault>
        requires { slot < length self.old }
        ensures taken { IsOk result }
        ensures content { self.new ≡ set self.old slot page.now }
    {
        self.pages[slot as usize] = *page;
        Ok(())
    }

    fn read(&mut self, slot: u32, page: &mut [u8; PAGE_BYTES]) -> Result<(), PagerFault>
        requires { slot < length self.old }
        ensures served { IsOk result }
        ensures content { self.new ≡ self.old }
        ensures page { get_or self.old slot [] ≡ page.new }
    {
        *page = self.pages[slot as usize];
        Ok(())
    }

    /// Afterwards the slot holds zeros.
    fn discard(&mut self, slot: u32)
        requires { slot < length self.old }
        ensures { self.new ≡ set self.old slot zero_page }
    {
        self.pages[slot as usize] = zeros();
    }

    fn wipe(&mut self) {
        let blank = zeros();
        for page in self.pages.iter_mut() {
            *page = blank;
        }
    }
}

impl ClonePager for RamPager {
    fn try_clone(&self) -> Result<RamPager, HostMemory> {
        let alloc = *self.pages.allocator();
        Ok(RamPager {
            pages: Vec::from_slice(alloc, &self.pages)?,
        })
    }
}

impl Drop for RamPager {
    fn drop(mut self) {
        self.wipe();
        self.release();
    }
}
