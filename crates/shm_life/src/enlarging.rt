//! Adds swap areas to a running machine, as swapon(8) does. No process calls this.
ghost use Rattle.std.specs.Prelude.{◌≡◌, ◌<◌, length, IfNone, OnErr, OnOk};
ghost use Rattle.shm_base.specs.declared.bounds.TheConstants.{MOST_AREAS};
ghost use Rattle.shm_fault.specs.Store.{held};
ghost use Rattle.shm_pager_core.specs.Pages.{pager_seen};
ghost use Rattle.shm_slots.specs.View.{IsAreaSize, fresh, with_new};
ghost use Rattle.shm_life.specs.Enlarging.{IsEnlarged, area_refusal, enlarged};

use crate::kernel::Kernel;
use crate::start::{StartError, is_area_size};
use crate::system::System;
use shm_base::{HostMemory, MOST_AREAS};
use shm_pager_core::Pager;
use std::alloc::Global;

impl<P: Pager> Kernel<P> {
    // Why an area of this many slots can't be added.
    fn area_refusal(&self, slots: u32) -> Option<StartError>
        ensures value { result ≡ area_refusal self.now.flat slots }
        ensures few { IfNone result (length self.now.flat.areas < MOST_AREAS) }
        ensures size { IfNone result (IsAreaSize slots) }
    {
        if self.segments.store().swap().areas() as usize >= MOST_AREAS {
            return Some(StartError::Areas);
        }
        if !is_area_size(&self.limits, slots) {
            return Some(StartError::AreaSize);
        }
        None
    }

    fn add_area(&mut self, alloc: Global, pager: P) -> Result<(), HostMemory>
        requires few { length self.old.flat.areas < MOST_AREAS }
        requires size { IsAreaSize (length (P.content pager)) }
        ensures machine { let slots = length (P.content pager) in
            OnOk result (self.new.flat ≡ enlarged self.old.flat slots) }
        ensures memory { let area = fresh (pager_seen P.content P.failed P.most P.calls pager) in
            OnOk result (self.new.memory
            ≡ record self.old.memory { swap = with_new self.old.memory.swap area }) }
        ensures held { held self.new.memory ≡ held self.old.memory }
        ensures err { OnErr result (self.new ≡ self.old) }
    {
        self.segments.add_area(alloc, pager)?;
        Ok(())
    }
}

impl<P: Pager> System<P> {
    /// Why an area of this many slots can't be added now: `Areas` if there are eight, those that are gone
    /// included; `AreaSize` if it has no slot, or more than the limits allow.
    pub fn area_refusal(&self, slots: u32) -> Option<StartError>
        ensures { result ≡ area_refusal self.now.machine slots }
    {
        self.kernel.area_refusal(slots)
    }

    /// Adds a swap area with the next number. All its slots are free; no byte changes, and no page moves.
    /// Refused as [`System::area_refusal`] says, or with `HostMemory`; then nothing changed.
    pub fn add_area(&mut self, alloc: Global, pager: P) -> Result<(), StartError>
        ensures { let area = fresh (pager_seen P.content P.failed P.most P.calls pager) in
            IsEnlarged (length (P.content pager)) area self.old result self.new }
    {
        if let Some(refusal) = self.kernel.area_refusal(pager.slots()) {
            return Err(refusal);
        }
        match self.kernel.add_area(alloc, pager) {
            Ok(()) => Ok(()),
            Err(HostMemory) => Err(StartError::HostMemory),
        }
    }
}
