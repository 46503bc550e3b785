//! Detaches pieces: those of one attach by shmdt, all of them by exec and exit.
ghost use Rattle.std.specs.Prelude.{◌≡◌, [], IfNone, IfSome};
ghost use Rattle.shm_base.specs.Space.{without_named};
ghost use Rattle.shm_base.specs.Callers.{with_end};
ghost use Rattle.shm_base.specs.Step.{segments_of};
ghost use Rattle.shm_attach.specs.Changes.{attached_at};
ghost use Rattle.shm_attach.specs.Mapping.{own_pieces, with_own_pieces};
ghost use Rattle.shm_attach.specs.Spaces.{caller_seen, IsCaller, KeepTrue};

use crate::changes::{set_life_at, space_at, take_attach, take_range};
use crate::process::{Caller, Life};
use crate::spaces::Spaces;
use shm_base::{END_ADDRESS, LOWEST_ADDRESS};

impl Spaces {
    /// Removes what is left of an attach: the lowest piece with this origin names the segment, and all pieces
    /// of that segment with this origin go. Returns the segment; none if no piece has this origin. Takes no
    /// memory.
    pub fn detach(&mut self, caller: &Caller, addr: u64) -> Option<u32>
        requires { IsCaller caller.now self.old.runners }
        ensures segment { result ≡ attached_at addr (own_pieces self.old caller.now) }
        ensures none { IfNone result (self.new ≡ self.old) }
        ensures gone { IfSome result (λ seg. self.new.runners
            ≡ with_own_pieces self.old caller.now (without_named addr seg (own_pieces self.old caller.now))) }
        ensures most { self.new.most ≡ self.old.most }
        ensures translated { KeepTrue self.old self.new }
    {
        take_attach(&mut self.processes, &mut self.tables, caller.index, addr)
    }

    /// Removes all pieces of a process, and notes their segments. Takes no memory.
    pub fn exec(&mut self, caller: &Caller)
        requires { IsCaller caller.now self.old.runners }
        ensures lost { self.new.lost ≡ segments_of (caller_seen caller.now self.old.runners) }
        ensures runners { self.new.runners ≡ with_own_pieces self.old caller.now [] }
        ensures most { self.new.most ≡ self.old.most }
        ensures translated { KeepTrue self.old self.new }
    {
        self.lost
            .note(space_at(&self.processes, caller.index).pieces());
        take_range(
            &mut self.processes,
            &mut self.tables,
            caller.index,
            LOWEST_ADDRESS,
            END_ADDRESS,
        );
    }

    /// Ends a process: removes its pieces as `exec` does, and the process is no longer live. Takes no memory.
    pub fn exit(&mut self, caller: &Caller)
        requires { IsCaller caller.now self.old.runners }
        ensures lost { self.new.lost ≡ segments_of (caller_seen caller.now self.old.runners) }
        ensures runners { self.new.runners
            ≡ with_end self.old.runners (caller_seen caller.now self.old.runners) }
        ensures most { self.new.most ≡ self.old.most }
        ensures translated { KeepTrue self.old self.new }
    {
        self.exec(caller);
        set_life_at(&mut self.processes, caller.index, Life::Ended);
    }
}
