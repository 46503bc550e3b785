//! fork: a child is born with its parent's pieces.
ghost use Rattle.std.specs.Prelude.{◌≡◌, if◌then◌else◌, All};
ghost use Rattle.shm_base.specs.Rules.{fork_marks};
ghost use Rattle.shm_base.specs.Segments.{attach_all};
ghost use Rattle.shm_segments.specs.Table.{IsLive};
ghost use Rattle.shm_life.specs.Inherited.{segments_in};
ghost use Rattle.shm_base.specs.declared.call.Call.TheVariants as call;
ghost use Rattle.shm_attach.specs.Spaces.{IsCaller};
ghost use Rattle.shm_life.specs.MachineView.{Served, replied, done};

use crate::kernel::Kernel;
use bitflags::Flags;
use shm_areas::Piece;
use shm_attach::Caller;
use shm_base::{Errno, Rules};
use shm_pager_core::Pager;
use shm_segments::Segments;

// Sets the time and the last pid of an attach for the segment of each of these pieces.
fn note_pieces<P: Pager>(segments: &mut Segments<P>, pieces: &[Piece], time: u64, pid: u32)
    requires { All (IsLive segments.old.table) (segments_in pieces.now) }
    ensures { let table = attach_all time pid segments.old.table (segments_in pieces.now) in
        segments.new ≡ record segments.old { table = table } }
{
    for piece in pieces {
        segments.attached(piece.seg, time, pid);
    }
}

// The same, if the child's pieces count as attached anew.
fn note_inherited<P: Pager>(
    segments: &mut Segments<P>,
    rules: Rules,
    pieces: &[Piece],
    time: u64,
    pid: u32,
)
    requires { All (IsLive segments.old.table) (segments_in pieces.now) }
    ensures { let table = attach_all time pid segments.old.table (segments_in pieces.now) in
        let left = if fork_marks rules then table else segments.old.table in
        segments.new ≡ record segments.old { table = left } }
{
    if rules.contains(Rules::FORK_MARKS) {
        note_pieces(segments, pieces, time, pid);
    }
}

impl<P: Pager> Kernel<P> {
    #[tactic(auto, using(crate::proofs::Running::kept_refl, crate::proofs::Running::pages_rest))]
    /// A declared child is born, with the caller's credentials and pieces (fork(2)). Eagain: the process is
    /// not such a child. Under `Rules::FORK_MARKS` each segment that the child inherits gets an attach time,
    /// and the caller as last pid.
    pub(crate) fn fork(&mut self, time: u64, caller: &Caller, child: u32) -> Result<(), Errno>
        requires { IsCaller caller.now self.old.flat.runners }
        ensures { Served self.old time caller.now (call.Fork child) (replied done result) self.new }
    {
        let Some(child) = self.spaces.child(child) else {
            return Err(Errno::Eagain);
        };
        note_inherited(
            &mut self.segments,
            self.limits.rules(),
            self.spaces.space(caller).pieces(),
            time,
            caller.pid,
        );
        self.spaces.fork(caller, &child);
        Ok(())
    }
}
