//! What follows when pieces are removed: times and pids are noted, and marked segments are destroyed with
//! their last piece.
ghost use Rattle.std.specs.Prelude.{◌≡◌, ◌≢◌, true, ◌≤◌, ◌==◌, ◌&&◌, if◌then◌else◌, ℕ, List, [], ◌∷◌, length, All};
ghost use Rattle.shm_base.specs.Rules.{rest_is_attached};
ghost use Rattle.shm_base.specs.declared.bounds.TheConstants.{INDEXES};
ghost use Rattle.shm_base.specs.Segments.{attach_all, attach_count, change, detach_all, marked, swept};
ghost use Rattle.shm_attach.specs.Spaces.{Translation, AreTrue};
ghost use Rattle.shm_slots.specs.View.{sizes};
ghost use Rattle.shm_segments.specs.Table.{IsFound, IsLive};
ghost use Rattle.shm_segments.specs.Staying.{Ends};
ghost use Rattle.shm_segments.specs.View.{KeepsMemory};
ghost use Rattle.shm_life.specs.Sound.{MakesWell};
ghost use Rattle.shm_life.specs.Orphans.{MayBeSwept, OrphansAmong, Sweeps};

use bitflags::Flags;
use shm_attach::Spaces;
use shm_base::Rules;
use shm_pager_core::Pager;
use shm_segments::{Found, Segments};

// Sets the time and the last pid of a detach for each of these segments.
fn note_detached<P: Pager>(segments: &mut Segments<P>, lost: &[u32], time: u64, pid: u32)
    requires { All (IsLive segments.old.table) lost.now }
    ensures { segments.new ≡ record segments.old { table = detach_all time pid segments.old.table lost.now } }
{
    for seg in lost {
        segments.detached(*seg, time, pid);
    }
}

/// Sets the time and the last pid of an attach for each of these segments, if a rule attaches them anew.
pub(crate) fn attach_rests<P: Pager>(
    segments: &mut Segments<P>,
    rules: Rules,
    rests: &[u32],
    time: u64,
    pid: u32,
)
    requires { All (IsLive segments.old.table) rests.now }
    ensures { let table = attach_all time pid segments.old.table rests.now in
        let left = if rest_is_attached rules then table else segments.old.table in
        segments.new ≡ record segments.old { table = left } }
{
    if rules.contains(Rules::REST_IS_ATTACHED) {
        note_attached(segments, rests, time, pid);
    }
}

// Sets the time and the last pid of an attach for each of these segments.
fn note_attached<P: Pager>(segments: &mut Segments<P>, ids: &[u32], time: u64, pid: u32)
    requires { All (IsLive segments.old.table) ids.now }
    ensures { segments.new ≡ record segments.old { table = attach_all time pid segments.old.table ids.now } }
{
    for seg in ids {
        segments.attached(*seg, time, pid);
    }
}

// Whether a segment is marked and has no pieces.
fn is_orphan(spaces: &Spaces, found: &Found) -> bool
    ensures value { result ≡ (found.now.head.dest && (attach_count spaces.now.runners found.now.seg == 0)) }
    ensures unnamed { result ≡ true
        → All (λ (t : Translation). t.seg ≢ found.now.seg) spaces.now.translations }
{
    found.head.dest && spaces.count(found.seg) == 0
}

// Destroys a segment if it is marked and has no pieces.
fn sweep_one<P: Pager>(segments: &mut Segments<P>, spaces: &Spaces, seg: u32)
    requires { length segments.old.table ≤ INDEXES }
    ensures sweeps { Sweeps spaces.now.runners segments.old.table segments.new.table }
    ensures fewer { (rest : List ℕ) → OrphansAmong (seg ∷ rest) spaces.now.runners segments.old.table
        → OrphansAmong rest spaces.now.runners segments.new.table }
    ensures keeps { KeepsMemory segments.old.memory segments.new.memory }
    ensures ends { Ends segments.old.memory segments.new.memory }
    ensures sizes { sizes segments.new.memory.swap ≡ sizes segments.old.memory.swap }
    ensures translated { AreTrue spaces.now.translations segments.old.memory
        → AreTrue spaces.now.translations segments.new.memory }
{
    let Some(found) = segments.find(seg) else {
        return;
    };
    if is_orphan(spaces, &found) {
        segments.destroy(seg);
    }
}

/// Destroys a segment that has no pieces, and marks one that has some.
pub(crate) fn remove<P: Pager>(segments: &mut Segments<P>, spaces: &Spaces, found: &Found)
    requires found { IsFound segments.old.table found.now }
    requires few { length segments.old.table ≤ INDEXES }
    requires orphans { OrphansAmong [] spaces.now.runners segments.old.table }
    ensures table { segments.new.table
        ≡ swept spaces.now.runners (change segments.old.table found.now.seg marked) }
    ensures well { MakesWell [] spaces.now segments.old segments.new }
    ensures keeps { KeepsMemory segments.old.memory segments.new.memory }
    ensures ends { Ends segments.old.memory segments.new.memory }
    ensures sizes { sizes segments.new.memory.swap ≡ sizes segments.old.memory.swap }
{
    if spaces.count(found.seg) == 0 {
        segments.destroy(found.seg);
    } else {
        segments.mark(found.seg);
    }
}

// Destroys those of these segments that are marked and have no pieces. All such segments are among them.
fn sweep<P: Pager>(segments: &mut Segments<P>, spaces: &Spaces, lost: &[u32])
    requires few { length segments.old.table ≤ INDEXES }
    requires orphans { OrphansAmong lost.now spaces.now.runners segments.old.table }
    ensures swept { segments.new.table ≡ swept spaces.now.runners segments.old.table }
    ensures well { MakesWell lost.now spaces.now segments.old segments.new }
    ensures keeps { KeepsMemory segments.old.memory segments.new.memory }
    ensures ends { Ends segments.old.memory segments.new.memory }
    ensures sizes { sizes segments.new.memory.swap ≡ sizes segments.old.memory.swap }
{
    for seg in lost {
        sweep_one(segments, spaces, *seg);
    }
}

/// Finishes a change that removed pieces of these segments: notes time and last pid of a detach, and destroys
/// those that are marked and lost their last piece.
pub(crate) fn after_detach<P: Pager>(
    segments: &mut Segments<P>,
    spaces: &Spaces,
    lost: &[u32],
    time: u64,
    pid: u32,
)
    requires { MayBeSwept lost.now spaces.now.runners segments.old.table }
    ensures table { segments.new.table
        ≡ swept spaces.now.runners (detach_all time pid segments.old.table lost.now) }
    ensures well { MakesWell lost.now spaces.now segments.old segments.new }
    ensures keeps { KeepsMemory segments.old.memory segments.new.memory }
    ensures ends { Ends segments.old.memory segments.new.memory }
    ensures sizes { sizes segments.new.memory.swap ≡ sizes segments.old.memory.swap }
{
    note_detached(segments, lost, time, pid);
    sweep(segments, spaces, lost);
}
