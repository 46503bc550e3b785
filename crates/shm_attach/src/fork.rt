//! fork: a child is born with its parent's credentials and pieces.
ghost use Rattle.std.specs.Prelude.{◌≡◌, ◌≢◌, ℕ, ◌<◌, ◌≤◌, [], length, Some, true};
ghost use Rattle.shm_base.specs.Guest.{is_live};
ghost use Rattle.shm_base.specs.Segments.{attach_count};
ghost use Rattle.shm_base.specs.Step.{unborn_from};
ghost use Rattle.shm_attach.specs.Views.{runners_view, most_at};
ghost use Rattle.shm_attach.specs.Spaces.{life_at, caller_seen, IsCaller, KeepTrue};
ghost use Rattle.shm_attach.specs.Exact.{AreTablesSound, no_reservations};
ghost use Rattle.shm_attach.specs.Fork.{born_child};
ghost use Rattle.shm_attach.specs.Mapping.{held, AreNow};

use crate::changes::{put, set_life_at, space_at};
use crate::process::{Caller, Child, Life, Runner};
use crate::spaces::Spaces;
use crate::tables::Tables;
use indexmap::IndexMap;

/// Copies the pieces of one process to another that has none.
fn copy_pieces(
    processes: &mut IndexMap<u32, Runner>,
    tables: &mut Tables,
    parent: usize,
    child: usize,
)
    requires parent { parent < length processes.old.entries }
    requires child { child < length processes.old.entries }
    requires apart { parent ≢ child }
    requires live { is_live (life_at (runners_view processes.old.entries) child) ≡ true }
    requires none { held processes.old.entries child ≡ [] }
    requires room { most_at processes.old.entries parent ≤ most_at processes.old.entries child }
    requires sound { AreTablesSound no_reservations processes.old.entries tables.old }
    ensures { let es = processes.old.entries in
        AreNow es processes.new.entries tables.old tables.new child (held es parent) }
{
    let count = space_at(processes, parent).pieces().len();
    for k in 0..count {
        let piece = space_at(processes, parent).pieces()[k];
        put(processes, tables, child, piece);
    }
}

impl Spaces {
    /// A child becomes live, with the credentials and the pieces of the caller (fork(2); shmop(2): a child
    /// inherits the attached segments). Takes no memory.
    pub fn fork(&mut self, caller: &Caller, child: &Child)
        requires live { IsCaller caller.now self.old.runners }
        requires unborn { unborn_from 0 child.now.pid self.old.runners ≡ Some child.now.index }
        ensures born { self.new.runners
            ≡ born_child self.old.runners (caller_seen caller.now self.old.runners) child.now }
        ensures most { self.new.most ≡ self.old.most }
        ensures more { (id : ℕ) → attach_count self.old.runners id ≤ attach_count self.new.runners id }
        ensures translated { KeepTrue self.old self.new }
    {
        set_life_at(&mut self.processes, child.index, Life::Live(caller.cred));
        copy_pieces(
            &mut self.processes,
            &mut self.tables,
            caller.index,
            child.index,
        );
    }
}
