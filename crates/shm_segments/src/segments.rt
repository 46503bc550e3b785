//! The table of segments with their bytes.
ghost use Rattle.std.specs.Prelude.{is_some, OnOk, if◌then◌else◌, Ok, true, false, ◌≡◌, ◌≢◌, ◌<◌, ◌^◌, ◌==◌, ◌&&◌, ℕ, ◌+◌, ◌*◌, ◌%◌, ◌≤◌, [], length, pos, IfOk, OnErr, IfErr, IfSome, IfNone, Some, None, map, slice_get};
ghost use Rattle.shm_base.specs.declared.bounds.TheConstants.{MOST_FRAMES, MOST_SHMALL};
ghost use Rattle.shm_base.specs.State as flat;
ghost use Rattle.shm_base.specs.Identifier as flat_ids;
ghost use Rattle.shm_base.specs.Segments.{reserved, segment_count, change, attached, detached, marked};
ghost use Rattle.shm_base.specs.Segments.{locked as locked_pages, locked_by_user};
ghost use Rattle.shm_slots.specs.View.{sizes, owner_of};
ghost use Rattle.shm_fault.specs.Segs.{with_seg_lock};
ghost use Rattle.shm_fault.specs.Store.{Still, fresh_store, frame_of};
ghost use Rattle.shm_segments.specs.Staying.{Ends, MovesNone};
ghost use Rattle.shm_segments.specs.View.{KeepsMemory, MayCreate};
ghost use Rattle.shm_segments.specs.Table.{IsFound, IsLive, look_of, refused_look, live, segment_in, next_id, made, destroyed, reowned, relocked};
ghost use Rattle.shm_segments.specs.Joined.{relocked_head, locked_of_rows, locked_by_of_rows};

use crate::head::{Found, Head};
use shm_base::{Errno, HostMemory, INDEXES, MODES, ShmId, pages_of};
use shm_fault::PageStore;
use shm_ids::{IdTable, LookRefused};
use shm_pager_core::Pager;
use shm_slots::Swap;
use std::alloc::Global;
use std::marker::Model;

/// The segments. Contracts see the flat machine's table, and the store of their bytes.
pub struct Segments<P: Pager> {
    pub(crate) table: IdTable<Head>,
    pub(crate) store: PageStore<P>,
    // The pages of all segments, and those of the locked ones.
    pub(crate) reserved: u64,
    pub(crate) locked: u64,
}

impl<P: Pager> Drop for Segments<P> {
    fn drop(self) {
        let Segments {
            table: _,
            store: _,
            reserved: _,
            locked: _,
        } = self;
    }
}

impl<P: Pager> Model for Segments<P> {
    ghost use Rattle.shm_fault.specs.Store.{held};
    ghost use Rattle.shm_segments.specs.Joined.{joined_table};
    ghost use Rattle.shm_segments.specs.Sound.{IsWhole};
    ghost use Rattle.shm_segments.specs.View.{SegmentsView};

    ghost Value = { SegmentsView };

    ghost view = { λ s. record { table = joined_table (held s.store) s.table; memory = s.store } };

    ghost invariant = { λ s. IsWhole s.store s.table s.reserved s.locked };
}

ghost use Rattle.shm_ids.specs.Table.{look, index_of, key_at};

// The pages of a segment, if it is locked.
fn pages_locked(head: &Head) -> u64
    ensures { result ≡ (if head.now.locked then flat.pages_of head.now.size else 0) }
{
    if head.locked { pages_of(head.size) } else { 0 }
}

// The pages of a segment, if this user locked it.
fn pages_locked_by(head: &Head, user: u32) -> u64
    ensures { let counts = head.now.locked && (head.now.locker == user) in
        result ≡ (if counts then flat.pages_of head.now.size else 0) }
{
    if head.locked && head.locker == user {
        pages_of(head.size)
    } else {
        0
    }
}

// The pages of the rows that a user locked.
#[tactic(auto, using(crate::proofs::Sums::locked_by_more, crate::proofs::Sums::locked_by_more_le))]
fn locked_in(table: &IdTable<Head>, user: u32) -> u64
    requires { locked_of_rows table.now < 2 ^ 64 }
    ensures { result ≡ locked_by_of_rows user table.now }
{
    let mut pages = 0;
    for index in 0..table.indexes() {
        if let Some((_, _, head)) = table.row_at(index as usize) {
            pages += pages_locked_by(head, user);
        }
    }
    pages
}

// Locks a segment for a user, or unlocks it.
fn relock(head: &mut Head, locker: Option<u32>)
    ensures { head.new ≡ relocked_head locker head.old }
{
    match locker {
        Some(_) if head.locked => {}
        Some(user) => {
            head.locked = true;
            head.locker = user;
        }
        None => {
            head.locked = false;
            head.locker = 0;
        }
    }
}

// The live row of an identifier.
fn found_under(table: &IdTable<Head>, id: ShmId) -> Result<Found, LookRefused>
    ensures id { IfOk result (λ f. f.id ≡ id) }
    ensures seg { IfOk result (λ f. pos f.seg ≡ id) }
    ensures key { IfOk result (λ f. f.key ≡ key_at table.now (index_of id)) }
    ensures head { IfOk result (λ f. look table.now id ≡ Ok f.head) }
    ensures err { IfErr result (λ e. look table.now id ≡ Err e) }
{
    let row = table.row_of(id)?;
    Ok(Found {
        seg: id as u32,
        id,
        key: row.key,
        head: row.value,
    })
}

impl<P: Pager> Segments<P> {
    /// No segments, over this number of frames and over a swap that has no owned slot. Takes the memory of
    /// the frames. HostMemory: the host refused memory.
    pub fn new(alloc: Global, frames: u32, swap: Swap<P>) -> Result<Segments<P>, HostMemory>
        requires frames { (2 ≤ frames) × (frames ≤ MOST_FRAMES) }
        requires free { (area slot : ℕ) → owner_of swap area slot ≡ None }
        ensures table { IfOk result (λ s. s.table ≡ []) }
        ensures memory { IfOk result (λ s. s.memory ≡ fresh_store s.memory.frames swap) }
        ensures frames { IfOk result (λ s. length s.memory.frames ≡ frames) }
    {
        let store = PageStore::new(alloc, frames, swap)?;
        Ok(Segments {
            table: IdTable::new(alloc),
            store,
            reserved: 0,
            locked: 0,
        })
    }

    /// The number of pages of all segments.
    pub fn reserved(&self) -> u64
        ensures { result ≡ reserved self.now.table }
    {
        self.reserved
    }

    /// The number of pages of the locked segments.
    pub fn locked(&self) -> u64
        ensures { result ≡ locked_pages self.now.table }
    {
        self.locked
    }

    /// The number of pages of the segments that a user locked. Visits all indexes that were ever used, unless
    /// nothing is locked.
    pub fn locked_by(&self, user: u32) -> u64
        ensures value { result ≡ locked_by_user user self.now.table }
        ensures few { result ≤ locked_pages self.now.table }
    {
        if self.locked == 0 {
            return 0;
        }
        locked_in(&self.table, user)
    }

    /// How many segments there are.
    pub fn count(&self) -> u64
        ensures { result ≡ segment_count self.now.table }
    {
        self.table.row_count()
    }

    /// The number of indexes that were ever used.
    pub fn indexes(&self) -> u32
        ensures { result ≡ length self.now.table }
    {
        self.table.indexes()
    }

    /// The segment at an index.
    pub fn at(&self, index: u32) -> Option<Found>
        ensures found { IfSome result (IsFound self.now.table) }
        ensures index { IfSome result (λ f. f.seg % 32768 ≡ index) }
        ensures none { IfNone result (segment_in (slice_get self.now.table index) ≡ None) }
    {
        match self.table.row_at(index as usize) {
            Some((id, key, head)) => Some(Found {
                seg: id as u32,
                id,
                key,
                head: *head,
            }),
            None => None,
        }
    }

    /// The live segment of an identifier.
    pub fn find(&self, seg: u32) -> Option<Found>
        ensures found { IfSome result (IsFound self.now.table) }
        ensures seg { IfSome result (λ f. f.seg ≡ seg) }
        ensures none { IfNone result (live self.now.table seg ≡ None) }
    {
        match self.at(seg % INDEXES) {
            Some(found) if found.seg == seg => Some(found),
            _ => None,
        }
    }

    /// The segment of an identifier that a process names (shmctl(2)). Eidrm: it was destroyed. Einval: the
    /// identifier was never issued.
    pub fn look(&self, id: ShmId) -> Result<Found, Errno>
        ensures found { IfOk result (IsFound self.now.table) }
        ensures ok { IfOk result (λ f. flat_ids.look self.now.table id ≡ look_of self.now.table f) }
        ensures err { IfErr result (λ e. refused_look (flat_ids.look self.now.table id) ≡ Some e) }
    {
        match found_under(&self.table, id) {
            Ok(found) => Ok(found),
            Err(LookRefused::Removed) => Err(Errno::Eidrm),
            Err(LookRefused::Invalid) => Err(Errno::Einval),
        }
    }

    /// The live segment with a key.
    pub fn find_key(&self, key: u32) -> Option<Found>
        requires { key ≢ 0 }
        ensures found { IfSome result (IsFound self.now.table) }
        ensures some { IfSome result (λ f. flat_ids.find_key self.now.table key ≡ look_of self.now.table f) }
        ensures none { IfNone result (flat_ids.find_key self.now.table key ≡ flat_ids.Invalid) }
    {
        let id = self.table.find_key(key)?;
        found_under(&self.table, id).ok()
    }

    /// The identifier of the next segment: that of the least free index. None if every index has a segment or
    /// is worn out.
    pub fn next_id(&self) -> Option<ShmId>
        ensures { result ≡ next_id self.now.table }
    {
        self.table.next_id()
    }

    /// Makes a segment of zeros under the next identifier. No other segment has its key, unless that is 0.
    /// HostMemory: the host refused memory, and nothing changed.
    pub fn create(&mut self, id: ShmId, key: u32, head: Head) -> Result<(), HostMemory>
        requires { MayCreate self.old id key head }
        ensures ok { OnOk result (made self.old.table key head ≡ Some (id, self.new.table)) }
        ensures keeps { OnOk result (KeepsMemory self.old.memory self.new.memory) }
        ensures swap { OnOk result (self.new.memory.swap ≡ self.old.memory.swap) }
        ensures still { Still self.old.memory self.new.memory }
        ensures moves { MovesNone self.old.memory self.new.memory }
        ensures err { OnErr result (self.new ≡ self.old) }
    {
        let pages = pages_of(head.size);
        self.store.add_segment(id as u32, pages as u32)?;
        match self.table.insert_at(id, key, head) {
            Ok(()) => {
                self.reserved += pages;
                Ok(())
            }
            Err(refused) => {
                self.store.drop_segment(id as u32);
                Err(HostMemory::from(refused))
            }
        }
    }

    /// Destroys a segment and its bytes. Its identifier is never used again. Takes no memory.
    pub fn destroy(&mut self, seg: u32)
        requires { IsLive self.old.table seg }
        ensures table { self.new.table ≡ destroyed self.old.table seg }
        ensures keeps { KeepsMemory self.old.memory self.new.memory }
        ensures ends { Ends self.old.memory self.new.memory }
        ensures sizes { sizes self.new.memory.swap ≡ sizes self.old.memory.swap }
        ensures still { (s page : ℕ) → s ≢ seg →
            frame_of self.new.memory s page ≡ frame_of self.old.memory s page }
    {
        let head = self.table.destroy(seg);
        self.store.drop_segment(seg);
        self.reserved -= pages_of(head.size);
        self.locked -= pages_locked(&head);
    }

    /// Sets the time and the last pid of an attach.
    pub fn attached(&mut self, seg: u32, time: u64, pid: u32)
        requires { IsLive self.old.table seg }
        ensures { self.new ≡ record self.old { table = change self.old.table seg (attached time pid) } }
    {
        let head = self.table.value_mut(seg);
        head.atime = time;
        head.lpid = pid;
    }

    /// Sets the time and the last pid of a detach.
    pub fn detached(&mut self, seg: u32, time: u64, pid: u32)
        requires { IsLive self.old.table seg }
        ensures { self.new ≡ record self.old { table = change self.old.table seg (detached time pid) } }
    {
        let head = self.table.value_mut(seg);
        head.dtime = time;
        head.lpid = pid;
    }

    /// Gives the segment another owner and other permission bits, the low nine of a mode.
    pub fn set_owner(&mut self, seg: u32, time: u64, uid: u32, gid: u32, mode: u16)
        requires { IsLive self.old.table seg }
        ensures { self.new ≡
            record self.old { table = change self.old.table seg (reowned time uid gid mode) } }
    {
        let head = self.table.value_mut(seg);
        head.perm.uid = uid;
        head.perm.gid = gid;
        head.perm.mode = mode % MODES;
        head.ctime = time;
    }

    /// Marks the segment for removal (SHM_DEST), and hides its key.
    pub fn mark(&mut self, seg: u32)
        requires { IsLive self.old.table seg }
        ensures { self.new ≡ record self.old { table = change self.old.table seg marked } }
    {
        self.table.value_mut(seg).dest = true;
        self.table.hide_key(seg);
    }

    /// Locks the segment's pages for a user, or unlocks them (SHM_LOCKED). A segment that is locked already
    /// keeps its locker.
    pub fn set_locked(&mut self, seg: u32, locker: Option<u32>)
        requires live { IsLive self.old.table seg }
        requires small { locked_pages self.old.table ≤ MOST_SHMALL }
        requires few { is_some locker ≡ true →
            locked_pages (change self.old.table seg (relocked locker)) + 2 ≤ length self.old.memory.frames }
        ensures table { self.new.table ≡ change self.old.table seg (relocked locker) }
        ensures only { self.new.memory ≡
            record self.old.memory { segs = map (with_seg_lock seg (is_some locker)) self.old.memory.segs } }
        ensures still { Still self.old.memory self.new.memory }
        ensures moves { MovesNone self.old.memory self.new.memory }
    {
        let head = self.table.value_mut(seg);
        let unlocked = self.locked - pages_locked(head);
        relock(head, locker);
        self.locked = unlocked + pages_locked(head);
        self.store.set_locked(seg, locker.is_some());
    }
}
