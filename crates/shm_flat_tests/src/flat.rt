//! Shared memory as lists of bytes, by docs/MACHINE.md alone: the expected reply to each call of a sweep. It
//! has no frames and no slots. It has the rules that the script of a sweep needs: every process is user 0,
//! and no call is beyond a limit.
use bitflags::Flags;
use shm_base::{AtFlags, Call, Chunk, Errno, Perm, Reply, ShmId, ShmidDs, Status};
use std::alloc::Global;
use std::test::Fail;

const PAGE: usize = 4096;

/// Where the search for a gap begins.
const LOWEST_GAP: u64 = 0x40000000;

/// No piece reaches beyond this address.
const END: u64 = 0x7ffffffff000;

const CHILD: u32 = 3;

/// A segment at an index. It stays in the list after it is destroyed.
#[derive(Drop)]
struct Segment {
    index: u32,
    id: ShmId,
    is_live: bool,
    shown: ShmidDs,
    bytes: Vec<u8>,
}

/// A piece of a process: its address and length, the address of its attach, and the index of its segment in
/// the list.
#[derive(Clone, Copy)]
struct Attach {
    pid: u32,
    addr: u64,
    len: u64,
    origin: u64,
    segment: usize,
    is_writable: bool,
    may_write: bool,
}

/// A byte of a segment, and whether the piece with it may be written.
#[derive(Clone, Copy)]
struct Place {
    segment: usize,
    offset: usize,
    is_writable: bool,
}

/// The machine: two processes of user 0 and a child that is not born yet, over two swap areas.
#[derive(Drop)]
pub struct Flat {
    alloc: Global,
    /// The place of the last call in the history.
    now: u64,
    live: Vec<u32>,
    segments: Vec<Segment>,
    attaches: Vec<Attach>,
    /// Which of the two areas are active.
    areas: [bool; 2],
}

impl Attach {
    // The offset of an address in the segment, if the piece is this process's and has the address.
    fn offset(&self, pid: u32, addr: u64) -> Option<u64> {
        if self.pid != pid || addr < self.addr {
            return None;
        }
        if addr.wrapping_sub(self.addr) < self.len {
            Some(addr.wrapping_sub(self.origin))
        } else {
            None
        }
    }

    // The part from one address to another, with this protection.
    fn part(&self, from: u64, to: u64, is_writable: bool) -> Attach {
        Attach {
            addr: from,
            len: to.wrapping_sub(from),
            is_writable,
            ..*self
        }
    }

    // Whether the other one is a part of the same attach.
    fn is_beside(&self, other: &Attach) -> bool {
        self.segment == other.segment && self.origin == other.origin
    }

    fn end(&self) -> u64 {
        self.addr.wrapping_add(self.len)
    }

    // Whether the piece is this process's and has a part in a range.
    fn meets(&self, pid: u32, addr: u64, len: u64) -> bool {
        self.pid == pid && self.addr < addr.wrapping_add(len) && addr < self.end()
    }
}

impl Segment {
    // Counts an attach at this time.
    fn attached(&mut self, pid: u32, now: u64) {
        self.shown.nattch = self.shown.nattch.wrapping_add(1);
        self.shown.atime = now;
        self.shown.lpid = pid;
    }

    // Counts a detach at this time. The last one destroys a marked segment.
    fn detached(&mut self, pid: u32, now: u64) {
        self.shown.nattch = self.shown.nattch.wrapping_sub(1);
        self.shown.dtime = now;
        self.shown.lpid = pid;
        if self.shown.nattch == 0 && self.shown.status.contains(Status::DEST) {
            self.is_live = false;
        }
    }

    // Marks the segment, or destroys it if nothing is attached.
    fn removed(&mut self) {
        self.shown.key = 0;
        self.shown.status.insert(Status::DEST);
        if self.shown.nattch == 0 {
            self.is_live = false;
        }
    }

    fn locked(&mut self, is_locked: bool) {
        if is_locked {
            self.shown.status.insert(Status::LOCKED);
        } else {
            self.shown.status.remove(Status::LOCKED);
        }
    }
}

// The zeros of a segment's whole pages.
fn zeros(alloc: Global, size: u64) -> Result<Vec<u8>, Fail> {
    let mut bytes = Vec::new(alloc);
    for _ in 0..size.div_ceil(4096) {
        bytes.extend_from_slice(&[0; PAGE])?;
    }
    Ok(bytes)
}

// What `stat` shows of a segment that a process makes at this time.
fn made(key: u32, mode: u16, size: u64, pid: u32, now: u64) -> ShmidDs {
    ShmidDs {
        key,
        perm: Perm {
            uid: 0,
            gid: 0,
            cuid: 0,
            cgid: 0,
            mode,
        },
        status: Status::empty(),
        size,
        cpid: pid,
        lpid: 0,
        nattch: 0,
        atime: 0,
        dtime: 0,
        ctime: now,
    }
}

impl Flat {
    /// The machine before the first call.
    pub fn new(alloc: Global) -> Result<Flat, Fail> {
        let mut live = Vec::new(alloc);
        live.push(1)?;
        live.push(2)?;
        Ok(Flat {
            alloc,
            now: 0,
            live,
            segments: Vec::new(alloc),
            attaches: Vec::new(alloc),
            areas: [true; 2],
        })
    }

    /// Skips a call that a pager's failure refused: it has its place in the history, and changes nothing.
    pub fn passes_over(&mut self) {
        self.now = self.now.wrapping_add(1);
    }

    /// The expected reply to the next call of the history.
    pub fn answer(&mut self, pid: u32, call: &Call) -> Result<Reply, Fail> {
        self.now = self.now.wrapping_add(1);
        if !self.live.contains(&pid) {
            return Ok(Reply::Refused(Errno::Esrch));
        }
        match *call {
            Call::Shmget {
                key,
                size,
                mode,
                flags: _,
            } => self.get(pid, key, size, mode),
            Call::Shmat { id, addr: _, flags } => self.attach(pid, id, flags),
            Call::Fork { child } => self.fork(pid, child),
            Call::Stat { .. } | Call::Rmid { .. } | Call::Lock { .. } | Call::Unlock { .. } => {
                Ok(self.control(call))
            }
            Call::Swapoff { area } => Ok(self.swapoff(area)),
            Call::Munmap { addr, len } => self.unmap(pid, addr, len),
            Call::Mprotect {
                addr,
                len,
                writable,
            } => self.protect(pid, addr, len, writable),
            Call::Setuid { uid: 0, gid: 0 } => Ok(Reply::Done),
            _ => Ok(self.access(pid, call)),
        }
    }

    fn access(&mut self, pid: u32, call: &Call) -> Reply {
        let reply = match *call {
            Call::Shmdt { addr } => return self.detach(pid, addr),
            Call::Load { addr, len } => self.load(pid, addr, len.get()).map(Reply::Bytes),
            Call::Store { addr, chunk } => self.store(pid, addr, chunk.as_slice()),
            Call::Xadd { addr, add } => self.xadd(pid, addr, add),
            Call::Exchange { chunk, addr } => self.exchange(pid, addr, None, chunk.as_slice()),
            Call::CompareExchange {
                expected,
                desired,
                addr,
            } => self.exchange(pid, addr, Some(expected.as_slice()), desired.as_slice()),
            _ => None,
        };
        reply.unwrap_or(Reply::Refused(Errno::Sigsegv))
    }

    // The live segment with this key, if that is not 0.
    fn of_key(&self, key: u32) -> Option<&Segment> {
        for segment in &self.segments {
            if segment.is_live && key != 0 && segment.shown.key == key {
                return Some(segment);
            }
        }
        None
    }

    // Whether the index has a live segment, and how many were destroyed at it.
    fn at_index(&self, index: u32) -> (bool, u32) {
        let mut is_held = false;
        let mut destroyed = 0u32;
        for segment in &self.segments {
            if segment.index == index && segment.is_live {
                is_held = true;
            } else if segment.index == index {
                destroyed = destroyed.wrapping_add(1);
            }
        }
        (is_held, destroyed)
    }

    // The least index without a segment, and the next identifier there.
    fn next(&self) -> Result<(u32, ShmId), Fail> {
        for index in 0..16u32 {
            let (is_held, destroyed) = self.at_index(index);
            if !is_held {
                let id = index.wrapping_add(destroyed.wrapping_mul(32768));
                return Ok((index, ShmId::try_from(id).ok().ok_or("an identifier")?));
            }
        }
        Err("no index is free".into())
    }

    fn get(&mut self, pid: u32, key: u32, size: u64, mode: u16) -> Result<Reply, Fail> {
        if let Some(found) = self.of_key(key) {
            return Ok(Reply::Id(found.id));
        }
        let (index, id) = self.next()?;
        let shown = made(key, mode, size, pid, self.now);
        let bytes = zeros(self.alloc, size)?;
        self.segments.push(Segment {
            index,
            id,
            is_live: true,
            shown,
            bytes,
        })?;
        Ok(Reply::Id(id))
    }

    // The index in the list of the live segment with this identifier.
    fn number(&self, id: ShmId) -> Result<usize, Errno> {
        for (number, segment) in self.segments.iter().enumerate() {
            if segment.id == id {
                return if segment.is_live {
                    Ok(number)
                } else {
                    Err(Errno::Eidrm)
                };
            }
        }
        Err(Errno::Einval)
    }

    // The least gap of the process for this many bytes. It begins at the lowest address or at the end of a
    // piece.
    fn gap(&self, pid: u32, len: u64) -> u64 {
        let mut addr = LOWEST_GAP;
        for _ in 0..=self.attaches.len() {
            let Some(end) = self.occupied(pid, addr, len) else {
                return addr;
            };
            addr = end;
        }
        addr
    }

    // The end of a piece that the process has in this range, if there is one.
    fn occupied(&self, pid: u32, addr: u64, len: u64) -> Option<u64> {
        for attach in &self.attaches {
            if attach.meets(pid, addr, len) {
                return Some(attach.end());
            }
        }
        None
    }

    fn attach(&mut self, pid: u32, id: ShmId, flags: AtFlags) -> Result<Reply, Fail> {
        let number = match self.number(id) {
            Ok(number) => number,
            Err(errno) => return Ok(Reply::Refused(errno)),
        };
        let now = self.now;
        let mut len = 0;
        if let Some(segment) = self.segments.get_mut(number) {
            segment.attached(pid, now);
            len = segment.bytes.len() as u64;
        }
        let addr = self.gap(pid, len);
        self.attaches.push(Attach {
            pid,
            addr,
            len,
            origin: addr,
            segment: number,
            is_writable: !flags.contains(AtFlags::RDONLY),
            may_write: !flags.contains(AtFlags::RDONLY),
        })?;
        Ok(Reply::Addr(addr))
    }

    // The lowest piece of the process with this origin.
    fn lowest(&self, pid: u32, origin: u64) -> Option<Attach> {
        let mut found: Option<Attach> = None;
        for attach in &self.attaches {
            let is_lower = match found {
                Some(other) => attach.addr < other.addr,
                None => true,
            };
            if attach.pid == pid && attach.origin == origin && is_lower {
                found = Some(*attach);
            }
        }
        found
    }

    // Removes the piece with this number, which counts as a detach.
    fn loses(&mut self, at: usize, attach: Attach) {
        let now = self.now;
        self.drops(at);
        if let Some(segment) = self.segments.get_mut(attach.segment) {
            segment.detached(attach.pid, now);
        }
    }

    fn drops(&mut self, at: usize) {
        if let Some(attach) = self.attaches.get_mut(at) {
            // no process has this pid
            attach.pid = 0;
        }
    }

    // All pieces that are left of the attach that began at the address.
    fn detach(&mut self, pid: u32, addr: u64) -> Reply {
        let Some(first) = self.lowest(pid, addr) else {
            return Reply::Refused(Errno::Einval);
        };
        for at in 0..self.attaches.len() {
            let found = self.attaches.get(at).copied();
            if let Some(attach) = found {
                if attach.pid == pid && attach.is_beside(&first) {
                    self.loses(at, attach);
                }
            }
        }
        Reply::Done
    }

    // Adds the parts of a piece that are outside of a range.
    fn keeps(&mut self, attach: Attach, from: u64, to: u64) -> Result<(), Fail> {
        let end = attach.end();
        if attach.addr < from {
            self.copies(
                attach.pid,
                attach.part(attach.addr, from, attach.is_writable),
            )?;
        }
        if to < end {
            self.copies(attach.pid, attach.part(to, end, attach.is_writable))?;
        }
        Ok(())
    }

    // The pieces in the range are detached, and their parts outside of it stay.
    fn unmap(&mut self, pid: u32, addr: u64, len: u64) -> Result<Reply, Fail> {
        let end = addr.saturating_add(len);
        if addr % 4096 != 0 || len == 0 || end > END {
            return Ok(Reply::Refused(Errno::Einval));
        }
        let to = end.div_ceil(4096).wrapping_mul(4096);
        for at in 0..self.attaches.len() {
            let found = self.attaches.get(at).copied();
            if let Some(attach) = found {
                if attach.meets(pid, addr, to.wrapping_sub(addr)) {
                    self.keeps(attach, addr, to)?;
                    self.loses(at, attach);
                }
            }
        }
        Ok(Reply::Done)
    }

    // The piece that the process has at the address.
    fn covering(&self, pid: u32, addr: u64) -> Option<Attach> {
        for attach in &self.attaches {
            if attach.offset(pid, addr).is_some() {
                return Some(*attach);
            }
        }
        None
    }

    // Up the range, piece by piece. What lies below a refusal has changed.
    fn protect(&mut self, pid: u32, addr: u64, len: u64, writable: bool) -> Result<Reply, Fail> {
        if addr % 4096 != 0 {
            return Ok(Reply::Refused(Errno::Einval));
        }
        let pages = len.div_ceil(4096);
        let Some(to) = pages
            .checked_mul(4096)
            .and_then(|bytes| addr.checked_add(bytes))
        else {
            return Ok(Reply::Refused(Errno::Enomem));
        };
        let mut at = addr;
        for _ in 0..=self.attaches.len() {
            if at >= to {
                return Ok(Reply::Done);
            }
            let Some(piece) = self.covering(pid, at) else {
                return Ok(Reply::Refused(Errno::Enomem));
            };
            if writable && !piece.may_write {
                return Ok(Reply::Refused(Errno::Eacces));
            }
            if piece.is_writable != writable {
                self.turn(piece, at, to, writable)?;
            }
            at = piece.end();
        }
        Ok(Reply::Done)
    }

    // Where the piece at an address begins and ends, if it is of the same attach and has this protection.
    fn joined(&self, piece: &Attach, addr: u64, writable: bool) -> Option<(u64, u64)> {
        let other = self.covering(piece.pid, addr)?;
        if other.is_beside(piece) && other.is_writable == writable {
            Some((other.addr, other.end()))
        } else {
            None
        }
    }

    // A part of the piece gets this protection. It joins a neighbour that has it; a whole piece joins none.
    fn turn(&mut self, piece: Attach, at: u64, to: u64, writable: bool) -> Result<(), Fail> {
        let end = piece.end();
        let (mut low, mut high) = (at, to.min(end));
        if at == piece.addr && to < end {
            if let Some((base, _)) = self.joined(&piece, at.wrapping_sub(1), writable) {
                low = base;
            }
        }
        if piece.addr < at && end <= to {
            if let Some((_, last)) = self.joined(&piece, end, writable) {
                high = last;
            }
        }
        self.gives_way(piece.pid, low, high)?;
        self.copies(piece.pid, piece.part(low, high, writable))
    }

    // Cuts the range out of the pieces, which is no detach and sets no time.
    fn gives_way(&mut self, pid: u32, from: u64, to: u64) -> Result<(), Fail> {
        for at in 0..self.attaches.len() {
            let found = self.attaches.get(at).copied();
            if let Some(attach) = found {
                if attach.meets(pid, from, to.wrapping_sub(from)) {
                    self.keeps(attach, from, to)?;
                    self.drops(at);
                    if let Some(segment) = self.segments.get_mut(attach.segment) {
                        segment.shown.nattch = segment.shown.nattch.wrapping_sub(1);
                    }
                }
            }
        }
        Ok(())
    }

    // The child gets a copy of each piece. Each copy counts as an attach, and sets no time.
    fn fork(&mut self, pid: u32, child: u32) -> Result<Reply, Fail> {
        if child != CHILD || self.live.contains(&child) {
            return Ok(Reply::Refused(Errno::Eagain));
        }
        self.live.push(child)?;
        for at in 0..self.attaches.len() {
            let copied = self.attaches.get(at).copied();
            if let Some(attach) = copied {
                if attach.pid == pid {
                    self.copies(child, attach)?;
                }
            }
        }
        Ok(Reply::Done)
    }

    fn copies(&mut self, child: u32, attach: Attach) -> Result<(), Fail> {
        if let Some(segment) = self.segments.get_mut(attach.segment) {
            segment.shown.nattch = segment.shown.nattch.wrapping_add(1);
        }
        self.attaches.push(Attach {
            pid: child,
            ..attach
        })?;
        Ok(())
    }

    fn control(&mut self, call: &Call) -> Reply {
        let id = match *call {
            Call::Stat { id } | Call::Rmid { id } | Call::Lock { id } | Call::Unlock { id } => id,
            _ => return Reply::Refused(Errno::Einval),
        };
        match self.number(id) {
            Ok(number) => self.controlled(number, call),
            Err(errno) => Reply::Refused(errno),
        }
    }

    fn controlled(&mut self, number: usize, call: &Call) -> Reply {
        let Some(segment) = self.segments.get_mut(number) else {
            return Reply::Refused(Errno::Einval);
        };
        match call {
            Call::Stat { .. } => return Reply::Stat(segment.shown),
            Call::Rmid { .. } => segment.removed(),
            Call::Lock { .. } => segment.locked(true),
            _ => segment.locked(false),
        }
        Reply::Done
    }

    // Takes away an active area.
    fn swapoff(&mut self, area: u32) -> Reply {
        for (number, is_there) in (0u32..).zip(self.areas.iter_mut()) {
            if number == area && *is_there {
                *is_there = false;
                return Reply::Done;
            }
        }
        Reply::Refused(Errno::Einval)
    }

    // The byte that the process has at the address.
    fn place(&self, pid: u32, addr: u64) -> Option<Place> {
        for attach in &self.attaches {
            if let Some(offset) = attach.offset(pid, addr) {
                return Some(Place {
                    segment: attach.segment,
                    offset: usize::try_from(offset).ok()?,
                    is_writable: attach.is_writable,
                });
            }
        }
        None
    }

    fn byte(&self, place: Place) -> Option<u8> {
        let segment = self.segments.get(place.segment)?;
        segment.bytes.get(place.offset).copied()
    }

    fn set(&mut self, place: Place, value: u8) {
        if let Some(segment) = self.segments.get_mut(place.segment) {
            if let Some(byte) = segment.bytes.get_mut(place.offset) {
                *byte = value;
            }
        }
    }

    fn load(&self, pid: u32, addr: u64, len: usize) -> Option<Chunk> {
        let mut bytes = [0; 64];
        let mut at = addr;
        for byte in bytes.iter_mut().take(len) {
            let place = self.place(pid, at)?;
            *byte = self.byte(place)?;
            at = at.wrapping_add(1);
        }
        Chunk::new(bytes.get(..len)?)
    }

    // Writes nothing if a byte of the range may not be written.
    fn store(&mut self, pid: u32, addr: u64, bytes: &[u8]) -> Option<Reply> {
        let mut at = addr;
        for _ in bytes {
            let place = self.place(pid, at)?;
            if !place.is_writable {
                return None;
            }
            at = at.wrapping_add(1);
        }
        at = addr;
        for byte in bytes {
            let place = self.place(pid, at)?;
            self.set(place, *byte);
            at = at.wrapping_add(1);
        }
        Some(Reply::Done)
    }

    fn xadd(&mut self, pid: u32, addr: u64, add: u64) -> Option<Reply> {
        let stood = self.load(pid, addr, 8)?;
        let mut old = 0u64;
        for byte in stood.as_slice().iter().rev() {
            old = old.wrapping_mul(256).wrapping_add(u64::from(*byte));
        }
        let sum = old.wrapping_add(add).to_le_bytes();
        self.store(pid, addr, &sum)?;
        Some(Reply::Number(old))
    }

    // Without expected bytes it replaces what is there in any case. Bytes that stay are written too.
    fn exchange(
        &mut self,
        pid: u32,
        addr: u64,
        expected: Option<&[u8]>,
        bytes: &[u8],
    ) -> Option<Reply> {
        let stood = self.load(pid, addr, bytes.len())?;
        let is_met = match expected {
            Some(expected) => stood.as_slice() == expected,
            None => true,
        };
        let written = if is_met { bytes } else { stood.as_slice() };
        self.store(pid, addr, written)?;
        Some(Reply::Bytes(stood))
    }

    /// The live segment at an index: its identifier, what `stat` shows, and its bytes.
    pub fn segment(&self, index: u32) -> Option<(ShmId, ShmidDs, &[u8])> {
        for segment in &self.segments {
            if segment.index == index && segment.is_live {
                return Some((segment.id, segment.shown, segment.bytes.as_slice()));
            }
        }
        None
    }
}
