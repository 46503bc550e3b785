//! Calls by their arguments, for tables.
use shm_base::{AtFlags, Call, Chunk, GetFlags, Word};

pub(crate) fn shmget(key: u32, size: u64, mode: u16, flags: GetFlags) -> Call {
    Call::Shmget {
        key,
        size,
        mode,
        flags,
    }
}

pub(crate) fn shmat(id: i32, addr: u64, flags: AtFlags) -> Call {
    Call::Shmat { id, addr, flags }
}

pub(crate) fn xadd(addr: u64, add: u64) -> Call {
    Call::Xadd { addr, add }
}

pub(crate) fn exchange(chunk: Chunk, addr: u64) -> Call {
    Call::Exchange { chunk, addr }
}

pub(crate) fn compare_exchange(expected: Word, desired: Word, addr: u64) -> Call {
    Call::CompareExchange {
        expected,
        desired,
        addr,
    }
}

pub(crate) fn munmap(addr: u64, len: u64) -> Call {
    Call::Munmap { addr, len }
}

pub(crate) fn mprotect(addr: u64, len: u64, writable: bool) -> Call {
    Call::Mprotect {
        addr,
        len,
        writable,
    }
}

// Of segment 0.
pub(crate) fn set(uid: u32, gid: u32, mode: u16) -> Call {
    Call::Set {
        id: 0,
        uid,
        gid,
        mode,
    }
}

pub(crate) fn setuid(uid: u32, gid: u32) -> Call {
    Call::Setuid { uid, gid }
}
