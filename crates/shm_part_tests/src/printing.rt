//! What no contract says: printing succeeds while there is memory; and the printed words.
use crate::calls::{
    compare_exchange, exchange, mprotect, munmap, set, setuid, shmat, shmget, xadd,
};
use bitflags::Flags;
use shm_base::{
    AccessLen, AtFlags, Call, Chunk, Errno, Event, GetFlags, Perm, Reply, ShmidDs, Status, Tally,
    Word,
};
use shm_print::{event_text, reply_text, segment_line, usage_text};
use std::test::Fail;

#[test]
fn printed_calls(rt: HostRuntime) -> Result<(), Fail> {
    let alloc = rt.alloc();
    let len = AccessLen::new(64).ok_or("1 to 64")?;
    let chunk = Chunk::new(&[0, 171]).ok_or("1 to 64")?;
    let expected = Word::new(&[0]).ok_or("1 to 16")?;
    let desired = Word::new(&[171]).ok_or("1 to 16")?;
    let get_flags = GetFlags::CREAT.union(GetFlags::EXCL);
    let at_flags = AtFlags::RDONLY.union(AtFlags::RND).union(AtFlags::REMAP);
    let printed = [
        (
            shmget(42, 4096, 0o640, GetFlags::CREAT),
            "shmget 0x0000002a 4096 640,creat",
        ),
        (
            shmget(0, 1, 0o1004, get_flags),
            "shmget 0x00000000 1 004,creat,excl",
        ),
        (shmat(0, 0x50000fff, AtFlags::RND), "shmat 0 0x50000fff rnd"),
        (shmat(-1, 0, at_flags), "shmat -1 null rnd,remap,rdonly"),
        (set(100, 100, 0o600), "set 0 100 100 600"),
        (Call::Load { addr: 0, len }, "load null 64"),
        (Call::Store { addr: 16, chunk }, "store 0x10 00ab"),
        (xadd(0x40000000, 1), "xadd 0x40000000 1"),
        (exchange(chunk, 16), "swap 0x10 00ab"),
        (compare_exchange(expected, desired, 16), "cas 0x10 00 ab"),
        (munmap(0, 0), "munmap null 0"),
        (
            munmap(0x40000000, u64::MAX),
            "munmap 0x40000000 18446744073709551615",
        ),
        (
            mprotect(0x40000000, 4096, false),
            "mprotect 0x40000000 4096 ro",
        ),
        (mprotect(16, 1, true), "mprotect 0x10 1 rw"),
        (setuid(4294967295, 7), "setuid 4294967295 7"),
        (Call::Fork { child: 2 }, "fork 2"),
        (Call::Swapoff { area: 7 }, "swapoff 7"),
        (Call::Exit, "exit"),
    ];
    for (call, text) in &printed {
        let event = Event {
            pid: 7,
            call: *call,
            reply: Reply::Done,
        };
        let line = format!(in alloc; "3 7 {text} = ok\n")?;
        assert!(rt;
            event_text(alloc, 3, &event)?.as_str() == line.as_str(),
            "{text}"
        );
    }
    Ok(())
}

#[test]
fn printed_replies(rt: HostRuntime) -> Result<(), Fail> {
    let alloc = rt.alloc();
    let shown = ShmidDs {
        key: 0,
        perm: Perm {
            uid: 200,
            gid: 200,
            cuid: 100,
            cgid: 100,
            mode: 0o640,
        },
        status: Status::all(),
        size: 4096,
        cpid: 1,
        lpid: 0,
        nattch: 0,
        atime: 0,
        dtime: 0,
        ctime: 5,
    };
    let printed = [
        (Reply::Id(2147450880), "2147450880"),
        (Reply::Addr(0x40000000), "0x40000000"),
        (Reply::Number(18446744073709551615), "18446744073709551615"),
        (
            Reply::Stat(shown),
            "key=0x00000000 uid=200 gid=200 cuid=100 cgid=100 mode=640 status=dest,locked size=4096 cpid=1 lpid=0 nattch=0 atime=0 dtime=0 ctime=5",
        ),
        (Reply::Done, "ok"),
        (Reply::Refused(Errno::Sigsegv), "SIGSEGV"),
    ];
    for (reply, text) in printed {
        assert!(rt; reply_text(alloc, &reply)?.as_str() == text, "{text}");
        let event = Event {
            pid: 3,
            call: Call::Exec,
            reply,
        };
        let line = format!(in alloc; "9 3 exec = {text}\n")?;
        assert!(rt; event_text(alloc, 9, &event)?.as_str() == line.as_str());
    }
    Ok(())
}

#[test]
fn listed_segments(rt: HostRuntime) -> Result<(), Fail> {
    let alloc = rt.alloc();
    let first = ShmidDs {
        key: 0,
        perm: Perm {
            uid: 100,
            gid: 100,
            cuid: 100,
            cgid: 100,
            mode: 0o600,
        },
        status: Status::empty(),
        size: 8192,
        cpid: 1,
        lpid: 1,
        nattch: 1,
        atime: 2,
        dtime: 0,
        ctime: 1,
    };
    let other = ShmidDs {
        key: 0xffffffff,
        perm: Perm {
            uid: 4294967295,
            gid: 0,
            cuid: 0,
            cgid: 0,
            mode: 7,
        },
        status: Status::all(),
        nattch: 16384,
        ..first
    };
    let printed = [
        (
            segment_line(alloc, 0, &first)?,
            "0x00000000 0          100        600        8192       1          -\n",
        ),
        (
            segment_line(alloc, 2147450880, &other)?,
            "0xffffffff 2147450880 4294967295 007        8192       16384      dest,locked\n",
        ),
    ];
    for (line, text) in &printed {
        assert!(rt; line.as_str() == *text, "{text}");
    }
    Ok(())
}

#[test]
fn printed_usage(rt: HostRuntime) -> Result<(), Fail> {
    let alloc = rt.alloc();
    let tally = Tally {
        events: 4,
        segments: 1,
        reserved: 2,
        locked: 0,
        frames: 4,
        resident: 3,
        dirty: 2,
        slots: 64,
        used: 5,
        ins: 18446744073709551615,
        outs: 6,
        failures: 7,
    };
    let text = "\
usage events 4 segments 1 reserved 2 locked 0\n\
usage frames 3/4 dirty 2 slots 5/64\n\
usage in 18446744073709551615 out 6 failures 7\n";
    assert!(rt; usage_text(alloc, &tally)?.as_str() == text);
    Ok(())
}
