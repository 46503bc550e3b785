//! What no contract says: a script is read while there is memory, also the longest one; and each form and
//! fault once.
use crate::calls::{
    compare_exchange, exchange, mprotect, munmap, set, setuid, shmat, shmget, xadd,
};
use FaultKind::{
    BadByte, BadLine, BadNumber, LengthsDiffer, NoLimits, TooLong, TooMany, TooWide, Twice,
    UnknownProcess,
};
use bitflags::Flags;
use shm_base::{AccessLen, AtFlags, Call, Chunk, GetFlags, Reply, Word};
use shm_text::{FaultKind, FlushLine, Line, ReadRefused, Script, Vars, read_script};
use std::alloc::Global;
use std::process::Abort;
use std::test::Fail;

const HEAD: &[u8] = b"limits 65536 16 64 4 1\nprocess 1 100 100\n";

/// The result of reading a script: how many processes and other lines it has, or its fault.
#[derive(Clone, Copy, Debug, PartialEq, Eq)]
enum Outcome {
    Script(usize, usize),
    Fault(u32, FaultKind),
    HostMemory,
}

fn read(alloc: Global, script: &[u8]) -> Outcome {
    match read_script(alloc, script) {
        Ok(script) => Outcome::Script(script.processes.len(), script.lines.len()),
        Err(ReadRefused::Fault(fault)) => Outcome::Fault(fault.line, fault.kind),
        Err(ReadRefused::HostMemory) => Outcome::HostMemory,
    }
}

/// The script with these lines after its head.
fn script_of(alloc: Global, lines: &[u8]) -> Result<Script, Fail> {
    let mut script = HEAD.to_vec(alloc)?;
    script.extend_from_slice(lines)?;
    Ok(read_script(alloc, &script)?)
}

/// The call of a script whose last line is this one, if all variables are 0.
fn call_of(alloc: Global, line: &[u8]) -> Result<Call, Fail> {
    match script_of(alloc, line)?.lines.first() {
        Some(Line::Command(command)) => Ok(Vars::new().call(command)),
        Some(Line::Flush(_)) | None => Err("a command".into()),
    }
}

// The calls of the lines in order, each with the answer to the one before it.
fn are_in_file_order(rt: &impl Abort, lines: &[Line]) -> Result<(), Fail> {
    assert_eq!(rt; lines.len(), 2);
    let mut vars = Vars::new();
    let calls = [Call::Xadd { addr: 0, add: 16 }, Call::Shmdt { addr: 3 }];
    for (line, call) in lines.iter().zip(&calls) {
        let Line::Command(command) = line else {
            return Err("a command".into());
        };
        assert!(rt; vars.call(command) == *call);
        vars.took(command, Some(&Reply::Number(2)));
    }
    Ok(())
}

#[test]
fn lines_in_file_order(rt: HostRuntime) -> Result<(), Fail> {
    let script = script_of(rt.alloc(), b"child 2\n1 s = xadd a 0x10\n2 shmdt s+1")?;
    assert_eq!(rt; script.processes.len(), 2);
    are_in_file_order(&rt, script.lines.as_slice())?;
    Ok(())
}

/// Whether each line is read as its call. A message counts the rows from 0.
fn are_read(rt: &impl Abort, alloc: Global, rows: &[(&[u8], Call)]) -> Result<(), Fail> {
    for (row, (line, call)) in rows.iter().enumerate() {
        assert!(rt; call_of(alloc, line)? == *call, "at row {row}");
    }
    Ok(())
}

#[test]
fn each_key_address_and_flag(rt: HostRuntime) -> Result<(), Fail> {
    let none = GetFlags::empty();
    let both = GetFlags::CREAT.union(GetFlags::EXCL);
    let mut two = AtFlags::RDONLY;
    two.insert(AtFlags::REMAP);
    let all = two.union(AtFlags::RND);
    let rows: [(&[u8], Call); 10] = [
        (b"1 shmget private 1 600", shmget(0, 1, 0o600, none)),
        (
            b"1 shmget 0xffffffff 0 007,excl",
            shmget(4294967295, 0, 7, GetFlags::EXCL),
        ),
        (
            b"1 k = shmget 42 18446744073709551615 777,excl,creat",
            shmget(42, u64::MAX, 0o777, both),
        ),
        (
            b"1 shmget 0x2a 4096 640,creat,excl",
            shmget(42, 4096, 0o640, both),
        ),
        (
            b"1 shmget 0 4096 640,creat",
            shmget(0, 4096, 0o640, GetFlags::CREAT),
        ),
        (
            b"1 a = shmat 2147483647 null -",
            shmat(2147483647, 0, AtFlags::empty()),
        ),
        (
            b"1 shmat s 0x50000fff rnd",
            shmat(0, 0x50000fff, AtFlags::RND),
        ),
        (b"1 shmat s a rdonly,remap", shmat(0, 0, two)),
        (
            b"1 shmat 00 a+0xFfFf rdonly,remap,rnd",
            shmat(0, 65535, all),
        ),
        (
            b"1 shmat 7 18446744073709551615 remap,rnd,rdonly",
            shmat(7, u64::MAX, all),
        ),
    ];
    are_read(&rt, rt.alloc(), &rows)
}

#[test]
fn each_other_form(rt: HostRuntime) -> Result<(), Fail> {
    let len = AccessLen::new(64).ok_or("1 to 64")?;
    let chunk = Chunk::new(&[0, 171]).ok_or("1 to 64")?;
    let rows: [(&[u8], Call); 15] = [
        (b"1 swapoff 7", Call::Swapoff { area: 7 }),
        (b"1 x = xadd a+18446744073709551615 1", xadd(u64::MAX, 1)),
        (b"1 xadd 4096 18446744073709551615", xadd(4096, u64::MAX)),
        (b"1 shmdt a", Call::Shmdt { addr: 0 }),
        (b"1 load null 64", Call::Load { addr: 0, len }),
        (b"1 store 0x10 00Ab", Call::Store { addr: 16, chunk }),
        (b"1 stat 0", Call::Stat { id: 0 }),
        (b"1 set s 4294967295 0 644", set(4294967295, 0, 0o644)),
        (b"1 rmid 7", Call::Rmid { id: 7 }),
        (b"1 lock s", Call::Lock { id: 0 }),
        (b"1 unlock 2147483647", Call::Unlock { id: 2147483647 }),
        (b"1 fork 1", Call::Fork { child: 1 }),
        (b"01 exec", Call::Exec),
        (b"\t1  exit ", Call::Exit),
        (b"0x1 exit", Call::Exit),
    ];
    are_read(&rt, rt.alloc(), &rows)
}

#[test]
fn each_exchange(rt: HostRuntime) -> Result<(), Fail> {
    let chunk = Chunk::new(&[0, 171]).ok_or("1 to 64")?;
    let longest = Chunk::new(&[17; 64]).ok_or("1 to 64")?;
    let expected = Word::new(&[0, 0, 0, 0, 0, 0, 0, 0]).ok_or("1 to 16")?;
    let desired = Word::new(&[1, 2, 3, 4, 5, 6, 7, 171]).ok_or("1 to 16")?;
    let widest = Word::new(&[17; 16]).ok_or("1 to 16")?;
    let mut swap_of_the_longest = b"1 swap null ".to_vec(rt.alloc())?;
    for _ in 0..64 {
        swap_of_the_longest.extend_from_slice(b"11")?;
    }
    let rows: [(&[u8], Call); 5] = [
        (b"1 swap 0x10 00Ab", exchange(chunk, 16)),
        (b"1 x = swap a+1 00ab", exchange(chunk, 1)),
        (&swap_of_the_longest, exchange(longest, 0)),
        (
            b"1 x = cas a 0000000000000000 01020304050607aB",
            compare_exchange(expected, desired, 0),
        ),
        (
            b"1 cas 16 11111111111111111111111111111111 11111111111111111111111111111111",
            compare_exchange(widest, widest, 16),
        ),
    ];
    are_read(&rt, rt.alloc(), &rows)
}

#[test]
fn each_mapping_and_user(rt: HostRuntime) -> Result<(), Fail> {
    let rows: [(&[u8], Call); 7] = [
        (b"1 munmap 0x40000000 4096", munmap(0x40000000, 4096)),
        (b"1 munmap a+1 18446744073709551615", munmap(1, u64::MAX)),
        (b"1 munmap null 0", munmap(0, 0)),
        (b"1 mprotect 4096 0x1001 ro", mprotect(4096, 4097, false)),
        (
            b"1 mprotect a 18446744073709551615 rw",
            mprotect(0, u64::MAX, true),
        ),
        (b"1 setuid 100 200", setuid(100, 200)),
        (b"1 setuid 0 4294967295", setuid(0, 4294967295)),
    ];
    are_read(&rt, rt.alloc(), &rows)
}

fn are_rounds(rt: &impl Abort, lines: &[Line], all: &[u64]) -> Result<(), Fail> {
    assert_eq!(rt; lines.len(), all.len());
    for (line, pages) in lines.iter().zip(all) {
        let round = FlushLine::new(*pages).ok_or("1 to 4096")?;
        assert!(rt; *line == Line::Flush(round));
    }
    Ok(())
}

#[test]
fn flush_lines(rt: HostRuntime) -> Result<(), Fail> {
    let script = script_of(rt.alloc(), b"0 flush 4096\n0 flush 0x1\n")?;
    are_rounds(&rt, script.lines.as_slice(), &[4096, 1])?;
    Ok(())
}

/// Third lines of a script, each with its fault.
const FAULTS: [(&[u8], FaultKind); 110] = [
    (b"process 1 5 5", Twice),
    (b"2 exit", UnknownProcess),
    (b"1 fork 9", UnknownProcess),
    (b"1 fork 0", BadNumber),
    (b"1 load 0 0", BadNumber),
    (b"1 load 0x 1", BadLine),
    (b"1 store 0 abc", BadLine),
    (b"1 rmid 2147483648", BadNumber),
    (b"0 exit", BadLine),
    (b"00 exit", BadNumber),
    (b"1 exit\r", BadByte),
    (b"limits 1 1 1 2 0", BadLine),
    (b"9 fork 0", BadNumber),
    (b"00 fork 9", BadNumber),
    (b"1 fork 2147483648", BadNumber),
    (b"1 fork null", BadLine),
    (b"1 fork", BadLine),
    (b"1 shmget 0x100000000 1 600", BadNumber),
    (b"1 shmget Private 1 600", BadLine),
    (b"1 shmget s 1 600", BadLine),
    (b"1 shmget private 1 600,", BadLine),
    (b"1 shmget private 1 600,creat,creat", BadLine),
    (b"1 shmget private 1 60,creat", BadLine),
    (b"1 shmget private 1 creat", BadLine),
    (b"1 shmget private null 600", BadLine),
    (b"1 shmat s null rnd,rnd", BadLine),
    (b"1 shmat s null -,rnd", BadLine),
    (b"1 shmat s null rnd,", BadLine),
    (b"1 shmat s null creat", BadLine),
    (b"1 shmat s null", BadLine),
    (b"1 shmat 2147483648 null rnd,rnd", BadLine),
    (b"1 shmat 2147483648 null rnd", BadNumber),
    (b"1 shmat s a+18446744073709551616 -", BadNumber),
    (b"1 shmat s a+ -", BadLine),
    (b"1 shmat s a +1 -", BadLine),
    (b"1 set s 4294967296 0 600", BadNumber),
    (b"1 set s 0 4294967296 600", BadNumber),
    (b"1 set s 0 4294967296 1600", BadLine),
    (b"1 set s 0 0 600 0", BadLine),
    (b"1 xadd a", BadLine),
    (b"1 xadd a b", BadLine),
    (b"1 xadd a 18446744073709551616", BadNumber),
    (b"1 swap a", BadLine),
    (b"1 swap a abc", BadLine),
    (b"1 swap a 00 11", BadLine),
    (b"1 swap a+18446744073709551616 00", BadNumber),
    (b"1 x = swap a 001122334455667788", TooWide),
    (b"2 x = swap a 001122334455667788", TooWide),
    (b"1 cas a 00", BadLine),
    (b"1 cas a 00 0g", BadLine),
    (b"1 cas a 0g 00", BadLine),
    (b"1 cas a 00 1111111111111111111111111111111111", BadLine),
    (b"1 cas a 1111111111111111111111111111111111 00", BadLine),
    (b"1 cas a 00 0011", LengthsDiffer),
    (b"2 cas a 0011 00", LengthsDiffer),
    (b"1 cas a+18446744073709551616 00 0011", LengthsDiffer),
    (
        b"1 x = cas a 001122334455667788 001122334455667788",
        TooWide,
    ),
    (b"1 x = cas a 00 001122334455667788", LengthsDiffer),
    (b"1 Cas a 00 00", BadLine),
    (b"1 v = load a 1", BadLine),
    (b"1 v = shmdt a", BadLine),
    (b"1 v = exit", BadLine),
    (b"1 v =", BadLine),
    (b"1 v shmget private 1 600", BadLine),
    (b"1 V = shmget private 1 600", BadLine),
    (b"1 vv = shmget private 1 600", BadLine),
    (b"1 shmdt", BadLine),
    (b"1 stat null", BadLine),
    (b"1 stat s+1", BadLine),
    (b"1 lock ss", BadLine),
    (b"1 unlock 2147483648", BadNumber),
    (b"1 exec 1", BadLine),
    (b"1 Exit", BadLine),
    (b"1", BadLine),
    (b"1 swapoff 8", BadNumber),
    (b"1 swapoff", BadLine),
    (b"1 s = swapoff 0", BadLine),
    (b"1 munmap 4096", BadLine),
    (b"1 munmap 4096 4096 ro", BadLine),
    (b"1 munmap a b", BadLine),
    (b"1 munmap a -1", BadLine),
    (b"1 munmap a 18446744073709551616", BadNumber),
    (b"1 munmap a+18446744073709551616 1", BadNumber),
    (b"2 munmap a 18446744073709551616", BadNumber),
    (b"1 a = munmap a 4096", BadLine),
    (b"1 Munmap a 4096", BadLine),
    (b"1 mprotect 4096 4096", BadLine),
    (b"1 mprotect 4096 4096 x", BadLine),
    (b"1 mprotect 4096 4096 r", BadLine),
    (b"1 mprotect 4096 4096 RO", BadLine),
    (b"1 mprotect 4096 4096 rw rw", BadLine),
    (b"1 mprotect 4096 ro 4096", BadLine),
    (b"1 mprotect a 18446744073709551616 ro", BadNumber),
    (b"1 mprotect a 18446744073709551616 x", BadLine),
    (b"1 mprotect 18446744073709551616 1 rw", BadNumber),
    (b"1 a = mprotect a 4096 rw", BadLine),
    (b"1 setuid 100", BadLine),
    (b"1 setuid 100 100 100", BadLine),
    (b"1 setuid a 100", BadLine),
    (b"1 setuid 4294967296 0", BadNumber),
    (b"1 setuid 0 4294967296", BadNumber),
    (b"1 setuid 4294967296 a", BadLine),
    (b"2 setuid 0 0", UnknownProcess),
    (b"1 a = setuid 0 0", BadLine),
    (b"0 flush 0", BadNumber),
    (b"0 flush 4097", BadNumber),
    (b"00 flush 1", BadLine),
    (b"1 flush 1", BadLine),
    (b"0 flush", BadLine),
    (b"0 flush 1 1", BadLine),
];

/// Whether this third line has this fault, with a line end and without.
fn has_fault(alloc: Global, line: &[u8], kind: FaultKind) -> Result<bool, Fail> {
    let mut script = HEAD.to_vec(alloc)?;
    script.extend_from_slice(line)?;
    let without_end = read(alloc, &script);
    script.push(b'\n')?;
    let fault = Outcome::Fault(3, kind);
    Ok(without_end == fault && read(alloc, &script) == fault)
}

#[test]
fn each_fault_of_a_line(rt: HostRuntime) -> Result<(), Fail> {
    let alloc = rt.alloc();
    for (index, (line, kind)) in FAULTS.iter().enumerate() {
        assert!(rt; has_fault(alloc, line, *kind)?, "at {index}");
    }
    Ok(())
}

const SCRIPT: &[u8] = b"\
limits 65536 16 64 4 1\n\
process 1 100 100\n\
process 2 100 100\n\
process 3 100 100\n\
1 s = shmget 0x2a 4096 600,creat\n\
1 shmat s null -\n\
2 b = shmat 0 null -\n\
2 store b 7f\n\
1 rmid s\n\
1 stat s\n\
1 shmget 0x2a 4096 600\n\
1 shmat s null rdonly\n\
1 exit\n\
2 load b 1\n\
2 exit\n\
3 stat 0\n\
1 stat 0\n\n";

#[test]
fn each_beginning_of_a_script(rt: HostRuntime) -> Result<(), Fail> {
    let alloc = rt.alloc();
    // From the first of these lengths up to the second.
    let runs = [
        (0, 6, Outcome::Fault(1, NoLimits)),
        (6, 22, Outcome::Fault(1, BadLine)),
        (22, 24, Outcome::Script(0, 0)),
        (24, 38, Outcome::Fault(2, BadLine)),
        (38, 42, Outcome::Script(1, 0)),
        (42, 56, Outcome::Fault(3, BadLine)),
        (56, 60, Outcome::Script(2, 0)),
        (60, 74, Outcome::Fault(4, BadLine)),
        (74, 78, Outcome::Script(3, 0)),
        (78, 103, Outcome::Fault(5, BadLine)),
        (103, 104, Outcome::Script(3, 1)),
        (104, 109, Outcome::Fault(5, BadLine)),
        (109, 111, Outcome::Script(3, 1)),
        (111, 126, Outcome::Fault(6, BadLine)),
        (126, 128, Outcome::Script(3, 2)),
        (128, 147, Outcome::Fault(7, BadLine)),
        (147, 149, Outcome::Script(3, 3)),
        (149, 160, Outcome::Fault(8, BadLine)),
        (160, 162, Outcome::Script(3, 4)),
        (162, 169, Outcome::Fault(9, BadLine)),
        (169, 171, Outcome::Script(3, 5)),
        (171, 178, Outcome::Fault(10, BadLine)),
        (178, 180, Outcome::Script(3, 6)),
        (180, 201, Outcome::Fault(11, BadLine)),
        (201, 203, Outcome::Script(3, 7)),
        (203, 223, Outcome::Fault(12, BadLine)),
        (223, 225, Outcome::Script(3, 8)),
        (225, 230, Outcome::Fault(13, BadLine)),
        (230, 232, Outcome::Script(3, 9)),
        (232, 241, Outcome::Fault(14, BadLine)),
        (241, 243, Outcome::Script(3, 10)),
        (243, 248, Outcome::Fault(15, BadLine)),
        (248, 250, Outcome::Script(3, 11)),
        (250, 257, Outcome::Fault(16, BadLine)),
        (257, 259, Outcome::Script(3, 12)),
        (259, 266, Outcome::Fault(17, BadLine)),
        (266, 268, Outcome::Script(3, 13)),
    ];
    for (first, end, outcome) in runs {
        for length in first..end {
            let beginning = SCRIPT.get(..length).ok_or("a beginning")?;
            assert!(rt; read(alloc, beginning) == outcome);
        }
    }
    Ok(())
}

#[test]
fn longest_scripts(rt: HostRuntime) -> Result<(), Fail> {
    let alloc = rt.alloc();
    let empty = vec![in alloc; b'\n'; 1048577]?;
    assert!(rt; read(alloc, &empty) == Outcome::Fault(0, TooLong));
    assert!(rt; read(alloc, &empty[1..]) == Outcome::Fault(1, NoLimits));
    let mut script = HEAD.to_vec(alloc)?;
    for _ in 0..100000 {
        script.extend_from_slice(b"1 exit\n")?;
    }
    assert!(rt; read(alloc, &script) == Outcome::Script(1, 100000));
    script.extend_from_slice(b"1 exit")?;
    assert!(rt; read(alloc, &script) == Outcome::Fault(100003, TooMany));
    Ok(())
}
