//! Whole runs of scripts that page much in a few frames: their output, with the counts of paging.
use crate::ends::{run, writer};
use std::alloc::Global;
use std::io::ErrorKind;
use std::test::Fail;

/// A script, and its whole output.
struct Row {
    name: &'static str,
    script: &'static [u8],
    output: &'static [u8],
}

const ROWS: &[Row] = &[
    // Two of the four frames keep the pages of the locked segment, and five pages pass through the others.
    Row {
        name: "pages of a locked segment stay",
        script: b"\
limits 65536 16 64 4 2\n\
process 1 100 100\n\
1 s = shmget private 8192 600\n\
1 lock s\n\
1 t = shmget private 24576 600\n\
1 u = shmget private 4096 600\n\
1 lock u\n\
1 a = shmat s null -\n\
1 b = shmat t null -\n\
1 store a 01\n\
1 store a+4096 02\n\
1 load b 1\n\
1 load b+4096 1\n\
1 load b+8192 1\n\
1 load b+12288 1\n\
1 load b+16384 1\n\
1 load a 1\n",
        output: b"\
1 1 shmget 0x00000000 8192 600 = 0\n\
2 1 lock 0 = ok\n\
3 1 shmget 0x00000000 24576 600 = 1\n\
4 1 shmget 0x00000000 4096 600 = 2\n\
5 1 lock 2 = ENOMEM\n\
6 1 shmat 0 null - = 0x40000000\n\
7 1 shmat 1 null - = 0x40002000\n\
8 1 store 0x40000000 01 = ok\n\
9 1 store 0x40001000 02 = ok\n\
10 1 load 0x40002000 1 = 00\n\
11 1 load 0x40003000 1 = 00\n\
12 1 load 0x40004000 1 = 00\n\
13 1 load 0x40005000 1 = 00\n\
14 1 load 0x40006000 1 = 00\n\
15 1 load 0x40000000 1 = 01\n\
key        shmid      owner      perms      bytes      nattch     status\n\
0x00000000 0          100        600        8192       1          locked\n\
0x00000000 1          100        600        24576      1          -\n\
0x00000000 2          100        600        4096       0          -\n\
usage events 15 segments 3 reserved 9 locked 2\n\
usage frames 4/4 dirty 2 slots 0/64\n\
usage in 0 out 0 failures 0\n",
    },
    // The load over two pages brings the first page in, evicts the second to a slot, and reads it again.
    Row {
        name: "a fault evicts the second page",
        script: b"\
limits 65536 16 64 2 0\n\
process 1 100 100\n\
1 s = shmget private 12288 600\n\
1 a = shmat s null -\n\
1 store a+4096 11\n\
1 load a+8192 1\n\
1 load a+4095 2\n",
        output: b"\
1 1 shmget 0x00000000 12288 600 = 0\n\
2 1 shmat 0 null - = 0x40000000\n\
3 1 store 0x40001000 11 = ok\n\
4 1 load 0x40002000 1 = 00\n\
5 1 load 0x40000fff 2 = 0011\n\
key        shmid      owner      perms      bytes      nattch     status\n\
0x00000000 0          100        600        12288      1          -\n\
usage events 5 segments 1 reserved 3 locked 0\n\
usage frames 2/2 dirty 0 slots 1/64\n\
usage in 1 out 1 failures 0\n",
    },
];

// Whether the script's run succeeds and prints this.
fn prints(alloc: Global, script: &[u8], output: &[u8]) -> Result<bool, Fail> {
    let mut reader = script;
    let mut printed = writer(alloc, 4096, 0, ErrorKind::Other);
    let fault = run(alloc, &mut reader, &mut printed, 1)?;
    Ok(fault.is_none() && printed.taken.as_slice() == output)
}

#[test]
fn runs_print(rt: HostRuntime) -> Result<(), Fail> {
    for row in ROWS {
        assert!(rt; prints(rt.alloc(), row.script, row.output)?, "{}", row.name);
    }
    Ok(())
}
