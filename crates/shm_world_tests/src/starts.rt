//! Each start error, in its order.
use shm_base::{Cred, Limits, Process};
use shm_life::{StartError, System};
use shm_pager::RamPager;
use std::alloc::Global;
use std::test::Fail;

/// A start of a system: the slots of its areas, its processes, and the expected error.
pub(crate) type Row = (&'static [u32], &'static [Process], Option<StartError>);

fn areas_of(alloc: Global, areas: &[u32]) -> Result<Vec<RamPager>, Fail> {
    let mut pagers = Vec::new(alloc);
    for slots in areas {
        pagers.push(RamPager::new(alloc, *slots)?)?;
    }
    Ok(pagers)
}

fn start(alloc: Global, areas: &[u32], processes: &[Process]) -> Result<Option<StartError>, Fail> {
    let limits = Limits::new(65536, 16, 64, 4, 1)
        .ok()
        .ok_or("the limits hold")?;
    let pagers = areas_of(alloc, areas)?;
    match System::start(alloc, limits, pagers, processes) {
        Ok(system) => {
            let _calls = system.calls();
            Ok(None)
        }
        Err(error) => Ok(Some(error)),
    }
}

const FIRST: Process = Process {
    pid: 1,
    born: Some(Cred { uid: 1, gid: 1 }),
};

const ZERO: Process = Process { pid: 0, ..FIRST };

const LARGEST: Process = Process {
    pid: 2147483647,
    ..FIRST
};

const TOO_LARGE: Process = Process {
    pid: 2147483648,
    ..FIRST
};

const TWICE: &[Process] = &[FIRST, FIRST];

const MANY: &[Process] = &[FIRST; 65];

pub(crate) const ROWS: &[Row] = &[
    (&[], TWICE, Some(StartError::Areas)),
    (&[1; 9], TWICE, Some(StartError::Areas)),
    (&[1, 0], MANY, Some(StartError::AreaSize)),
    (&[65537], TWICE, Some(StartError::AreaSize)),
    (&[1; 8], MANY, Some(StartError::Processes)),
    (&[65536], TWICE, Some(StartError::Pid)),
    (&[1], &[ZERO], Some(StartError::Pid)),
    (&[1], &[TOO_LARGE], Some(StartError::Pid)),
    (&[1], &[LARGEST, FIRST], None),
];

#[test]
fn the_first_error_that_applies(rt: HostRuntime) -> Result<(), Fail> {
    for (at, row) in ROWS.iter().enumerate() {
        assert!(rt; start(rt.alloc(), row.0, row.1)? == row.2, "at row {at}");
    }
    Ok(())
}
