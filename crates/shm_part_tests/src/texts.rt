//! The texts of errors, as each type prints them.
use shm_attach::Segv;
use shm_base::{AdmitRefusal, BadLimits, DismissRefusal, HostMemory};
use shm_ids::LookRefused;
use shm_pager::MirrorCause;
use shm_pager_core::PagerFault;
use std::alloc::Global;
use std::fmt::Display;

fn prints(alloc: Global, error: &impl Display, wanted: &str) -> bool {
    format!(in alloc; "{error}").is_ok_and(|text| text.as_str() == wanted)
}

#[test]
fn errors_are_reported(rt: HostRuntime) {
    let alloc = rt.alloc();
    assert!(rt; prints(alloc, &LookRefused::Removed, "the identifier was removed"));
    assert!(rt;
        prints(
            alloc,
            &LookRefused::Invalid,
            "the identifier was never issued"
        )
    );
    assert!(rt; prints(alloc, &MirrorCause::Unequal, "the two sides differ in size"));
    assert!(rt; prints(alloc, &MirrorCause::HostMemory, "out of memory"));
    assert!(rt; prints(alloc, &PagerFault, "a pager failed"));
    assert!(rt; prints(alloc, &Segv, "address not mapped, or not writable"));
}

#[test]
fn refusals_of_the_host_are_reported(rt: HostRuntime) {
    let alloc = rt.alloc();
    assert!(rt; prints(alloc, &AdmitRefusal::BadPid, "a pid out of range"));
    assert!(rt; prints(alloc, &AdmitRefusal::PidTaken, "a pid that is taken"));
    assert!(rt; prints(alloc, &AdmitRefusal::TooManyProcesses, "too many processes"));
    assert!(rt; prints(alloc, &DismissRefusal::NoProcess, "no process has the pid"));
    assert!(rt; prints(alloc, &DismissRefusal::StillLive, "the process is live"));
    assert!(rt; prints(alloc, &BadLimits(4), "bad limits 4"));
    assert!(rt; prints(alloc, &BadLimits(5), "bad limits 5"));
    assert!(rt; prints(alloc, &HostMemory, "out of memory"));
}
