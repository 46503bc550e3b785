//! The texts of errors, as each type prints them.
use shm_history::GaugeRefused;
use shm_life::StartError;
use std::alloc::Global;
use std::fmt::Display;

fn prints(alloc: Global, error: &impl Display, wanted: &str) -> bool {
    format!(in alloc; "{error}").is_ok_and(|text| text.as_str() == wanted)
}

#[test]
fn refused_starts_are_reported(rt: HostRuntime) {
    let alloc = rt.alloc();
    assert!(rt; prints(alloc, &StartError::Areas, "not 1 to 8 swap areas"));
    assert!(rt;
        prints(
            alloc,
            &StartError::AreaSize,
            "a swap area without slots, or with too many"
        )
    );
    assert!(rt; prints(alloc, &StartError::Processes, "too many processes"));
    assert!(rt; prints(alloc, &StartError::Pid, "a pid out of range, or twice"));
    assert!(rt; prints(alloc, &StartError::HostMemory, "out of memory"));
    assert!(rt;
        prints(
            alloc,
            &GaugeRefused::Limits,
            "a gauge has at most 4096 frames and 65536 pages"
        )
    );
    assert!(rt; prints(alloc, &GaugeRefused::HostMemory, "out of memory"));
}
