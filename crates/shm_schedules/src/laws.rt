//! A law of the flat machine on which the judge relies.
ghost use Rattle.shm_schedules.specs.Times.{TimesReachTimes};

/// Times affect nothing but the times that `stat` shows. The function does nothing; its contract is the law.
pub fn times_reach_times()
    ensures law { TimesReachTimes }
{}
