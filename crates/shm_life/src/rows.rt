ghost use Rattle.shm_life.specs.PagingRows.{EvictionRow};

/// The worked case of paging holds, by computation.
fn worked_eviction()
    ensures { EvictionRow }
{}
