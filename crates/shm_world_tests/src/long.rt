//! A history that grows with its calls, without room that was made before.
use crate::histories::world;
use shm_base::{Call, Reply};
use std::test::Fail;

// More events than a count of 16 bits can have.
const CALLS: usize = 70_000;

#[test]
fn a_history_grows_with_its_calls(rt: HostRuntime) -> Result<(), Fail> {
    let mut world = world(rt.alloc(), 65536)?;
    for at in 0..CALLS {
        assert!(rt;
            world.call(1, &Call::Exec).ok() == Some(Reply::Done),
            "at call {at}"
        );
    }
    assert_eq!(rt; world.history().len(), CALLS);
    Ok(())
}
