//! What no clause says: that the threads come to their ends, and read all that was handed on.

use crate::run;
use std::test::Fail;

/// Each array was read once, and each global reference deleted, whatever the threads' order.
#[test]
fn each_array_is_added_once(rt: HostRuntime) -> Result<(), Fail> {
    let (sum, left) = run(&rt, rt.alloc())?;
    assert!(rt; sum == 1_045);
    assert!(rt; left.globals == 0);
    assert!(rt; left.live == 0);
    Ok(())
}
