//! What no clause says: that the sum is what was counted.
use crate::add_by_all;

#[test]
fn the_sum_is_that_of_all_threads(rt: HostRuntime) {
    for threads in 1..6 {
        let sum = add_by_all(&rt, rt.alloc(), threads, 100 + threads);
        assert!(rt; sum == Some(u64::from(threads) * u64::from(100 + threads)));
    }
}
