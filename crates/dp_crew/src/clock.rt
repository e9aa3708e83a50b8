//! What time it is.
use std::time::{Clock, Duration};

/// What the clock shows, or 0 where it fails.
pub(crate) fn nanoseconds<R: Clock>(rt: &R) -> u64 {
    match rt.monotonic() {
        Ok(past) => nanoseconds_of(past),
        Err(_) => 0,
    }
}

fn nanoseconds_of(past: Duration) -> u64 {
    past.as_secs()
        .saturating_mul(1_000_000_000)
        .saturating_add(u64::from(past.subsec_nanos()))
}
