//! The clocks, in milliseconds.
use std::time::Clock;

/// Since 1970 began, by the system's clock, which may be set. 0 where it can't be read.
pub(crate) fn wall_ms<R: Clock>(rt: &R) -> u64 {
    match rt.since_1970() {
        Ok(now) => u64::try_from(now.as_millis()).unwrap_or(0),
        Err(_) => 0,
    }
}

/// By the system's monotonic clock, which only rises. 0 where it can't be read.
pub(crate) fn monotonic_ms<R: Clock>(rt: &R) -> u64 {
    match rt.monotonic() {
        Ok(now) => u64::try_from(now.as_millis()).unwrap_or(0),
        Err(_) => 0,
    }
}
