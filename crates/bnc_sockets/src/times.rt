//! What the system's clocks read.
use std::time::Clock;

/// Milliseconds since 1970 began, by the wall clock. None where the system has no such clock.
pub fn now_ms<R: Clock>(rt: &R) -> Option<u64> {
    let now = rt.since_1970().ok()?;
    u64::try_from(now.as_millis()).ok()
}

/// Milliseconds by the system's monotonic clock. None where it has none.
pub fn monotonic_ms<R: Clock>(rt: &R) -> Option<u64> {
    let now = rt.monotonic().ok()?;
    u64::try_from(now.as_millis()).ok()
}
