//! The numbers of a configuration, and their ranges.
ghost use Rattle.std.specs.Prelude.{◌≤◌};
ghost use Rattle.node_config.specs.declared.limits.TheConstants.{MOST_WORKERS, MOST_PLACES};
ghost use Rattle.node_config.specs.declared.limits.TheConstants.{LEAST_BOUND, MOST_BOUND};
ghost use Rattle.node_config.specs.declared.limits.TheConstants.{MOST_RETAIN_DAYS};

/// The most threads that serve connections. The least is 1.
pub const MOST_WORKERS: u32 = 16;

/// The most clients that may be attached at once. The least is 1.
pub const MOST_PLACES: u32 = 4_096;

/// The least bytes that may be owed to a client.
pub const LEAST_BOUND: u32 = 1_024;

/// The most bytes that may be owed to a client.
pub const MOST_BOUND: u32 = 1_048_576;

/// The most days after which a message may be let go.
pub const MOST_RETAIN_DAYS: u32 = 36_500;

/// The least number that may be set as the most messages or buffers of one page. It is what stands where none is set.
pub const LEAST_MAXIMUM: u32 = 100;

/// The greatest number that may be set as the most messages or buffers of one page.
pub const MOST_MAXIMUM: u32 = 1_000;

/// The numbers of a configuration, each in its range.
#[derive(Clone, Copy)]
pub struct Limits {
    /// How many threads serve connections.
    pub workers: usize,
    /// How many clients may be attached at once.
    pub places: usize,
    /// How many bytes may be owed to a client.
    pub bound: usize,
    /// After how many days a message may be let go. 0 keeps all.
    pub retain_days: u32,
    ghost some_workers: { 1 ≤ workers },
    ghost few_workers: { workers ≤ MOST_WORKERS },
    ghost some_places: { 1 ≤ places },
    ghost few_places: { places ≤ MOST_PLACES },
    ghost some_room: { LEAST_BOUND ≤ bound },
    ghost bounded_room: { bound ≤ MOST_BOUND },
    ghost few_days: { retain_days ≤ MOST_RETAIN_DAYS },
}
