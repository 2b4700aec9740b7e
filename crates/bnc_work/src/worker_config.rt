//! What a worker begins with, and how its work ends.
use crate::settings::NodeSettings;
use crate::waiting::WaitingClients;

/// How the work of one worker ended.
#[derive(Clone, Copy, Debug, PartialEq, Eq)]
pub enum WorkEnd {
    /// The gate didn't let an answer through.
    GateShut,
    /// The port ended.
    Ended,
    /// The port failed.
    Failed,
}

/// What a worker begins with. All workers of a node have the same.
#[derive(Drop)]
pub struct WorkerConfig<'a> {
    pub settings: &'a NodeSettings,
    pub waiting: WaitingClients,
}
