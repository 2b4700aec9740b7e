//! The operator's log. Any thread hands lines in to a [`Log`], and never waits for whoever reads standard error; one thread
//! writes them there, and no other does. What doesn't fit is lost and counted.
#![tactic(auto)]

mod log;
mod log_queue;

pub use log::Log;
