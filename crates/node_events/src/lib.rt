//! What the operator of a node is told, what its clocks read, and how its threads begin.
//!
//! An [`Event`] is one line of the operator's log. Of strangers that were refused ([`Refusals`]) and of connections that were closed
//! for want of memory ([`Shortage`]) there may be as many as strangers like: most of these are counted, and told once a minute. A
//! [`ClockWatch`] says whether the wall clock keeps time. Workers run each on a thread of its own ([`each_in_a_thread`]), and a
//! [`ServeFault`] says why a node can't begin. Read [`Event`] first.
#![tactic(auto)]

mod clock_watch;
mod clocks;
mod event;
pub mod laws;
mod refusals;
mod serve_fault;
mod shortage;
mod threads;
mod unreached;

pub use clock_watch::{BETWEEN_LOOKS, ClockWatch};
pub use clocks::{Clocks, Leap};
pub use event::{Event, Reason};
pub use refusals::Refusals;
pub use serve_fault::ServeFault;
pub use shortage::Shortage;
pub use threads::{StartFault, each_in_a_thread};
pub use unreached::Unreached;
