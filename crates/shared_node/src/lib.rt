//! One node that many threads share: the log of all changes that were put on it, and two copies of its state, so that
//! asking takes no lock.
//!
//! A [`SharedNode`] has a published list: the changes that were put, each under the number of the [`Pass`] that put it.
//! The list only grows. [`SharedNode::put`] takes a lock, appends changes, and publishes a state that is made of the longer
//! list. A pass asks without the lock, of the state that is published then ([`Pass::ask`], [`Pass::delta`],
//! [`Pass::due_floors`], [`Pass::shown`], [`Pass::marker`]): no reading call waits, and what it answers is the answer of a
//! list that begins with all that the pass has seen or was told of ([`Pass::learn`]). Of any two lists of a node one is a
//! prefix of the other.
//!
//! At run time there is only the log's length. A [`Prefix`] is a part of it that was reached. A [`LogWriter`] is
//! the one writing end: it puts changes behind all that was put before, and publishes what waits (`left_right`). An
//! [`Entrance`] is a way in to what is published, without a lock: a [`Visit`] has the state of a list that follows all that
//! was seen before. Read `prefix.rt` first, then `log_writer.rt` and `entrance.rt`, and then `node.rt`.
//!
//! Everything that has to belong to one node bears the node's name as a type parameter ([`Naming`]): a program makes an
//! [`Unnamed`], and calls a function that is generic in the name. What stands under the lock is in [`laws`].
#![tactic(auto)]

mod entrance;
mod entry;
mod faults;
mod growing;
mod half;
mod history;
pub mod laws;
mod log_writer;
mod node;
mod node_taker;
mod pass;
mod prefix;
mod reads;
mod seats;
mod unnamed;
mod version;

pub use chat_batch::AskFault;
pub use entrance::{Entrance, Visit};
pub use entry::LogEntry;
pub use faults::{NodeFault, PutFault};
pub use half::{Ending, Ends};
pub use history::{History, Naming};
pub use log_writer::LogWriter;
pub use node::{MOST_PASSES, SharedNode};
pub use node_taker::NodeTaker;
pub use pass::{Pass, Receipt};
pub use prefix::Prefix;
pub use unnamed::Unnamed;
