//! A worker's way into the node that workers share.
//!
//! A [`WorkerPass`] answers and puts as `node_ports::NodePass` asks: each put is listed in the [`WorkerView`] of the network for which it
//! is made, and what the view has seen only grows. What the node holds, and what was put, is said by the node's own values alone
//! ([`Witness`]). The gate is asked before each answer. Behind its calls a [`WorkPass`] says what its worker has to do: tell the peers
//! what is new, publish what waits, and tell clients of read markers that a peer brought. Read [`WorkerPass`] first.
#![tactic(auto)]

mod gate;
mod marked;
mod pass;
mod publisher;
mod put_list;
mod view;
mod witness;
mod work_pass;

pub use gate::Gate;
pub use pass::WorkerPass;
pub use put_list::PutList;
pub use view::WorkerView;
pub use witness::Witness;
pub use work_pass::WorkPass;
