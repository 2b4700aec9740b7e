//! What has to be shown in one process. What the passes of a shared node see of one another's changes: in one thread, also
//! where memory is refused, and with puts beside asks in two threads and in four (`shared_node`). Places and clients at their
//! stands (`attach`), further kinds of clients and halls (`attach`). A file that one process alone opens (`real_file`). And calls
//! that no program makes: tags as a list, and a record with tags.
//!
//! The contracts of these crates say what most calls do. Here is what no clause promises: that there is memory at the greatest
//! sizes, that a pass is let in, that the lowest free place is given, also after it was freed in another thread, and what
//! stands where memory was refused. What the built program shows from outside is tested there. Read `rows` first, the table of
//! what is played on nodes, and `limits`; `play` plays a row.
//!
//! `tests/suites/calls.py` refuses each request for memory of the short rows, of `memory` and of `tags` in turn: a put that is
//! refused is looked at, and the rest is put; a stand or a box that is handed back still has its place.
#![tactic(auto)]

#[cfg(test)]
mod asks;
#[cfg(test)]
mod changes;
#[cfg(test)]
mod clients;
#[cfg(test)]
mod fault;
#[cfg(test)]
mod files;
#[cfg(test)]
mod growth;
#[cfg(test)]
mod limits;
#[cfg(test)]
mod memory;
#[cfg(test)]
mod places;
#[cfg(test)]
mod play;
#[cfg(test)]
mod rows;
#[cfg(test)]
mod steps;
#[cfg(test)]
mod tags;
#[cfg(test)]
mod threads;
