//! The first line of the operator's log.
use crate::version::{LOGIC, PROGRAM};
use node_events::Event;
use operator_log::Log;
use std::sync::Wait;
use std::time::Clock;

/// Tells the operator which program begins.
pub(crate) fn tell_version<R: Wait + Clock>(rt: &R, log: &Log) {
    let event = Event::Starting {
        program: PROGRAM,
        logic: LOGIC,
    };
    log.report(rt, &event);
}
