//! The operator's log, which any thread hands lines in to, and one thread writes.
ghost use Rattle.std.specs.Prelude.{◌≤◌, vec_capacity};
ghost use Rattle.operator_log.specs.declared.log_queue.TheConstants.{ROOM};

use crate::log_queue::{LogQueue, room};
use bstr::BStr;
use irc_time::{Moment, write_time};
use node_events::{Event, StartFault};
use std::alloc::{AllocError, Global};
use std::io::{Eprint, Write};
use std::sync::{Arc, Condvar, Mutex, Wait};
use std::thread::Threads;
use std::time::{Clock, Duration};
use std::{fmt, thread};

// So often at most a program that ends looks whether its log is written.
const LOOKS: u64 = 500;

// So many milliseconds lie between two looks.
const PAUSE: u64 = 10;

// So many bytes a line has at most, for which no memory is taken.
const LINE: usize = 4096;

// What is to be written, and how far that has come.
#[derive(Drop)]
struct QueueState {
    queue: LogQueue,
    // The room for a line.
    line: Vec<u8>,
    // Whether the program ends.
    is_ending: bool,
    // Whether all that waited as it ended is written.
    is_written: bool,
}

impl QueueState {
    // A line waits to be written.
    fn push<E: fmt::Display + Copy>(&mut self, event: &TimedEvent<'_, E>) {
        self.line.clear();
        match write!(self.line, "{event}\n") {
            Ok(()) => self.queue.push(self.line.as_slice()),
            Err(_) => self.queue.lose(),
        }
    }
}

#[derive(Drop)]
struct SharedQueue {
    state: Mutex<QueueState>,
    // Told of each change of the state.
    changed: Condvar,
}

/// The operator's log: one line for each event, on standard error. Lines wait in memory for the one thread that writes them, so
/// who hands one in never waits for whoever reads the log. What doesn't fit is lost, and how many lines that were is told.
#[derive(Drop)]
pub struct Log {
    shared: Arc<SharedQueue>,
}

// Where the lines of a log are written.
#[derive(Drop)]
struct LinesWriter {
    shared: Arc<SharedQueue>,
    // The lines that are written.
    lines: Vec<u8>,
    ghost roomy: { ROOM ≤ vec_capacity lines },
}

// An event with its time, which is lent: the borrow checker copies no event out of a reference.
#[derive(Clone, Copy)]
struct TimedEvent<'b, E> {
    moment: Option<Moment>,
    event: &'b E,
}

impl<'b, E: fmt::Display + Copy> fmt::Display for TimedEvent<'b, E> {
    fn fmt<W: fmt::Write>(&self, f: &mut fmt::Formatter<W>) -> fmt::Result {
        if let Some(moment) = self.moment {
            let time = write_time(moment);
            write!(f, "{} ", BStr::new(&time))?;
        }
        write!(f, "{}", self.event)
    }
}

// The time, where the clock has one that a line can have.
fn moment_now<R: Clock>(rt: &R) -> Option<Moment> {
    let now = rt.since_1970().ok()?;
    let ms = u64::try_from(now.as_millis()).ok()?;
    Moment::from_ms(ms)
}

// An empty log, and where its lines are written.
fn new_log(alloc: Global) -> Result<(Log, LinesWriter), AllocError> {
    let state = QueueState {
        queue: LogQueue::new(alloc)?,
        line: Vec::with_capacity(alloc, LINE)?,
        is_ending: false,
        is_written: false,
    };
    let shared = SharedQueue {
        state: Mutex::new(state),
        changed: Condvar::new(),
    };
    let log = Log {
        shared: Arc::new(alloc, shared)?,
    };
    let writer = LinesWriter {
        shared: Arc::try_clone(&log.shared)?,
        lines: room(alloc)?,
    };
    Ok((log, writer))
}

impl Log {
    /// Begins a log, which a thread of its own writes. While the program runs no other thread writes to standard error.
    pub fn begin<R>(rt: &R) -> Result<Log, StartFault>
    where
        R: Threads + Wait + Clock + Eprint + AllocGlobal + Copy + Send + Drop + 'static,
    {
        let (log, writer) = new_log(rt.alloc())?;
        let handle = *rt;
        let run = move || {
            let mut writer = writer;
            writer.run(&handle);
        };
        match thread::spawn(rt, run) {
            Ok(_) => Ok(log),
            Err(_) => Err(StartFault::NoThread),
        }
    }

    /// The same, for another thread.
    pub fn try_clone(&self) -> Result<Log, AllocError> {
        Ok(Log {
            shared: Arc::try_clone(&self.shared)?,
        })
    }

    /// Tells the operator of an event, by a line with its time. It waits for no reader of the log, and takes no memory.
    pub fn report<R: Wait + Clock, E: fmt::Display + Copy>(&self, rt: &R, event: &E) {
        let event = TimedEvent {
            moment: moment_now(rt),
            event,
        };
        self.shared.state.lock(rt).push(&event);
        self.shared.changed.notify_all();
    }

    /// The program ends: waits until all that was handed in is written, for five seconds at most. False where it isn't by then, since
    /// nobody reads the log.
    pub fn end<R: Wait + Clock>(&self, rt: &R) -> bool {
        self.shared.state.lock(rt).is_ending = true;
        self.shared.changed.notify_all();
        // (a wait with a clock would end at once on a machine that has none)
        for _ in 0..LOOKS {
            if self.shared.state.lock(rt).is_written {
                return true;
            }
            thread::sleep(rt, Duration::from_millis(PAUSE));
        }
        false
    }
}

impl LinesWriter {
    // Writes the lines as they come, until all are written that wait as the program ends.
    fn run<R: Wait + Clock + Eprint>(&mut self, rt: &R) {
        for _ in rt.forever() {
            match self.next(rt) {
                Some(lost) => self.write(rt, lost),
                None => break,
            }
        }
        self.shared.state.lock(rt).is_written = true;
        self.shared.changed.notify_all();
    }

    // Waits for lines that are to be written, and answers how many were lost behind them. None where the program ends and all is
    // written.
    fn next<R: Wait>(&mut self, rt: &R) -> Option<u64> {
        let state = self.shared.state.lock(rt);
        let mut state = self.shared.changed.wait_while(
            rt,
            state,
            |state| state.queue.is_empty() && !state.is_ending,
        );
        if state.queue.is_empty() {
            return None;
        }
        self.lines.clear();
        Some(state.queue.swap(&mut self.lines))
    }

    // Writes the lines, each by itself, and how many were lost behind them. A line that the system doesn't take is lost: there is
    // nowhere else to say so.
    fn write<R: Clock + Eprint>(&self, rt: &R, lost: u64) {
        for line in self.lines.split_inclusive(|byte| *byte == b'\n') {
            let _ = rt.eprint(BStr::new(line));
        }
        if lost > 0 {
            let event = TimedEvent {
                moment: moment_now(rt),
                event: &Event::LinesLost { count: lost },
            };
            let _ = rt.eprintln(event);
        }
    }
}
