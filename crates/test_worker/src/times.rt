//! What time it is at a port of memory.
use network_client::PortFault;
use node_events::Clocks;

/// What the monotonic clock reads at first, in milliseconds.
const UPTIME: u64 = 500_000;

/// What the clocks read, and how far they have still to go.
#[derive(Clone, Copy)]
pub struct Times {
    clocks: Clocks,
    // so many milliseconds of an act are still to pass
    to_pass: u64,
    is_stopped: bool,
}

impl Times {
    /// The wall clock reads so much at first.
    pub fn new(wall: u64) -> Times {
        Times {
            clocks: Clocks {
                wall,
                monotonic: UPTIME,
            },
            to_pass: 0,
            is_stopped: false,
        }
    }

    /// So many milliseconds are to pass.
    pub fn wait(&mut self, time: u64) {
        self.to_pass = time;
    }

    /// Lets pass what is still to pass, by both clocks, or so many milliseconds where that is more. Whether any did.
    pub fn pass(&mut self, patience: u64) -> bool {
        let time = self.to_pass.min(patience);
        let Clocks { wall, monotonic } = self.clocks;
        self.to_pass = self.to_pass.saturating_sub(time);
        self.clocks = Clocks {
            wall: wall.saturating_add(time),
            monotonic: monotonic.saturating_add(time),
        };
        time != 0
    }

    /// The wall clock is set ahead by so many milliseconds.
    pub fn set_ahead(&mut self, time: u64) {
        self.clocks.wall = self.clocks.wall.saturating_add(time);
    }

    /// The wall clock is set back by so many milliseconds.
    pub fn set_back(&mut self, time: u64) {
        self.clocks.wall = self.clocks.wall.saturating_sub(time);
    }

    /// The clocks can't be read any more.
    pub fn stop(&mut self) {
        self.is_stopped = true;
    }

    /// What the clocks read.
    pub fn read(&self) -> Result<Clocks, PortFault> {
        if self.is_stopped {
            Err(PortFault)
        } else {
            Ok(self.clocks)
        }
    }
}
