//! What the clocks of a node read.
use chat_change::Moment;
use network_client::Port;
use node_ports::Connection;
use std::marker::PhantomData;

/// What the clocks of the node read.
pub(crate) struct ReadTime<C: Connection> {
    /// The moment, by the wall clock.
    pub(crate) moment: Moment,
    /// Milliseconds, by the monotonic clock: what is due is due by it.
    pub(crate) now: u64,
    pub(crate) of: PhantomData<C>,
    pub(crate) ghost it_was_read: { ∥ C.facts.clock moment ∥₁ },
}

// Written out, so that this is proved once, and not in each function that lets it go.
impl<C: Connection> Drop for ReadTime<C> {
    fn drop(self) {
        let Self {
            moment: _,
            now: _,
            of: _,
        } = self;
    }
}

/// The port's clocks. None where they aren't read, or the wall clock lies beyond the moments that there are.
pub(crate) fn read_time<C: Connection, P: Port<Connection = C>>(
    port: &mut P,
) -> Option<ReadTime<C>> {
    let Ok(clocks) = port.clocks() else {
        return None;
    };
    let Some(moment) = Moment::from_ms(clocks.wall) else {
        return None;
    };
    Some(ReadTime {
        moment,
        now: clocks.monotonic,
        of: PhantomData,
    })
}
