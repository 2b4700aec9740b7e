//! What is made before a node runs.
ghost use Rattle.std.specs.Prelude.{◌≡◌, IfOk};
ghost use Rattle.node_intake.specs.Floors.{floors_of as spec_floors_of};
ghost use Rattle.node_intake.specs.Settings.{AreSettings};

use crate::floors::floors_of;
use crate::intake::Intake;
use crate::listeners::Listeners;
use crate::places::ClientPlaces;
use crate::queue::Queue;
use crate::settings::settings_of;
use crate::workers::Workers;
use bnc_sockets::{Dialer, NetDialer, PortSetup, monotonic_ms, now_ms};
use bnc_work::{NodeSettings, WaitingClients};
use chat_change::Change;
use node_config::Config;
use node_events::{Event, ServeFault};
use operator_log::Log;
use std::net::Net;
use std::sync::Wait;
use std::time::Clock;

/// What is made before a node runs.
#[derive(Drop)]
pub struct Prepared<D: Dialer> {
    /// Where connections come in.
    pub intake: Intake,
    /// What each worker's port begins with, in their order.
    pub setups: Vec<PortSetup<D>>,
    /// What never changes of the node.
    pub settings: NodeSettings,
    /// Which clients wait to be registered.
    pub waiting: WaitingClients,
    /// The floors of accounts that are put before the workers begin.
    pub floors: Vec<Change>,
}

/// Listens at the addresses of the configuration, and makes what its workers begin with. The node's incarnation is the clock's
/// milliseconds.
pub fn prepare<R: Net + Wait + Clock + AllocGlobal + Copy + Drop>(
    rt: &R,
    log: &Log,
    config: &Config,
) -> Result<Prepared<NetDialer<R>>, ServeFault>
    ensures settings { IfOk result (λ made. ∥ AreSettings config.now made.settings ∥₁) }
    ensures floors { IfOk result (λ made. made.floors.items
        ≡ spec_floors_of config.now.accounts.items) }
{
    let listeners = Listeners::open(rt, log, config.listen, config.peer_listen)?;
    let prepared = prepared_with(rt, log, config, listeners)?;
    tell_retention(rt, log, config.limits.retain_days);
    Ok(prepared)
}

// The same, for those who connect at these listeners.
fn prepared_with<R: Net + Wait + Clock + AllocGlobal + Copy + Drop>(
    rt: &R,
    log: &Log,
    config: &Config,
    listeners: Listeners,
) -> Result<Prepared<NetDialer<R>>, ServeFault>
    ensures settings { IfOk result (λ made. ∥ AreSettings config.now made.settings ∥₁) }
    ensures floors { IfOk result (λ made. made.floors.items
        ≡ spec_floors_of config.now.accounts.items) }
{
    let alloc = rt.alloc();
    let Some(incarnation) = now_ms(rt) else {
        return Err(ServeFault::NoClock);
    };
    let queue = Queue::new(alloc, log, monotonic_ms(rt).unwrap_or(0))?;
    let places = ClientPlaces::new(alloc, config.limits.places)?;
    let waiting = places.share_waiting()?;
    let floors = floors_of(alloc, &config.accounts)?;
    let settings = settings_of(alloc, config, incarnation)?;
    let Workers { setups, intakes } = Workers::new(rt, log, config, NetDialer { rt: *rt })?;
    Ok(Prepared {
        intake: Intake::new(listeners, queue, places, intakes, config.limits.bound),
        setups,
        settings,
        waiting,
        floors,
    })
}

// Tells the operator for how many days messages are kept, where that isn't for ever.
fn tell_retention<R: Wait + Clock>(rt: &R, log: &Log, days: u32) {
    if days > 0 {
        log.report(rt, &Event::Retention { days });
    }
}
