//! How a session with a network's server begins.
ghost use Rattle.std.specs.Prelude.{◌≡◌, ◌≤◌, IfOk, false};
ghost use Rattle.upstream_session.specs.Session.{start};
ghost use Rattle.upstream_session.specs.Step.{new};
ghost use Rattle.network_log.specs.Host.{sends_of};
ghost use Rattle.network_server.specs.declared.opening.TheConstants.{MOST_OWED};

use crate::dialogue::ServerDialogue;
use byte_text::{NoMemory, Text, copies_of};
use cluster_directory::{Channels, Life, SessionConfig};
use std::alloc::Global;
use upstream_session::Upstream;

/// The most bytes that are owed to a server, beside the JOINs of all its channels.
const MOST_OWED: usize = 1_048_576;

/// The bytes of a JOIN beside the channel's name (RFC 2812, section 3.2.1).
const JOIN: usize = b"JOIN \r\n".len();

/// What never changes of a network: its place among those of the node, how it is configured, and the node's own life.
#[derive(Clone, Copy)]
pub struct Site<'a> {
    pub place: usize,
    pub config: &'a SessionConfig,
    pub me: &'a Life,
}

/// How many bytes may be owed to a server whose session joins these channels: as many beside the JOINs, which all come at once.
pub(crate) fn bound_for(channels: &[Text]) -> usize
    ensures { MOST_OWED ≤ result }
{
    let mut bound = MOST_OWED;
    for channel in channels {
        bound = bound
            .saturating_add(JOIN)
            .saturating_add(channel.as_bytes().len());
    }
    bound
}

// An equal configuration.
fn copy_of(alloc: Global, config: &SessionConfig) -> Result<SessionConfig, NoMemory>
    ensures { IfOk result (λ copy. copy ≡ config.now) }
{
    let account = config.account.try_clone(alloc)?;
    let network = config.network.try_clone(alloc)?;
    let nick = config.nick.try_clone(alloc)?;
    let user = config.user.try_clone(alloc)?;
    let channels = Channels::of(copies_of(alloc, config.channels.names())?);
    Ok(SessionConfig {
        account,
        network,
        nick,
        user,
        channels,
    })
}

/// A session that begins, from that serial number on, with what it begins with.
pub(crate) fn begin(alloc: Global, site: &Site<'_>, first: u64) -> Result<ServerDialogue, NoMemory>
    ensures session { IfOk result (λ d. d.session.connection ≡ new site.now.config.now
        site.now.me.now.node site.now.me.now.incarnation first) }
    ensures output { IfOk result (λ d. d.output ≡ sends_of (start (new site.now.config.now
        site.now.me.now.node site.now.me.now.incarnation first))) }
    ensures over { IfOk result (λ d. d.is_over ≡ false) }
{
    let config = copy_of(alloc, site.config)?;
    let node = Text::new(alloc, site.me.node().as_bytes())?;
    let session = Upstream::new(alloc, config, node, site.me.incarnation(), first);
    let opening = session.start(alloc)?;
    ServerDialogue::new(alloc, session, &opening)
}
