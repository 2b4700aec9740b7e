//! Which buffers are sought: those of which certain records are held.

ghost use Rattle.std.specs.Prelude.{◌≡◌, IsTrue, true, false};
ghost use Rattle.chat_history.specs.Buffers.{is_of_network};
ghost use Rattle.chat_buffers.specs.Ahead as ahead;
ghost use Rattle.chat_buffers.specs.declared.sought.Sought.TheVariants.{Outdated};

use crate::messages::Messages;
use chat_change::{Buffer, Moment};
use std::cmp::Ordering;

/// Which records are sought.
#[derive(Clone, Copy)]
pub enum Sought<'s> {
    /// Those older than a moment.
    Outdated(Moment),
    /// Those of an account on a network that are not older than a moment.
    OfNetwork {
        account: &'s [u8],
        network: &'s [u8],
        since: Moment,
    },
}

/// Of the buffers that a walk passes over by their moments, it looks at the names of one in so many.
const PASSED_PER_LOOK: u32 = 16;

fn is_of_network(account: &[u8], network: &[u8], buffer: &Buffer) -> bool
    ensures { result ≡ is_of_network account.now network.now buffer.now }
{
    buffer.account() == account && buffer.network() == network
}

// Whether a kept record is older than a moment. The first one tells.
fn is_any_before(at: Moment, messages: &Messages) -> bool
    ensures some { IsTrue result → ahead.HasSought (Outdated at) messages.now }
    ensures none { result ≡ false → ahead.HasNoneSought (Outdated at) messages.now }
{
    match messages.first() {
        Some(post) => post.at().ms() < at.ms(),
        None => false,
    }
}

// Whether a kept record is not older than a moment. The latest one tells.
fn is_any_since(at: Moment, messages: &Messages) -> bool
    ensures some { IsTrue result → ahead.HasSince at messages.now }
    ensures none { result ≡ false → ahead.HasNoneSince at messages.now }
{
    match messages.latest() {
        Some(latest) => at.ms() <= latest.ms(),
        None => false,
    }
}

impl Sought<'_> {
    // Whether a record of a buffer is sought: its oldest, or its latest, as all are of that buffer. The moment comes before
    // the names, since it lies at hand.
    pub(crate) fn is_any_sought(&self, buffer: &Buffer, messages: &Messages) -> bool
        requires of { ahead.AreOf buffer.now messages.now }
        ensures some { IsTrue result → ahead.HasSought self.now messages.now }
        ensures none { result ≡ false → ahead.HasNoneSought self.now messages.now }
    {
        match self {
            Sought::Outdated(at) => is_any_before(*at, messages),
            Sought::OfNetwork {
                account,
                network,
                since,
            } => is_any_since(*since, messages) && is_of_network(account, network, buffer),
        }
    }

    // Whether a buffer and all that come after it are of a later account or network than the one that is sought.
    fn is_behind(&self, buffer: &Buffer) -> bool
        ensures { result ≡ ahead.is_behind self.now buffer.now }
    {
        match self {
            Sought::Outdated(_) => false,
            Sought::OfNetwork {
                account,
                network,
                ..
            } => match buffer.account().cmp(account) {
                Ordering::Less => false,
                Ordering::Equal => buffer.network().cmp(network).is_gt(),
                Ordering::Greater => true,
            },
        }
    }

    // Whether a walk that has passed over so many buffers ends at this one, which isn't sought. Its names are looked at
    // where its moment would do, and of the others only now and then.
    pub(crate) fn is_end(&self, buffer: &Buffer, messages: &Messages, passed: u32) -> bool
        ensures { IsTrue result → ahead.is_behind self.now buffer.now ≡ true }
    {
        let looks = match self {
            Sought::Outdated(_) => false,
            Sought::OfNetwork { since, .. } => {
                passed % PASSED_PER_LOOK == 0 || is_any_since(*since, messages)
            }
        };
        looks && self.is_behind(buffer)
    }
}
