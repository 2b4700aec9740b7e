//! Of whom an answer speaks, and what it was.
ghost use Rattle.std.specs.Prelude.{◌≡◌, IfOk, true};
ghost use Rattle.chat_change.specs.Buffer.{buffer_of};
ghost use Rattle.chat_query.specs.Buffers as spec;

use byte_text::{NoMemory, Text};
use chat_change::{Buffer, has_buffer, lawful_buffer};
use irc_caps::CapSet;
use std::alloc::Global;

/// Who a session is: its account, its network, and its nick there.
#[derive(Clone, Copy)]
pub struct Identity<'a> {
    /// The name of the account.
    pub account: &'a [u8],
    /// The name of the network.
    pub network: &'a [u8],
    /// The nick of the session.
    pub nick: &'a [u8],
}

/// What is known of a session that asks.
#[derive(Drop)]
pub struct Facts {
    /// The name of the account: 1 to 32 bytes of `a-z`, `0-9`, `-` and `_`.
    pub account: Text,
    /// The name of the network, of the same form.
    pub network: Text,
    /// The nick of the session.
    pub nick: Text,
    /// The capabilities that the session holds.
    pub caps: CapSet,
    /// The number of the next batch.
    pub reference: u32,
    /// The name of the cluster, which is the source of its own lines.
    pub cluster: Text,
    /// The most records or buffers of an answer.
    pub maximum: u32,
}

impl Facts {
    /// The facts of a session that has asked nothing yet: its next batch is the first.
    pub fn new(
        alloc: Global,
        identity: Identity<'_>,
        caps: CapSet,
        cluster: &[u8],
        maximum: u32,
    ) -> Result<Facts, NoMemory>
        ensures { IfOk result (λ facts. facts ≡ record {
          account = identity.entry.account.now;
          network = identity.entry.network.now;
          nick = identity.entry.nick.now;
          caps = caps;
          reference = 1;
          cluster = cluster.now;
          maximum = maximum;
        }) }
    {
        Ok(Facts {
            account: Text::new(alloc, identity.account)?,
            network: Text::new(alloc, identity.network)?,
            nick: Text::new(alloc, identity.nick)?,
            caps,
            reference: 1,
            cluster: Text::new(alloc, cluster)?,
            maximum,
        })
    }

    /// Whether a target has a buffer of the session.
    pub fn has_buffer(&self, target: &[u8]) -> bool
        ensures { result ≡ spec.has_buffer self.now target.now }
    {
        has_buffer(self.account.as_bytes(), self.network.as_bytes(), target)
    }

    /// The buffer of a target that [has one](Facts::has_buffer). It fails for want of memory alone.
    pub fn buffer(&self, alloc: Global, target: &[u8]) -> Result<Buffer, NoMemory>
        requires { spec.has_buffer self.now target.now ≡ true }
        ensures { IfOk result (λ buffer. buffer
            ≡ buffer_of self.now.account self.now.network target.now) }
    {
        let (account, network) = (self.account.as_bytes(), self.network.as_bytes());
        let buffer = lawful_buffer(alloc, account, network, target)?;
        Ok(buffer)
    }
}

/// What an answer was.
#[derive(Clone, Copy, PartialEq, Eq)]
pub enum Answered {
    /// It opened a batch, which used up a reference.
    Batch,
    /// It opened none.
    Plain,
    /// Nothing was written: the line is of another command than CHATHISTORY and MARKREAD.
    NotAQuery,
}
