//! How the session with the server of a network stands.
ghost use Rattle.std.specs.Prelude.{◌≡◌, IfOk, OnErr};
ghost use Rattle.std.specs.List.{list_any};
ghost use Rattle.cluster_directory.specs.Entry as spec;

use byte_text::{NoMemory, Text, copies_of};
use std::alloc::{AllocError, Global};
use std::marker::Model;

/// How the session with the server of a network stands.
#[derive(Drop)]
pub struct Entry {
    is_up: bool,
    nick: Text,
    channels: Vec<Text>,
    takes_redact: bool,
}

impl Model for Entry {
    ghost use Rattle.cluster_directory.specs.Entry as spec;

    ghost Value = { spec.Entry };

    ghost view = { λ e. record {
      is_up = e.is_up;
      nick = e.nick;
      channels = e.channels.items;
      takes_redact = e.takes_redact;
    } };
}

fn is_same_channel(channel: &[u8], other: &[u8]) -> bool
    ensures { result ≡ spec.is_same_channel channel.now other.now }
{
    other.eq_ignore_ascii_case(channel)
}

fn has_channel(channels: &[Text], channel: &[u8]) -> bool
    ensures { result ≡ list_any (spec.is_same_channel channel.now) channels.now }
{
    channels
        .iter()
        .any(|other| is_same_channel(channel, other.as_bytes()))
}

impl Entry {
    /// Whether the network is up, the present nick there, the channels that it is in, in the order in which they were
    /// joined, and whether its server has `draft/message-redaction` (IRCv3 draft/message-redaction).
    pub fn new(is_up: bool, nick: Text, channels: Vec<Text>, takes_redact: bool) -> Entry
        ensures { result ≡ record {
          is_up = is_up;
          nick = nick;
          channels = channels.items;
          takes_redact = takes_redact;
        } }
    {
        Entry {
            is_up,
            nick,
            channels,
            takes_redact,
        }
    }

    /// Whether the network is up: its server has welcomed the session.
    pub fn is_up(&self) -> bool
        ensures { result ≡ self.now.is_up }
    {
        self.is_up
    }

    /// The present nick.
    pub fn nick(&self) -> &[u8]
        ensures { result.now ≡ self.now.nick }
    {
        self.nick.as_bytes()
    }

    /// The channels that the session is in.
    pub fn channels(&self) -> &[Text]
        ensures { result.now ≡ self.now.channels }
    {
        &self.channels
    }

    /// Whether the server has `draft/message-redaction`.
    pub fn takes_redact(&self) -> bool
        ensures { result ≡ self.now.takes_redact }
    {
        self.takes_redact
    }

    /// The network goes up, or down.
    pub fn set_up(&mut self, is_up: bool)
        ensures { self.new ≡ record self.old { is_up = is_up } }
    {
        self.is_up = is_up;
    }

    /// The nick is another one.
    pub fn set_nick(&mut self, nick: Text)
        ensures { self.new ≡ record self.old { nick = nick } }
    {
        self.nick = nick;
    }

    /// The server has `draft/message-redaction`, or hasn't.
    pub fn set_takes_redact(&mut self, takes_redact: bool)
        ensures { self.new ≡ record self.old { takes_redact = takes_redact } }
    {
        self.takes_redact = takes_redact;
    }

    /// The session has joined the channel (RFC 2812, section 3.2.1), which stands last, unless it was in it. Channels are
    /// compared without regard to the case of `A` to `Z`. For want of memory nothing changes.
    pub fn join(&mut self, channel: Text) -> Result<(), NoMemory>
        ensures joined { IfOk result (λ _. self.new ≡ spec.after_join self.old channel) }
        ensures err { OnErr result (self.new ≡ self.old) }
    {
        if has_channel(&self.channels, channel.as_bytes()) {
            return Ok(());
        }
        match self.channels.push(channel) {
            Ok(()) => Ok(()),
            Err(_) => Err(NoMemory),
        }
    }

    /// The session has left the channel (RFC 2812, sections 3.2.2 and 3.2.8).
    pub fn part(&mut self, channel: &[u8])
        ensures { self.new ≡ spec.after_part self.old channel.now }
    {
        self.channels
            .retain(|other| !is_same_channel(channel, other.as_bytes()));
    }

    /// An equal entry.
    pub fn try_clone(&self, alloc: Global) -> Result<Entry, NoMemory>
        ensures { IfOk result (λ copy. copy ≡ self.now) }
    {
        let nick = self.nick.try_clone(alloc)?;
        let channels = copies_of(alloc, &self.channels)?;
        Ok(Entry {
            is_up: self.is_up,
            nick,
            channels,
            takes_redact: self.takes_redact,
        })
    }
}
