//! How the session with the server of a network is configured.
ghost use Rattle.std.specs.Prelude.{◌≡◌, List, ℕ};

use byte_text::Text;
use std::marker::Model;

/// Names of channels, in their order. Contracts see them as their list.
#[derive(Drop)]
pub struct Channels {
    names: Vec<Text>,
}

impl Model for Channels {
    ghost Value = { List (List ℕ) };

    ghost view = { λ c. c.names.items };
}

impl Channels {
    /// These channels, without a copy.
    pub fn of(names: Vec<Text>) -> Channels
        ensures { result ≡ names.items }
    {
        Channels { names }
    }

    /// The names, lent.
    pub fn names(&self) -> &[Text]
        ensures { result.now ≡ self.now }
    {
        &self.names
    }
}

/// Whose session it is, with which network, and under which names. Where the account or the network is no name, nothing is
/// kept, and all messages are passed on as they are.
#[derive(Drop)]
pub struct SessionConfig {
    /// The name of the account: 1 to 32 bytes of `a-z`, `0-9`, `-` and `_`.
    pub account: Text,
    /// The name of the network, of the same form.
    pub network: Text,
    /// The nick that the session asks for (RFC 2812, section 3.1.2).
    pub nick: Text,
    /// The user name, which is the real name too (RFC 2812, section 3.1.3).
    pub user: Text,
    /// The channels that it joins as soon as the network is up.
    pub channels: Channels,
}
