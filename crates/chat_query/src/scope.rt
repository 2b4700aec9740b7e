//! Who asks, and how much is answered at most.
ghost use Rattle.std.specs.Prelude.{◌≡◌, ◌&&◌, Some, None, if◌then◌else◌};
ghost use Rattle.chat_change.specs.Words.{is_name};

use chat_change::is_name;
use std::marker::Model;

/// The account and the network of a session, and how many records or buffers it gets at most for one query.
#[derive(Drop)]
pub struct Scope<'a> {
    account: &'a [u8],
    network: &'a [u8],
    maximum: usize,
}

impl<'a> Model for Scope<'a> {
    ghost use Rattle.std.specs.Prelude.{◌≡◌, true};
    ghost use Rattle.chat_change.specs.Words as words;
    ghost use Rattle.chat_query.specs.Scope as spec;

    ghost Value = { spec.Scope };

    ghost view = { λ s. record {
      account = s.account.now;
      network = s.network.now;
      maximum = s.maximum;
    } };

    ghost invariant = { λ s. (words.is_name s.account.now ≡ true) × (words.is_name s.network.now
        ≡ true) };
}

impl<'a> Scope<'a> {
    /// The scope of an account on a network. None unless both are names.
    pub fn new(account: &'a [u8], network: &'a [u8], maximum: usize) -> Option<Scope<'a>>
        ensures { result ≡ (if is_name account.now && is_name network.now
            then Some (record { account = account.now; network = network.now; maximum = maximum })
            else None) }
    {
        if is_name(account) && is_name(network) {
            Some(Scope {
                account,
                network,
                maximum,
            })
        } else {
            None
        }
    }

    /// The name of the account.
    pub fn account(&self) -> &'a [u8]
        ensures { result.now ≡ self.now.account }
    {
        self.account
    }

    /// The name of the network.
    pub fn network(&self) -> &'a [u8]
        ensures { result.now ≡ self.now.network }
    {
        self.network
    }

    /// The most records or buffers of an answer.
    pub fn maximum(&self) -> usize
        ensures { result ≡ self.now.maximum }
    {
        self.maximum
    }
}
