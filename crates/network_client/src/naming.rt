//! The network that a line names, and that a session is to be registered with.
ghost use Rattle.std.specs.Prelude.{◌≡◌};
ghost use Rattle.network_client.specs.Naming as spec;

use client_session::{Session, split_user, user_in};
use cluster_directory::SessionConfig;
use node_ports::{Accounts, Input};

// The place of the network that the line names, where it is one of these.
fn place_in(accounts: &Accounts, bytes: &[u8]) -> Option<usize>
    ensures { result ≡ spec.place_in accounts.now bytes.now }
{
    let Some(user) = user_in(bytes) else {
        return None;
    };
    let (account, network) = split_user(user);
    accounts.place_of(account, network)
}

/// The same of the line that was looked at, where there is one.
pub(crate) fn place_ahead(accounts: &Accounts, input: &Input) -> Option<usize>
    ensures { result ≡ spec.place_in_item accounts.now input.now.ahead }
{
    match input.line_ahead() {
        Some(bytes) => place_in(accounts, bytes),
        None => None,
    }
}

// Whether the user is that network of that account.
fn is_user(config: &SessionConfig, user: &[u8]) -> bool
    ensures { result ≡ spec.is_user config.now user.now }
{
    let (account, network) = split_user(user);
    account == config.account.as_bytes() && network == config.network.as_bytes()
}

// Whether a session is to be registered with that account and network once it has heard the line.
fn is_for(config: &SessionConfig, session: &Session, bytes: &[u8]) -> bool
    ensures { result ≡ spec.is_for config.now session.now bytes.now }
{
    match session.user_after(bytes) {
        Some(user) => is_user(config, user),
        None => false,
    }
}

/// The same of the line that was looked at, where there is one.
pub(crate) fn is_for_ahead(config: &SessionConfig, session: &Session, input: &Input) -> bool
    ensures { result ≡ spec.is_for_item config.now session.now input.now.ahead }
{
    match input.line_ahead() {
        Some(bytes) => is_for(config, session, bytes),
        None => false,
    }
}
