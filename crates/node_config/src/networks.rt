//! Reading the lists of accounts and networks.
ghost use Rattle.std.specs.Prelude.{◌≡◌, true, false, IfOk, OnOk};
ghost use Rattle.node_config.specs.Differing as spec;
ghost use Rattle.node_config.specs.Meaning.{IsAccountOf, IsNetworkOf};
ghost use Rattle.node_config.specs.Meaning.{AreAccountsOf, AreNetworksOf};
ghost use Rattle.node_config.specs.Sections.{table_of};

use crate::allowed::Allowed;
use crate::entries::{AccountConfig, NetworkConfig};
use crate::fault::{ListName, ValueFault};
use crate::section::{Section, entry_of, push};
use std::alloc::Global;

fn has_account(accounts: &[AccountConfig], name: &[u8]) -> bool
    ensures { result ≡ spec.has_account accounts.now name.now }
{
    accounts
        .iter()
        .any(|account| account.name.as_bytes() == name)
}

/// The accounts, no two of which have one name.
pub(crate) fn read_accounts(
    alloc: Global,
    top: Section<'_>,
) -> Result<Vec<AccountConfig>, ValueFault>
    ensures differ { IfOk result (λ accounts.
        spec.all_differ spec.same_account accounts.items ≡ true) }
    ensures values { IfOk result (λ accounts.
        AreAccountsOf (table_of top.entry) accounts.items) }
{
    let items = top.list(ListName::Accounts)?;
    let mut accounts = Vec::new(alloc);
    for item in items {
        let entry = entry_of(item, ListName::Accounts, accounts.len())?;
        let account = read_account(alloc, entry, accounts.as_slice())?;
        push(&mut accounts, account)?;
    }
    Ok(accounts)
}

// An account that isn't one of those before.
fn read_account(
    alloc: Global,
    entry: Section<'_>,
    before: &[AccountConfig],
) -> Result<AccountConfig, ValueFault>
    ensures new { IfOk result (λ account. spec.has_account before.now account.name ≡ false) }
    ensures values { IfOk result (λ account. IsAccountOf (table_of entry.entry) account) }
{
    let name = entry.name(alloc, "name")?;
    let secret = entry.any_text(alloc, "secret")?;
    // The borrow checker doesn't cover `?` at an `Option<Moment>`.
    let keep_from = match entry.time("keep_from") {
        Ok(time) => time,
        Err(fault) => return Err(fault),
    };
    if has_account(before, name.as_bytes()) {
        return Err(entry.wrong("name", Allowed::NewName));
    }
    Ok(AccountConfig {
        name,
        secret,
        keep_from,
    })
}

fn has_network(networks: &[NetworkConfig], account: &[u8], name: &[u8]) -> bool
    ensures { result ≡ spec.has_network networks.now account.now name.now }
{
    networks.iter().any(|network| network.account.as_bytes() == account
        && network.name.as_bytes() == name)
}

/// The networks, no two of which are one network of one account, each with its account among those given.
pub(crate) fn read_networks(
    alloc: Global,
    top: Section<'_>,
    accounts: &[AccountConfig],
) -> Result<Vec<NetworkConfig>, ValueFault>
    ensures differ { IfOk result (λ networks.
        spec.all_differ spec.same_network networks.items ≡ true) }
    ensures known { IfOk result (λ networks.
        spec.have_accounts accounts.now networks.items ≡ true) }
    ensures values { IfOk result (λ networks.
        AreNetworksOf (table_of top.entry) networks.items) }
{
    let items = top.list(ListName::Networks)?;
    let mut networks = Vec::new(alloc);
    for item in items {
        let entry = entry_of(item, ListName::Networks, networks.len())?;
        let network = read_network(alloc, entry, accounts, networks.as_slice())?;
        push(&mut networks, network)?;
    }
    Ok(networks)
}

// A network of one of the accounts that isn't one of those before.
fn read_network(
    alloc: Global,
    entry: Section<'_>,
    accounts: &[AccountConfig],
    before: &[NetworkConfig],
) -> Result<NetworkConfig, ValueFault>
    ensures known { IfOk result (λ n. spec.has_account accounts.now n.account ≡ true) }
    ensures new { IfOk result (λ n. spec.has_network before.now n.account n.name ≡ false) }
    ensures values { IfOk result (λ n. IsNetworkOf (table_of entry.entry) n) }
{
    let network = network_in(alloc, entry)?;
    check_network(entry, accounts, before, &network)?;
    Ok(network)
}

// The network that a table says.
fn network_in(alloc: Global, entry: Section<'_>) -> Result<NetworkConfig, ValueFault>
    ensures { IfOk result (λ n. IsNetworkOf (table_of entry.entry) n) }
{
    let account = entry.name(alloc, "account")?;
    let name = entry.name(alloc, "name")?;
    let address = entry.address("address")?;
    let nick = entry.target(alloc, "nick")?;
    let user = entry.target(alloc, "user")?;
    let channels = entry.channels(alloc, "channels")?;
    Ok(NetworkConfig {
        account,
        name,
        address,
        nick,
        user,
        channels,
    })
}

// Refuses a network of none of the accounts, and one that is among those before.
fn check_network(
    entry: Section<'_>,
    accounts: &[AccountConfig],
    before: &[NetworkConfig],
    network: &NetworkConfig,
) -> Result<(), ValueFault>
    ensures known { OnOk result (spec.has_account accounts.now network.now.account ≡ true) }
    ensures new { OnOk result
        (spec.has_network before.now network.now.account network.now.name ≡ false) }
{
    let account = network.account.as_bytes();
    if !has_account(accounts, account) {
        return Err(entry.wrong("account", Allowed::KnownAccount));
    }
    if has_network(before, account, network.name.as_bytes()) {
        return Err(entry.wrong("name", Allowed::NewName));
    }
    Ok(())
}
