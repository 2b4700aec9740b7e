//! The keys of a configuration.

use crate::allowed::Allowed;
use crate::fault::{ConfigPlace, ListName, Wrong};
use toml::{Table, Value};

/// The keys of a table: those that it must have, and those that it may have besides.
#[derive(Clone, Copy)]
pub(crate) struct Keys {
    pub wanted: &'static [&'static str],
    pub allowed: &'static [&'static str],
}

const TOP: Keys = Keys {
    wanted: &[
        "name",
        "node",
        "listen",
        "peer_listen",
        "peer_word",
        "workers",
        "places",
        "bound",
        "retain_days",
    ],
    allowed: &["maximum", "peer", "account", "network"],
};

const KEEPER: Keys = Keys {
    wanted: &["node", "peer_word", "file"],
    allowed: &["peer"],
};

const PEER: Keys = Keys {
    wanted: &["name", "address"],
    allowed: &["version"],
};

const ACCOUNT: Keys = Keys {
    wanted: &["name", "secret"],
    allowed: &["keep_from"],
};

const NETWORK: Keys = Keys {
    wanted: &["account", "name", "address", "nick", "user", "channels"],
    allowed: &[],
};

/// The keys of a table.
pub(crate) fn keys_of(place: ConfigPlace) -> Keys {
    match place {
        ConfigPlace::Top => TOP,
        ConfigPlace::Keeper => KEEPER,
        ConfigPlace::Entry(ListName::Peers, _) => PEER,
        ConfigPlace::Entry(ListName::Accounts, _) => ACCOUNT,
        ConfigPlace::Entry(ListName::Networks, _) => NETWORK,
    }
}

fn is_among(words: &[&str], text: &str) -> bool {
    words.iter().any(|word| *word == text)
}

/// Refuses a table that lacks a key, or has one that isn't known.
fn check_table(table: &Table, place: ConfigPlace) -> Result<(), Wrong> {
    let keys = keys_of(place);
    for key in keys.wanted {
        if table.get(*key).is_none() {
            return Err(Wrong {
                place,
                key: Some(*key),
                allowed: Allowed::Present,
            });
        }
    }
    for key in table.keys() {
        let text = key.as_str();
        if !is_among(keys.wanted, text) && !is_among(keys.allowed, text) {
            return Err(Wrong {
                place,
                key: None,
                allowed: Allowed::KnownKeys,
            });
        }
    }
    Ok(())
}

// What is no list of tables has no wrong key: it is a wrong value.
fn check_list(table: &Table, list: ListName) -> Result<(), Wrong> {
    let Some(Value::Array(items)) = table.get(list.as_str()) else {
        return Ok(());
    };
    for (i, item) in items.iter().enumerate() {
        if let Value::Table(entry) = item {
            check_table(entry, ConfigPlace::Entry(list, i.saturating_add(1)))?;
        }
    }
    Ok(())
}

/// Refuses a configuration one of whose tables lacks a key, or has one that isn't known.
pub(crate) fn check_keys(table: &Table) -> Result<(), Wrong> {
    check_table(table, ConfigPlace::Top)?;
    check_list(table, ListName::Peers)?;
    check_list(table, ListName::Accounts)?;
    check_list(table, ListName::Networks)
}

/// The same of a keeper's configuration.
pub(crate) fn check_keeper_keys(table: &Table) -> Result<(), Wrong> {
    check_table(table, ConfigPlace::Keeper)?;
    check_list(table, ListName::Peers)
}
