//! Values of one table.
ghost use Rattle.std.specs.Prelude.{◌≡◌, ◌≤◌, [], ◌∷◌, ◌++◌, true, IfOk, IfSome};
ghost use Rattle.std.specs.List.{list_all};
ghost use Rattle.chat_change.specs.Words.{is_name, is_target};
ghost use Rattle.toml.specs.Data.{string, table};
ghost use Rattle.toml.specs.View.{view, items_view};
ghost use Rattle.node_config.specs.Names as spec;
ghost use Rattle.node_config.specs.Values.{HasText, HasNumber, HasAddress, HasTexts};
ghost use Rattle.node_config.specs.Values.{HasNumberOr, HasTime, HasVersion, HasItems};
ghost use Rattle.node_config.specs.Sections.{table_of, key_of};

use crate::allowed::Allowed;
use crate::fault::{ConfigPlace, ListName, ValueFault, Wrong};
use crate::names::is_cluster_name;
use byte_text::Text;
use cluster_directory::{LinkFault, NodeName, SharedWord, Version};
use irc_time::{Moment, read_time};
use std::alloc::Global;
use std::net::SocketAddr;
use toml::{Table, Value};

/// A table of the text, and where it stands.
#[derive(Clone, Copy)]
pub(crate) struct Section<'a> {
    pub table: &'a Table,
    pub place: ConfigPlace,
}

impl<'a> Section<'a> {
    /// That the value at a key isn't what is allowed.
    pub fn wrong(self, key: &'static str, allowed: Allowed) -> ValueFault {
        ValueFault::Wrong(Wrong {
            place: self.place,
            key: Some(key),
            allowed,
        })
    }

    pub fn number(self, key: &'static str, least: u32, most: u32) -> Result<u32, ValueFault>
        ensures low { IfOk result (λ n. least ≤ n) }
        ensures high { IfOk result (λ n. n ≤ most) }
        ensures value { IfOk result (λ n. HasNumber (table_of self.entry) key.now n) }
    {
        let wrong = self.wrong(key, Allowed::Number(least, most));
        let Some(Value::Integer(number)) = self.table.get(key) else {
            return Err(wrong);
        };
        match u32::try_from(*number) {
            Ok(number) if least <= number && number <= most => Ok(number),
            _ => Err(wrong),
        }
    }

    /// A number in that range, the least where the key is missing.
    pub fn number_or_least(
        self,
        key: &'static str,
        least: u32,
        most: u32,
    ) -> Result<u32, ValueFault>
        requires { least ≤ most }
        ensures low { IfOk result (λ n. least ≤ n) }
        ensures high { IfOk result (λ n. n ≤ most) }
        ensures value { IfOk result (λ n. HasNumberOr least (table_of self.entry) key.now n) }
    {
        if self.table.get(key).is_none() {
            return Ok(least);
        }
        self.number(key, least, most)
    }

    /// A time by its text: none where the key is missing.
    pub fn time(self, key: &'static str) -> Result<Option<Moment>, ValueFault>
        ensures { IfOk result (λ t. HasTime (table_of self.entry) key.now t) }
    {
        if self.table.get(key).is_none() {
            return Ok(None);
        }
        match read_time(self.text(key, Allowed::Time)?.as_bytes()) {
            Some(time) => Ok(Some(time)),
            None => Err(self.wrong(key, Allowed::Time)),
        }
    }

    /// A version of the lines between nodes, by its number: this program's own where the key is missing.
    pub fn version(self, key: &'static str) -> Result<Version, ValueFault>
        ensures { IfOk result (λ v. HasVersion (table_of self.entry) key.now v) }
    {
        if self.table.get(key).is_none() {
            return Ok(Version::OWN);
        }
        let least = u32::from(Version::One.number());
        let most = u32::from(Version::OWN.number());
        let number = self.number(key, least, most)?;
        match Version::of_number(u64::from(number)) {
            Some(version) => Ok(version),
            None => Err(self.wrong(key, Allowed::Number(least, most))),
        }
    }

    fn text(self, key: &'static str, allowed: Allowed) -> Result<&'a str, ValueFault>
        ensures { IfOk result (λ s. HasText (table_of self.entry) key.now s.now) }
    {
        match self.table.get(key) {
            Some(Value::String(text)) => Ok(text.as_str()),
            _ => Err(self.wrong(key, allowed)),
        }
    }

    pub fn address(self, key: &'static str) -> Result<SocketAddr, ValueFault>
        ensures { IfOk result (λ a. HasAddress (table_of self.entry) key.now a) }
    {
        match self.text(key, Allowed::Address)?.parse::<SocketAddr>() {
            Ok(address) => Ok(address),
            Err(_) => Err(self.wrong(key, Allowed::Address)),
        }
    }

    pub fn any_text(self, alloc: Global, key: &'static str) -> Result<Text, ValueFault>
        ensures { IfOk result (λ text. HasText (table_of self.entry) key.now text) }
    {
        let text = self.text(key, Allowed::Text)?;
        Ok(Text::new(alloc, text.as_bytes())?)
    }

    /// The path of a file: a text with something in it.
    pub fn path(self, alloc: Global, key: &'static str) -> Result<Text, ValueFault>
        ensures { IfOk result (λ text. HasText (table_of self.entry) key.now text) }
    {
        let text = self.text(key, Allowed::Path)?;
        if text.is_empty() {
            return Err(self.wrong(key, Allowed::Path));
        }
        Ok(Text::new(alloc, text.as_bytes())?)
    }

    pub fn cluster_name(self, alloc: Global, key: &'static str) -> Result<Text, ValueFault>
        ensures named { IfOk result (λ text. spec.is_cluster_name text ≡ true) }
        ensures value { IfOk result (λ text. HasText (table_of self.entry) key.now text) }
    {
        let text = self.text(key, Allowed::ClusterName)?;
        if !is_cluster_name(text.as_bytes()) {
            return Err(self.wrong(key, Allowed::ClusterName));
        }
        Ok(Text::new(alloc, text.as_bytes())?)
    }

    /// The name of an account or of a network.
    pub fn name(self, alloc: Global, key: &'static str) -> Result<Text, ValueFault>
        ensures named { IfOk result (λ text. is_name text ≡ true) }
        ensures value { IfOk result (λ text. HasText (table_of self.entry) key.now text) }
    {
        let text = self.text(key, Allowed::Name)?;
        if !chat_change::is_name(text.as_bytes()) {
            return Err(self.wrong(key, Allowed::Name));
        }
        Ok(Text::new(alloc, text.as_bytes())?)
    }

    /// A nick, or a user name.
    pub fn target(self, alloc: Global, key: &'static str) -> Result<Text, ValueFault>
        ensures named { IfOk result (λ text. is_target text ≡ true) }
        ensures value { IfOk result (λ text. HasText (table_of self.entry) key.now text) }
    {
        let text = self.text(key, Allowed::Target)?;
        if !chat_change::is_target(text.as_bytes()) {
            return Err(self.wrong(key, Allowed::Target));
        }
        Ok(Text::new(alloc, text.as_bytes())?)
    }

    pub fn node_name(self, alloc: Global, key: &'static str) -> Result<NodeName, ValueFault>
        ensures { IfOk result (λ text. HasText (table_of self.entry) key.now text) }
    {
        let text = self.text(key, Allowed::NodeName)?;
        match NodeName::new(alloc, text.as_bytes()) {
            Ok(name) => Ok(name),
            Err(LinkFault::NoMemory) => Err(ValueFault::NoMemory),
            Err(_) => Err(self.wrong(key, Allowed::NodeName)),
        }
    }

    pub fn shared_word(self, alloc: Global, key: &'static str) -> Result<SharedWord, ValueFault>
        ensures { IfOk result (λ text. HasText (table_of self.entry) key.now text) }
    {
        let text = self.text(key, Allowed::SharedWord)?;
        match SharedWord::new(alloc, text.as_bytes()) {
            Ok(word) => Ok(word),
            Err(LinkFault::NoMemory) => Err(ValueFault::NoMemory),
            Err(_) => Err(self.wrong(key, Allowed::SharedWord)),
        }
    }

    pub fn channels(self, alloc: Global, key: &'static str) -> Result<Vec<Text>, ValueFault>
        ensures named { IfOk result (λ channels. list_all is_target channels.items ≡ true) }
        ensures value { IfOk result (λ channels.
            HasTexts (table_of self.entry) key.now channels.items) }
    {
        let Some(Value::Array(items)) = self.table.get(key) else {
            return Err(self.wrong(key, Allowed::Channels));
        };
        let mut names = Vec::new(alloc);
        for item in items.iter() {
            let Some(name) = target_in(alloc, item)? else {
                return Err(self.wrong(key, Allowed::Channels));
            };
            push(&mut names, name)?;
        }
        Ok(names)
    }

    /// The entries of a list, which may be missing.
    pub fn list(self, list: ListName) -> Result<&'a [Value], ValueFault>
        ensures { IfOk result (λ items.
            HasItems (table_of self.entry) (key_of list) (items_view items.now)) }
    {
        match self.table.get(list.as_str()) {
            None => Ok(&[]),
            Some(Value::Array(items)) => Ok(items.as_slice()),
            Some(_) => Err(self.wrong(list.as_str(), Allowed::Tables)),
        }
    }
}

// The target that a value is, if it is one.
fn target_in(alloc: Global, item: &Value) -> Result<Option<Text>, ValueFault>
    ensures named { IfOk result (λ o. IfSome o (λ text. is_target text ≡ true)) }
    ensures value { IfOk result (λ o. IfSome o (λ text. view item.now ≡ string text)) }
{
    let Value::String(text) = item else {
        return Ok(None);
    };
    if !chat_change::is_target(text.as_bytes()) {
        return Ok(None);
    }
    Ok(Some(Text::new(alloc, text.as_bytes())?))
}

/// One item more.
pub(crate) fn push<T: Drop>(list: &mut Vec<T>, item: T) -> Result<(), ValueFault>
    ensures { IfOk result (λ _. list.new.items ≡ list.old.items ++ item ∷ []) }
{
    match list.push(item) {
        Ok(()) => Ok(()),
        Err(_) => Err(ValueFault::NoMemory),
    }
}

/// The entry of a list that a value is.
pub(crate) fn entry_of<'a>(
    item: &'a Value,
    list: ListName,
    index: usize,
) -> Result<Section<'a>, ValueFault>
    ensures { IfOk result (λ entry. view item.now ≡ table (table_of entry)) }
{
    let place = ConfigPlace::Entry(list, index.saturating_add(1));
    match item {
        Value::Table(table) => Ok(Section { table, place }),
        _ => Err(ValueFault::Wrong(Wrong {
            place,
            key: None,
            allowed: Allowed::Table,
        })),
    }
}
