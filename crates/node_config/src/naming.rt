//! The names of entries, for who reads why a configuration is refused.
ghost use Rattle.std.specs.Prelude.{◌≡◌, true, IfOk, IfSome, option_map};
ghost use Rattle.std.specs.List.{list_all};
ghost use Rattle.std.specs.Option.{option_copied};
ghost use Rattle.toml.specs.View.{view, table_view};
ghost use Rattle.node_config.specs.Naming as spec;

use crate::fault::{ConfigFault, ConfigPlace, ListName, write_wrong};
use crate::reading::document_in;
use byte_text::{NoMemory, Text};
use std::alloc::Global;
use std::fmt;
use toml::{Table, Value};

/// The most bytes of a name that is shown.
const SHOWN_NAME_LIMIT: usize = 64;

/// The name of an entry of a list, whole: the text at its key `name`. None where the bytes aren't a TOML text, the text has no such
/// entry, or the entry has no such text. Entries are counted from 1. Whether an entry may have that name isn't asked.
pub fn entry_name(
    alloc: Global,
    bytes: &[u8],
    list: ListName,
    entry: usize,
) -> Result<Option<Text>, NoMemory>
    ensures { IfOk result (λ name. name ≡ spec.entry_name bytes.now list entry) }
{
    let table = match document_in(alloc, bytes) {
        Ok(table) => table,
        Err(ConfigFault::BadText(_)) => return Ok(None),
        Err(_) => return Err(NoMemory),
    };
    match name_in(&table, list, entry) {
        Some(name) => Ok(Some(Text::new(alloc, name.as_bytes())?)),
        None => Ok(None),
    }
}

// The name of an entry of a list of a document.
fn name_in(document: &Table, list: ListName, entry: usize) -> Option<&str>
    ensures { option_copied result ≡ spec.name_in list entry (table_view document.now) }
{
    let index = entry.checked_sub(1)?;
    match item_in(document, list, index) {
        Some(item) => name_of(item),
        None => None,
    }
}

// The item of a list of a document at that index.
fn item_in(document: &Table, list: ListName, index: usize) -> Option<&Value>
    ensures { option_map (λ v. view v.now) result
        ≡ spec.item_in list index (table_view document.now) }
{
    match document.get(list.as_str()) {
        Some(items) => items.get(index),
        None => None,
    }
}

// The text at the key `name` of an item.
fn name_of(item: &Value) -> Option<&str>
    ensures { option_copied result ≡ spec.name_of (view item.now) }
{
    match item.get("name") {
        Some(name) => name.as_str(),
        None => None,
    }
}

/// Why a configuration is refused, and the name of the entry that is wrong, where it is an entry that has a name.
///
/// It is printed as the fault is, with the name in brackets behind the number of the entry, as in `peer 2 (n3), address: ..`. A name
/// is shown only if it is 1 to 64 bytes of printable ASCII, so what is printed stays one line.
#[derive(Drop)]
pub struct NamedFault {
    /// Why it is refused.
    pub fault: ConfigFault,
    /// The name of the entry, as the text has it.
    pub name: Option<Text>,
}

impl NamedFault {
    /// The fault for which these bytes were refused, with the name of its entry.
    #[tactic(auto, unfolding(crate::specs::Naming::fault_name))]
    pub fn new(alloc: Global, bytes: &[u8], fault: ConfigFault) -> Result<NamedFault, NoMemory>
        ensures fault { IfOk result (λ named. named.fault ≡ fault) }
        ensures name { IfOk result (λ named. named.name ≡ spec.fault_name bytes.now fault) }
    {
        let name = match fault {
            ConfigFault::BadKey(wrong) | ConfigFault::BadValue(wrong) => {
                name_at(alloc, bytes, wrong.place)?
            }
            ConfigFault::BadText(_) | ConfigFault::NoMemory => None,
        };
        Ok(NamedFault { fault, name })
    }
}

// The name of the entry that a place is.
fn name_at(alloc: Global, bytes: &[u8], place: ConfigPlace) -> Result<Option<Text>, NoMemory>
    ensures { IfOk result (λ name. name ≡ spec.place_name bytes.now place) }
{
    match place {
        ConfigPlace::Entry(list, entry) => entry_name(alloc, bytes, list, entry),
        ConfigPlace::Top | ConfigPlace::Keeper => Ok(None),
    }
}

impl fmt::Display for NamedFault {
    fn fmt<W: fmt::Write>(&self, f: &mut fmt::Formatter<W>) -> Result<(), fmt::Error> {
        match self.fault {
            ConfigFault::BadKey(wrong) | ConfigFault::BadValue(wrong) => {
                write_wrong(f, &wrong, self.name.as_ref().and_then(shown_name))
            }
            fault => write!(f, "{fault}"),
        }
    }
}

fn is_printable(byte: u8) -> bool
    ensures { result ≡ spec.is_printable byte }
{
    b' ' <= byte && byte <= b'~'
}

fn has_printable_bytes_only(name: &[u8]) -> bool
    ensures { result ≡ list_all spec.is_printable name.now }
{
    name.iter().all(|byte| is_printable(*byte))
}

// Whether a name is shown: it is short, and printable.
fn is_shown(name: &[u8]) -> bool
    ensures { result ≡ spec.is_shown name.now }
{
    !name.is_empty() && name.len() <= SHOWN_NAME_LIMIT && has_printable_bytes_only(name)
}

// A name that is shown, as a text.
fn shown_name(name: &Text) -> Option<&str>
    ensures whole { IfSome result (λ text. text.now ≡ name.now) }
    ensures shown { IfSome result (λ _. spec.is_shown name.now ≡ true) }
{
    if !is_shown(name.as_bytes()) {
        return None;
    }
    std::str::from_utf8(name.as_bytes()).ok()
}
