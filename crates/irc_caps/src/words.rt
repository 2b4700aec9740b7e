//! Lists of capabilities (IRCv3 capability negotiation).
ghost use Rattle.std.specs.Prelude.{◌≡◌, ◌++◌, is_some, map, filter, IfOk};
ghost use Rattle.std.specs.List.{list_all};
ghost use Rattle.irc_caps.specs.CapSet as sets;
ghost use Rattle.irc_caps.specs.Words as spec;
ghost use Rattle.irc_caps.specs.Gaps.{gap_before};

use crate::{CapSet, Capability};
use byte_text::Text;
use std::alloc::{AllocError, Global};

/// What a word of a list asks for: that a capability be held, or be given up.
#[derive(Clone, Copy)]
pub(crate) struct Wish {
    pub(crate) capability: Capability,
    pub(crate) is_held: bool,
}

fn wish_for(is_held: bool, name: &[u8]) -> Option<Wish>
    ensures { result ≡ option_map (λ c. record { capability = c; is_held = is_held })
        (capability_of name.now) }
{
    match Capability::named(name) {
        None => None,
        Some(capability) => Some(Wish {
            capability,
            is_held,
        }),
    }
}

ghost use Rattle.std.specs.Prelude.{option_map};
ghost use Rattle.irc_caps.specs.Capability.{capability_of, name_of};

fn wish_of(word: &[u8]) -> Option<Wish>
    ensures { result ≡ spec.wish_of word.now }
{
    if word.is_empty() {
        None
    } else if word[0] == b'-' {
        wish_for(false, &word[1..])
    } else {
        wish_for(true, word)
    }
}

fn is_wish(word: &[u8]) -> bool
    ensures { result ≡ is_some (spec.wish_of word.now) }
{
    wish_of(word).is_some()
}

/// Whether each word is a capability's name, or `-` and such a name.
pub(crate) fn are_wishes(words: &[&[u8]]) -> bool
    ensures { result ≡ list_all (λ w. is_some (spec.wish_of w.now)) words.now }
{
    words.iter().all(|word| is_wish(word))
}

fn with_wish(caps: CapSet, wish: Option<Wish>) -> CapSet
    ensures { result ≡ spec.with_wish caps wish }
{
    match wish {
        None => caps,
        Some(wish) => caps.with(wish.capability, wish.is_held),
    }
}

/// The set after each word in turn.
pub(crate) fn with_words(caps: CapSet, words: &[&[u8]]) -> CapSet
    ensures { result ≡ spec.with_words caps (map (λ w. w.now) words.now) }
{
    let mut changed = caps;
    for word in words {
        changed = with_wish(changed, wish_of(word));
    }
    changed
}

/// The parts of a text, which spaces cut.
pub(crate) fn parts_of<'a>(alloc: Global, text: &'a [u8]) -> Result<Vec<&'a [u8]>, AllocError>
    ensures { IfOk result (λ parts. map (λ w. w.now) parts.items ≡ spec.parts_of text.now) }
{
    text.split(|b| *b == b' ').collect(alloc)
}

fn push_word<'a>(words: &mut Vec<&'a [u8]>, word: &'a [u8]) -> Result<(), AllocError>
    ensures { IfOk result (λ _. map (λ w. w.now) words.new.items ≡ map
        (λ w. w.now) words.old.items ++ spec.only_if (spec.is_word word.now) word.now) }
{
    if !word.is_empty() {
        words.push(word)?;
    }
    Ok(())
}

fn without_empty<'a>(alloc: Global, parts: &[&'a [u8]]) -> Result<Vec<&'a [u8]>, AllocError>
    ensures { IfOk result (λ words. map (λ w. w.now) words.items ≡ filter spec.is_word (map
        (λ w. w.now) parts.now)) }
{
    let mut words: Vec<&'a [u8]> = Vec::new(alloc);
    for i in 0..parts.len() {
        push_word(&mut words, parts[i])?;
    }
    Ok(words)
}

/// The words of a text, which spaces cut.
pub(crate) fn words_of<'a>(alloc: Global, text: &'a [u8]) -> Result<Vec<&'a [u8]>, AllocError>
    ensures { IfOk result (λ words. map (λ w. w.now) words.items ≡ spec.words_of text.now) }
{
    let parts = parts_of(alloc, text)?;
    without_empty(alloc, &parts)
}

/// Puts the space that stands before each word but the first.
fn put_gap(text: &mut Vec<u8>, i: usize) -> Result<(), AllocError>
    ensures { IfOk result (λ _. text.new.items ≡ text.old.items ++ gap_before i) }
{
    if 0 < i {
        text.push(b' ')?;
    }
    Ok(())
}

/// The words with a space between each two.
pub(crate) fn joined(alloc: Global, words: &[&[u8]]) -> Result<Text, AllocError>
    ensures { IfOk result (λ text. text ≡ spec.joined (map (λ w. w.now) words.now)) }
{
    let mut text = Vec::new(alloc);
    for i in 0..words.len() {
        put_gap(&mut text, i)?;
        text.extend_from_slice(words[i])?;
    }
    Ok(Text::of(text))
}

fn push_name(
    list: &mut Vec<&'static [u8]>,
    caps: CapSet,
    capability: Capability,
) -> Result<(), AllocError>
    ensures { IfOk result (λ _. map (λ w. w.now) list.new.items ≡ map
        (λ w. w.now) list.old.items ++ spec.only_if (sets.holds caps capability) (name_of capability)) }
{
    if caps.holds(capability) {
        list.push(capability.name())?;
    }
    Ok(())
}

/// The names of those of the capabilities that are held, in the order of the list.
pub(crate) fn names_among(
    alloc: Global,
    caps: CapSet,
    list: &[Capability],
) -> Result<Vec<&'static [u8]>, AllocError>
    ensures { IfOk result (λ names. map (λ w. w.now) names.items ≡ sets.names_among caps list.now) }
{
    let mut names: Vec<&'static [u8]> = Vec::new(alloc);
    for i in 0..list.len() {
        push_name(&mut names, caps, list[i])?;
    }
    Ok(names)
}

/// The names of the capabilities of a set in byte order, with a space between each two.
pub(crate) fn list_of(alloc: Global, caps: CapSet) -> Result<Text, AllocError>
    ensures { IfOk result (λ text. text ≡ spec.joined (sets.names caps)) }
{
    let names = names_among(alloc, caps, &Capability::ALL)?;
    joined(alloc, &names)
}
