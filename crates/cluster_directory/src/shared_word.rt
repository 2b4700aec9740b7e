//! The word that the nodes of a cluster share.
ghost use Rattle.std.specs.Prelude.{◌≡◌, ℕ, List, IfOk, IfErr, if◌then◌else◌, true};
ghost use Rattle.cluster_directory.specs.Names as spec;

use crate::fault::LinkFault;
use byte_text::{NoMemory, Text, has_word_end};
use std::alloc::Global;
use std::marker::Model;

/// The most bytes that a shared word has.
pub const SHARED_WORD_LIMIT: usize = 64;

/// A word that the nodes of a cluster share: 1 to 64 bytes, none of NUL, CR, LF and space. Contracts see it as the list
/// of its bytes.
#[derive(Drop)]
pub struct SharedWord {
    text: Text,
}

impl Model for SharedWord {
    ghost Value = { List ℕ };

    ghost view = { λ w. w.text };

    ghost invariant = { λ w. spec.is_shared_word w.text ≡ true };
}

/// Whether the text is a word that nodes may share. It takes no memory.
pub fn is_shared_word(text: &[u8]) -> bool
    ensures { result ≡ spec.is_shared_word text.now }
{
    !text.is_empty() && text.len() <= SHARED_WORD_LIMIT && !has_word_end(text)
}

impl SharedWord {
    /// The word of these bytes. Refused with [`LinkFault::BadForm`] unless it has 1 to 64 bytes, none of NUL, CR, LF and
    /// space.
    pub fn new(alloc: Global, text: &[u8]) -> Result<SharedWord, LinkFault>
        ensures made { IfOk result (λ word. word ≡ text.now) }
        ensures refused { IfErr result (λ fault.
            fault ≡ (if spec.is_shared_word text.now
            then LinkFault.NoMemory else LinkFault.BadForm)) }
    {
        if !is_shared_word(text) {
            return Err(LinkFault::BadForm);
        }
        match SharedWord::of_word(alloc, text) {
            Ok(word) => Ok(word),
            Err(NoMemory) => Err(LinkFault::NoMemory),
        }
    }

    // The word of bytes that are one.
    fn of_word(alloc: Global, text: &[u8]) -> Result<SharedWord, NoMemory>
        requires { spec.is_shared_word text.now ≡ true }
        ensures { IfOk result (λ word. word ≡ text.now) }
    {
        let text = Text::new(alloc, text)?;
        Ok(SharedWord { text })
    }

    /// The bytes of the word.
    pub fn as_bytes(&self) -> &[u8]
        ensures value { result.now ≡ self.now }
        ensures lawful { spec.is_shared_word result.now ≡ true }
    {
        self.text.as_bytes()
    }

    /// Whether both are one word.
    pub fn is_same(&self, other: &SharedWord) -> bool
        ensures { result ≡ spec.same_name self.now other.now }
    {
        self.as_bytes() == other.as_bytes()
    }
}
