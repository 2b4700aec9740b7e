//! What a session keeps from line to line, so that a line asks for less memory.
ghost use Rattle.std.specs.Prelude.{◌≡◌, ◌∷◌, [], true, IfOk};
ghost use Rattle.chat_change.specs.Words.{MayBeTags};
ghost use Rattle.irc_tags.specs.ClientOnly.{client_only_of, is_client_only_text};
ghost use Rattle.upstream_session.specs.Messages as messages;

use crate::buffers::KnownBuffers;
use crate::effect::UpEffect;
use crate::effects::push;
use byte_text::{NoMemory, Text};
use chat_change::is_tags_as_written;
use irc_tags::{Tags, write_client_only};
use std::alloc::Global;
use std::mem;

/// The buffers of late conversations, the room of a list and of a text that were given back, and room for the tags of a
/// message.
#[derive(Drop)]
pub(crate) struct Scratch {
    pub(crate) buffers: KnownBuffers,
    list: Vec<UpEffect>,
    text: Vec<u8>,
    // never given away, so that it asks for memory only until it has grown
    tags: Vec<u8>,
}

fn text_in(effect: UpEffect) -> Option<Text> {
    match effect {
        UpEffect::Send(text) => Some(text),
        UpEffect::Relay(text, _) => Some(text),
        UpEffect::Put(_) => None,
        UpEffect::Close => None,
    }
}

impl Scratch {
    /// Nothing yet. It takes no memory.
    pub(crate) fn new(alloc: Global) -> Scratch {
        Scratch {
            buffers: KnownBuffers::none(),
            list: Vec::new(alloc),
            text: Vec::new(alloc),
            tags: Vec::new(alloc),
        }
    }

    fn recycle_text(&mut self, text: Text) {
        let bytes = text.into_bytes();
        if self.text.capacity() < bytes.capacity() {
            self.text = bytes;
        }
    }

    /// Keeps the room of a list and of one of its texts, where it is larger than what is kept.
    pub(crate) fn recycle(&mut self, list: Vec<UpEffect>) {
        let mut list = list;
        for effect in list.drain(..) {
            if let Some(text) = text_in(effect) {
                self.recycle_text(text);
            }
        }
        if self.list.capacity() < list.capacity() {
            self.list = list;
        }
    }

    /// Room for a text: that of the one that was given back.
    pub(crate) fn text_room(&mut self, alloc: Global) -> Vec<u8> {
        mem::replace(&mut self.text, Vec::new(alloc))
    }

    // Writes the client-only tags of a line, in place of those of an earlier one.
    fn write_tags(&mut self, tags: &Tags<'_>) -> Result<(), NoMemory>
        ensures text { IfOk result (λ _. self.new.tags.items ≡ client_only_of tags.now) }
        ensures as_written { IfOk result (λ _.
            is_client_only_text self.new.tags.items ≡ true) }
    {
        self.tags.clear();
        // A `Vec` refuses bytes only where memory runs out.
        if write_client_only(tags, &mut self.tags).is_err() {
            return Err(NoMemory);
        }
        Ok(())
    }

    /// What a record keeps of a line's tags, in the room for them.
    pub(crate) fn kept_tags(&mut self, tags: &Option<Tags<'_>>) -> Result<&[u8], NoMemory>
        ensures kept { IfOk result (λ kept. kept.now ≡ messages.kept_read tags.now) }
        ensures lawful { IfOk result (λ kept. MayBeTags kept.now) }
    {
        let Some(tags) = tags else {
            return Ok(b"");
        };
        self.write_tags(tags)?;
        if is_tags_as_written(&self.tags) {
            Ok(&self.tags)
        } else {
            Ok(b"")
        }
    }

    /// One effect, in the room of the list that was given back. Effects that it still has are let go.
    pub(crate) fn one(&mut self, alloc: Global, effect: UpEffect) -> Result<Vec<UpEffect>, NoMemory>
        ensures { IfOk result (λ list. list.items ≡ effect ∷ []) }
    {
        let mut list = mem::replace(&mut self.list, Vec::new(alloc));
        list.clear();
        push(&mut list, effect)?;
        Ok(list)
    }
}
