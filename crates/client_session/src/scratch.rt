//! What a session keeps from line to line, so that a line asks for less memory.
ghost use Rattle.std.specs.Prelude.{◌≡◌, ◌∷◌, [], IfOk};

use crate::effect::Effect;
use crate::shared::push;
use byte_text::NoMemory;
use std::alloc::Global;

/// The most bytes of room that are kept for a line. One of 512 bytes, the most without tags (RFC 2812, section 2.3), grows
/// into no more.
const MOST_KEPT: usize = 1024;

/// The room of a list and of the line in it that were given back, if any.
#[derive(Drop)]
pub(crate) struct SessionScratch {
    list: Option<Vec<Effect>>,
    text: Option<Vec<u8>>,
}

impl SessionScratch {
    /// Nothing yet.
    pub(crate) fn none() -> SessionScratch {
        SessionScratch {
            list: None,
            text: None,
        }
    }

    /// Keeps the room of a line for the network's server, unless its tags were long, and of its list. An idle session has
    /// sent none, and keeps nothing.
    pub(crate) fn recycle(&mut self, list: Vec<Effect>) {
        let mut list = list;
        match list.pop() {
            Some(Effect::Upstream(line)) => {
                let room = line.into_bytes();
                if room.capacity() <= MOST_KEPT {
                    self.text = Some(room);
                }
                self.list = Some(list);
            }
            other => drop(other),
        }
    }

    /// Room for a text: that of the one that was given back, if any.
    pub(crate) fn text_room(&mut self, alloc: Global) -> Vec<u8> {
        match self.text.take() {
            Some(room) => room,
            None => Vec::new(alloc),
        }
    }

    fn list_room(&mut self, alloc: Global) -> Vec<Effect> {
        match self.list.take() {
            Some(room) => room,
            None => Vec::new(alloc),
        }
    }

    /// One effect, in the room of the list that was given back. Effects that it still has are let go.
    pub(crate) fn one(&mut self, alloc: Global, effect: Effect) -> Result<Vec<Effect>, NoMemory>
        ensures { IfOk result (λ list. list.items ≡ effect ∷ []) }
    {
        let mut list = self.list_room(alloc);
        list.clear();
        push(&mut list, effect)?;
        Ok(list)
    }
}
