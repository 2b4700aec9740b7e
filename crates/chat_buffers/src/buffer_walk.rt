//! A walk over the buffers of which certain records are held, which takes no memory.

ghost use Rattle.std.specs.Prelude.{◌≡◌, Some, None, IfSome};
ghost use Rattle.std.specs.Option.{option_map};
ghost use Rattle.chat_change.specs.Order.{buffer_cmp};
ghost use Rattle.chat_history.specs.Choice.{IsFirst};
ghost use Rattle.chat_history.specs.Latest.{latest_moment};
ghost use Rattle.chat_buffers.specs.BufferWalk.{walk_after};
ghost use Rattle.chat_buffers.specs.Sought.{all_past};
ghost use Rattle.chat_buffers.specs.Store.{history_in};

use crate::buffers::Buffers;
use crate::held::Held;
use crate::sought::Sought;
use chat_change::{Buffer, Moment};
use std::collections::btree_map::Range;
use std::marker::Model;

/// A walk over the buffers of a store, in their order. Contracts see the store, and the buffer that it has reached.
#[derive(Drop)]
pub struct BufferWalk<'a> {
    buffers: &'a Buffers,
    last: Option<&'a Buffer>,
    // those after the last one
    later: Range<'a, Buffer, Held>,
}

impl<'a> Model for BufferWalk<'a> {
    ghost use Rattle.std.specs.Option.{option_map};
    ghost use Rattle.std.specs.Map.Iter.{deref};
    ghost use Rattle.chat_buffers.specs.Ahead.{IsAhead};
    ghost use Rattle.chat_buffers.specs.BufferWalk.{Walk, walk_after, coded_walk};
    ghost use Rattle.chat_buffers.specs.Store.{history_in};

    ghost Value = { Walk };

    ghost coded = { coded_walk };

    ghost view = { λ w. walk_after w.buffers.now (option_map deref w.last) };

    ghost invariant = { λ w. IsAhead (history_in w.buffers.now) (option_map deref w.last) w.later };
}

impl Buffers {
    /// A walk over all buffers.
    pub fn walk(&self) -> BufferWalk<'_>
        ensures { result ≡ walk_after self.now None }
    {
        BufferWalk {
            buffers: self,
            last: None,
            later: self.held.range(..),
        }
    }
}

impl<'a> BufferWalk<'a> {
    /// The next buffer of which a record is sought, and the moment of its latest visible record. It takes no memory.
    ///
    /// It goes past the buffers up to that one, or a little past the last of the account's on the network.
    pub fn next_sought(&mut self, sought: &Sought<'_>) -> Option<(&'a Buffer, Moment)>
        ensures first { IsFirst buffer_cmp (all_past sought.now self.old.last
            (history_in self.old.store)) (option_map (λ found. found.0.now) result) }
        ensures latest { IfSome result (λ found.
            found.1 ≡ latest_moment (history_in self.old.store) found.0.now) }
        ensures walked { IfSome result (λ found.
            self.new ≡ walk_after self.old.store (Some found.0.now)) }
    {
        let mut passed: u32 = 0;
        while let Some((buffer, held)) = self.later.next() {
            self.last = Some(buffer);
            if sought.is_any_sought(buffer, &held.messages) {
                return Some((buffer, held.messages.latest()?));
            }
            passed = passed.wrapping_add(1);
            if sought.is_end(buffer, &held.messages, passed) {
                return None;
            }
        }
        None
    }
}
