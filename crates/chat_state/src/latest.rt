//! The buffers of an account on a network, each with its latest moment. They take no memory.

ghost use Rattle.std.specs.Prelude.{◌≡◌, length};
ghost use Rattle.std.specs.Iterator.{at_most};
ghost use Rattle.std.specs.Map.Iter.{TakesFirst};
ghost use Rattle.chat_history.specs.Latest.{latest_in};
ghost use Rattle.chat_state.specs.LatestSince.{latest_since_in};

use crate::lookups::first_moment;
use crate::state::State;
use chat_buffers::{BufferWalk, Sought};
use chat_change::{Buffer, Moment};
use std::marker::Model;

/// Buffers whose latest visible record isn't older than a moment, each with the moment of that record, by target. It is
/// seen as the list of what is left.
#[derive(Drop)]
pub struct Latest<'a> {
    walk: BufferWalk<'a>,
    since: Moment,
    next: Option<(&'a Buffer, Moment)>,
}

impl<'a> Model for Latest<'a> {
    ghost use Rattle.std.specs.Prelude.{List, ℕ};
    ghost use Rattle.chat_change.specs.Buffer as spec;
    ghost use Rattle.chat_state.specs.Latest.{latest_from, next_of, IsAtBuffer};
    ghost use Rattle.chat_buffers.specs.Store.{history_in};

    ghost Value = { List (spec.Buffer × ℕ) };

    ghost view = { λ l. latest_from (history_in l.walk.store) l.since (next_of l.next) };

    ghost invariant = { λ l. IsAtBuffer (history_in l.walk.store) l.since l.walk.last l.next };
}

impl<'a> Iterator for Latest<'a> {
    type Item = (&'a Buffer, Moment);

    ghost next_gives = { TakesFirst (λ p. (p.0.now, p.1)) };

    ghost remaining = { λ s. at_most (length s) };

    fn next(&mut self) -> Option<(&'a Buffer, Moment)> {
        let Some((buffer, at)) = &self.next else {
            return None;
        };
        let (buffer, at) = (*buffer, *at);
        let network = Sought::OfNetwork {
            account: buffer.account(),
            network: buffer.network(),
            since: self.since,
        };
        self.next = self.walk.next_sought(&network);
        Some((buffer, at))
    }
}

impl State {
    /// The buffers of an account on a network that have a visible record, each with the moment of its latest, by target.
    pub fn latest(&self, account: &[u8], network: &[u8]) -> Latest<'_>
        ensures { result ≡ latest_in self.now.history account.now network.now }
    {
        self.latest_since(account, network, first_moment())
    }

    /// Those of them whose latest visible record isn't older than a moment. A buffer with an older one costs a look at
    /// that moment, and mostly none at its names.
    pub fn latest_since(&self, account: &[u8], network: &[u8], since: Moment) -> Latest<'_>
        ensures { result ≡ latest_since_in self.now.history account.now network.now since }
    {
        let mut walk = self.store.walk();
        let next = walk.next_sought(&Sought::OfNetwork {
            account,
            network,
            since,
        });
        Latest { walk, since, next }
    }
}
