//! How far a session is.
ghost use Rattle.std.specs.Prelude.{◌≡◌, IfOk};

use byte_text::{NoMemory, Text};
use chat_query::Facts;
use irc_caps::Negotiation;
use std::alloc::Global;

/// A session that waits for its registration (RFC 2812, section 3.1).
pub(crate) struct Waiting {
    pub(crate) cluster: Text,
    pub(crate) maximum: u32,
    pub(crate) negotiation: Negotiation,
    // of the last PASS; empty where none came
    pub(crate) password: Text,
    // whether a NICK has come
    pub(crate) has_nick: bool,
    // the first parameter of the last USER
    pub(crate) user: Option<Text>,
}

// Written out, so that this is proved once, and not in each function that lets such a session go.
impl Drop for Waiting {
    fn drop(self) {
        let Self {
            cluster: _cluster,
            maximum: _maximum,
            negotiation: _negotiation,
            password: _password,
            has_nick: _has_nick,
            user: _user,
        } = self;
    }
}

/// How far a session is.
#[derive(Drop)]
pub(crate) enum Stage {
    Waiting(Waiting),
    Registered(Facts),
    Closed,
}

/// How a registered session goes on after a line.
#[derive(Clone, Copy)]
pub(crate) enum Continuation {
    Stays,
    Closes,
}

fn copy_of(alloc: Global, text: &Option<Text>) -> Result<Option<Text>, NoMemory>
    ensures { IfOk result (λ copy. copy ≡ text.now) }
{
    match text {
        None => Ok(None),
        Some(text) => Ok(Some(text.try_clone(alloc)?)),
    }
}

impl Waiting {
    /// An equal value.
    pub(crate) fn try_clone(&self, alloc: Global) -> Result<Waiting, NoMemory>
        ensures { IfOk result (λ copy. copy ≡ self.now) }
    {
        let cluster = self.cluster.try_clone(alloc)?;
        let password = self.password.try_clone(alloc)?;
        let user = copy_of(alloc, &self.user)?;
        Ok(Waiting {
            cluster,
            maximum: self.maximum,
            negotiation: self.negotiation,
            password,
            has_nick: self.has_nick,
            user,
        })
    }
}
