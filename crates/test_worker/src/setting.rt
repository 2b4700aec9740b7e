//! What a case begins with.
use crate::act::{cut, number_in};

/// What a case begins with.
#[derive(Clone, Copy)]
pub struct Setting<'a> {
    /// So many posts are there.
    pub posts: u64,
    /// The wall clock, in milliseconds after 1970 began.
    pub clock: u64,
    /// So many of the networks demo/net, demo/two and eve/net are configured.
    pub networks: usize,
    /// The names of the peers, a space between each two.
    pub peers: &'a str,
    /// So many clients have a place.
    pub places: usize,
    /// So many passes the node has besides those of its workers.
    pub others: usize,
    /// Whether the gate lets answers through.
    pub is_open: bool,
    /// Whether it holds each of them until the other worker has reached it too.
    pub holds: bool,
    /// Whether connections can be begun.
    pub can_dial: bool,
}

/// What a case begins with that says nothing else.
pub const USUAL: Setting<'static> = Setting {
    posts: 0,
    clock: 1_000_000,
    networks: 1,
    peers: "n0",
    places: 4,
    others: 0,
    is_open: true,
    holds: false,
    can_dial: true,
};

impl<'a> Setting<'a> {
    // A part of the line says something else.
    fn set(&mut self, part: &'a str) {
        let (word, rest) = cut(part);
        let number = number_in(rest).unwrap_or(0);
        match word {
            "posts" => self.posts = number as u64,
            "clock" => self.clock = number as u64,
            "networks" => self.networks = number,
            "places" => self.places = number,
            "others" => self.others = number,
            "peers" => self.peers = rest,
            "held" => self.holds = true,
            "shut" => self.is_open = false,
            _ => self.can_dial = false,
        }
    }
}

/// The setting that a line spells, without the word `with`.
pub fn setting_in(text: &str) -> Setting<'_> {
    let mut setting = USUAL;
    for part in text.split(", ") {
        setting.set(part);
    }
    setting
}
