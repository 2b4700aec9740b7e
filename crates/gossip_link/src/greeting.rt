//! How a node greets a peer.
ghost use Rattle.std.specs.Prelude.{◌≡◌, ◌++◌, IfOk};
ghost use Rattle.byte_text.specs.Writes.{Writes};
ghost use Rattle.gossip_link.specs.Session as spec;

use byte_text::NoMemory;
use cluster_directory::Terms;
use peer_lines::{write_hello, write_word};
use std::io;
use std::io::Write;

// The shared word, and the own hello to the peer at that place.
fn write_greeting<W: Write>(terms: &Terms, place: usize, writer: &mut W) -> io::Result<()>
    ensures { Writes W.contents writer.old writer.new result (spec.greeting terms.now place) }
{
    write_word(terms.word().as_bytes(), writer)?;
    write_hello(terms.me(), terms.version_for(place), writer)
}

/// Appends the own hello alone, with the version for the peer at that place, as it is said again over a connection that is
/// greeted: it is no news to the peer, but shows that this node and the way to it are there. For want of memory the connection
/// is to be closed.
pub fn say_hello_again(terms: &Terms, place: usize, out: &mut Vec<u8>) -> Result<(), NoMemory>
    ensures { IfOk result (λ _. out.new.items ≡ out.old.items ++ spec.own_hello terms.now place) }
{
    match write_hello(terms.me(), terms.version_for(place), out) {
        Ok(()) => Ok(()),
        Err(_) => Err(NoMemory),
    }
}

/// Appends the shared word and the own hello, which bears the version for the peer at that place.
pub(crate) fn greet(terms: &Terms, place: usize, out: &mut Vec<u8>) -> Result<(), NoMemory>
    ensures { IfOk result (λ _. out.new.items ≡ out.old.items ++ spec.greeting terms.now place) }
{
    match write_greeting(terms, place, out) {
        Ok(()) => Ok(()),
        Err(_) => Err(NoMemory),
    }
}
