//! What the clients of a server have in common.
ghost use Rattle.std.specs.Prelude.{◌≡◌, [], ◌++◌, ◌↔◌, length, take, drop, min, IsErr, OnOk, OnErr};
ghost use Rattle.attach.specs.Attachment.{AttachmentState, Exceeds, with_line, without_first};

use thiserror::Error;

/// What is owed and the line together exceed the bound.
#[derive(Debug, Drop, PartialEq, Error)]
#[error("the line and the bytes that are owed exceed the bound")]
pub struct Overrun;

/// A client at its place, and the bytes that are owed to it, oldest first, up to a bound.
pub trait Attachment: Drop {
    ghost state: { Self → AttachmentState };

    /// The number of the client's place.
    fn place(&self) -> usize
        ensures { result ≡ (state self.now).place };

    /// How many bytes are owed.
    fn owed(&self) -> usize
        ensures { result ≡ length (state self.now).owed };

    /// How many bytes may be owed at once.
    fn bound(&self) -> usize
        ensures { result ≡ (state self.now).bound };

    /// Appends the whole line to what is owed. `Overrun` where both together exceed the bound, and nothing
    /// changes. Takes no memory.
    fn offer(&mut self, line: &[u8]) -> Result<(), Overrun>
        ensures overrun { IsErr result ↔ Exceeds (state self.old) line.now }
        ensures ok { OnOk result (state self.new ≡ with_line (state self.old) line.now) }
        ensures err { OnErr result (self.new ≡ self.old) };

    /// Moves the first bytes that are owed to the start of `out`, as many as fit, and answers their number.
    /// The rest of `out` stays as it was.
    fn flush_into(&mut self, out: &mut [u8]) -> usize
        ensures count { result ≡ min (length out.old) (length (state self.old).owed) }
        ensures moved { out.new ≡ take result (state self.old).owed ++ drop result out.old }
        ensures left { state self.new ≡ without_first (state self.old) result };

    /// The first bytes that are owed, where they lie. There are some where any are owed.
    fn first_owed(&self) -> &[u8]
        ensures first { (state self.now).owed
            ≡ result.now ++ drop (length result.now) (state self.now).owed }
        ensures some { result.now ≡ [] → (state self.now).owed ≡ [] };

    /// So many of the first bytes are owed no more, or all of them where fewer are owed.
    fn settle(&mut self, count: usize)
        ensures { state self.new ≡ without_first (state self.old) count };
}
