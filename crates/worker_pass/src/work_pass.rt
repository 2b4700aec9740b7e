//! What a worker asks of its pass for itself.
ghost use Rattle.std.specs.Prelude.{◌≡◌};

use chat_change::Buffer;
use node_ports::NodePass;

/// A pass that also says what its worker has to do behind its calls.
pub trait WorkPass: NodePass {
    /// Whether changes were published by it since this was last asked. The peers are to have them.
    fn take_news(&mut self) -> bool
        ensures { Self.given self.new ≡ Self.given self.old };

    /// Whether changes that were put by it wait, since a put of them was refused.
    fn has_unpublished(&self) -> bool;

    /// A buffer of which a peer sent a read marker that was further than the node's, each once, in the order in which they came; None
    /// while changes wait that were put by it. Where there was no memory for a buffer, it is left out: its clients read the marker
    /// when they next ask.
    fn next_marked(&mut self) -> Option<Buffer>
        ensures { Self.given self.new ≡ Self.given self.old };

    /// Whether the gate held an answer back. The work of the worker ends then.
    fn is_shut(&self) -> bool;
}
