//! What stands under the lock of a node, so that what a put does to it can be said: [`SharedNode::put`](crate::SharedNode::put)
//! calls [`WritingHalf::put_now`] once under the lock, and [`SharedNode::close`](crate::SharedNode::close) hands it out. And
//! laws of published lists: their contracts are the laws.
ghost use Rattle.std.specs.Prelude.{List, Contains};
ghost use mathlib.Core.List.{IsPrefix};
ghost use Rattle.chat_change.specs.Buffer.{Buffer};
ghost use Rattle.chat_history.specs.History.{mark, IsAtMost};
ghost use Rattle.shared_node.specs.declared.entry.LogEntry.{LogEntry};
ghost use Rattle.shared_node.specs.Lists.{changes_in};

pub use crate::half::WritingHalf;

/// A list that follows another has each of its entries, and no read marker of it is lower.
pub fn later_lists_keep_what_was_put()
    ensures entries { (old new : List LogEntry) (e : LogEntry) → IsPrefix old new
        → Contains old e → Contains new e }
    ensures markers { (old new : List LogEntry) (b : Buffer) → IsPrefix old new
        → IsAtMost (mark (changes_in old) b) (mark (changes_in new) b) }
{
    chat_history::laws::markers_never_fall();
}
