//! A life of a keeper: it opens a file, begins a life, and takes packets.
ghost use Rattle.std.specs.Prelude.{◌≡◌, ◌++◌, ℕ, List, true, take, IfOk};
ghost use Rattle.block_file.specs.Device.{Only};
ghost use Rattle.chat_change.specs.Words.{is_name};
ghost use Rattle.chat_change.specs.declared.change.Change.{Change as Piece};
ghost use Rattle.keeper.specs.Found.{IsFound};
ghost use Rattle.keeper.specs.Keeper.{HasTaken, WasGiven};
ghost use Rattle.keeper.specs.Lives.{IsLife, changes_of};

use crate::{Found, Keeper, open};
use chat_change::Change;
use chat_history::Taker;
use history_file::{Device, FileFault};
use std::alloc::Global;

/// Takes packets, one after another, until one isn't taken. The answer is how many were acknowledged.
pub fn take_packets<D: Device>(
    alloc: Global,
    keeper: &mut Keeper<D>,
    packets: &[Vec<Change>],
) -> usize
    ensures taken { (start : ℕ) (list : List Piece)
        → HasTaken D.seen D.may_leave keeper.old start list
        → (more : List Piece) × HasTaken D.seen D.may_leave keeper.new start
        (list ++ changes_of (take result packets.now) ++ more) }
    ensures given { (given : List Piece) → WasGiven D.seen D.may_leave keeper.old given
        → WasGiven D.seen D.may_leave keeper.new (given ++ changes_of packets.now) }
    ensures life { keeper.new.life ≡ keeper.old.life }
{
    let mut count = 0;
    let mut rest = packets;
    while let Some((packet, after)) = rest.split_first() {
        match keeper.take(alloc, packet) {
            Ok(()) => {}
            Err(_) => return count,
        }
        count += 1;
        rest = after;
    }
    count
}

/// A life: opens a file that was read, begins a life and takes packets. The answer is the keeper, the number of the life, and
/// how many packets were acknowledged.
pub fn live<D: Device + Drop>(
    alloc: Global,
    device: D,
    found: Found,
    node: &[u8],
    clock: u64,
    packets: &[Vec<Change>],
) -> Result<(Keeper<D>, u64, usize), FileFault>
    requires found { IsFound (D.seen device) found }
    requires durable { Only (D.seen device) (D.may_leave device) }
    requires node { is_name node.now ≡ true }

    // Whatever a crash leaves then, it was a life.
    ensures life { IfOk result (λ r. (c : List ℕ) → D.may_leave r.0.file.journal.device c
        → IsLife (D.seen device) (record {
          number = r.1;
          given = changes_of packets.now;
          acknowledged = changes_of (take r.2 packets.now);
          left = c;
        })) }
{
    let mut keeper = match open(device, found) {
        Ok(keeper) => keeper,
        Err((fault, _)) => return Err(fault),
    };
    let number = keeper.begin_life(alloc, node, clock)?;
    let count = take_packets(alloc, &mut keeper, packets);
    Ok((keeper, number, count))
}
