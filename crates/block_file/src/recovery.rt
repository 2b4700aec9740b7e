//! Repairing the end of a file that a crash may have left.
ghost use Rattle.std.specs.Prelude.{◌≡◌, ◌<◌, List, ℕ, drop, OnOk, IsErrOf};
ghost use Rattle.block_file.specs.Device.{Only, LeavesOnly};
ghost use Rattle.block_file.specs.Blocks.{at_rest, StandsFor};
ghost use Rattle.block_file.specs.Ending.{IsTornEnd};
ghost use Rattle.block_file.specs.Found.{HasRead};

use crate::{Device, DeviceError};

/// Repairs the end of a file that a crash may have left, whose blocks are so long together. It may crash too.
pub fn repair<D: Device>(device: &mut D, end: usize) -> Result<(), DeviceError>
    requires read { (payloads : List (List ℕ)) × HasRead (D.seen device.old) payloads end }
    // Nothing is cut but the end of an append that was cut short.
    requires torn { IsTornEnd (drop end (D.seen device.old)) }
    // After a restart, what is read is what is on the disk.
    requires durable { Only (D.seen device.old) (D.may_leave device.old) }

    ensures at_rest { OnOk result ((payloads : List (List ℕ))
        → HasRead (D.seen device.old) payloads end
        → D.seen device.new ≡ at_rest payloads) }
    ensures durable { OnOk result (Only (D.seen device.new) (D.may_leave device.new)) }

    // A crash at any moment leaves the same payloads.
    ensures any_moment { (payloads : List (List ℕ)) → StandsFor (D.seen device.old) payloads
        → LeavesOnly D.moment D.left_since device.old device.new (λ c. StandsFor c payloads) }

    ensures failed { IsErrOf result DeviceError.Failed → D.faults device.old < D.faults device.new }
    ensures full { IsErrOf result DeviceError.Full → ⊥ }
{
    device.cut(end)?;
    // The cut has to be on the disk first: behind a gate that is torn open, what was there would count.
    device.sync()?;
    device.write_at(end, b"-")?;
    device.sync()
}
