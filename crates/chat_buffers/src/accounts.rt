//! Floors of accounts, and what they reach in the accounts' buffers.

ghost use Rattle.std.specs.Prelude.{◌≡◌, ◌≤◌, IfOk, OnOk, OnErr, None, IfSome};
ghost use Rattle.std.specs.Option.{option_map};
ghost use Rattle.chat_change.specs.Extent.{OfAccount};
ghost use Rattle.chat_change.specs.Key.{FloorOf};
ghost use Rattle.chat_change.specs.declared.change.Change.TheVariants.{AccountFloor};
ghost use Rattle.chat_buffers.specs.Store as spec;
ghost use Rattle.chat_buffers.specs.Entering.{IsEntered, TakesFloor, HasNoFloorTo, AreBuffersOf, IsAddedOf};

use crate::buffers::Buffers;
use crate::held::{Held, Stamp, number_of, take_floor_to};
use chat_change::{Account, Buffer, ChangeFault, Moment};
use ordered_maps::exchange;
use std::alloc::{AllocError, Global};

impl Buffers {
    /// Sets the floor of an account, and answers the number that its key had. Where there is no memory nothing has
    /// changed.
    pub(crate) fn enter_account_floor(
        &mut self,
        account: Account,
        stamp: Stamp,
    ) -> Result<Option<u64>, AllocError>
        requires fits { spec.own_floor_in self.old (OfAccount account) ≤ stamp.at }
        ensures before { IfOk result (λ before.
            before ≡ spec.number_at self.old (FloorOf (OfAccount account))) }
        ensures entered { OnOk result
            (IsEntered self.old stamp.number (AccountFloor account stamp.at) self.new) }
        ensures refused { OnErr result (self.new ≡ self.old) }
    {
        let before = exchange(&mut self.accounts, account, stamp)?;
        Ok(number_of(&before))
    }

    /// Takes the own floor of a buffer out where it isn't above a floor that the account has reached, and answers the
    /// number of its piece. None where the buffer has no such floor. It takes no memory.
    pub fn remove_floor_to(&mut self, buffer: &Buffer, floor: Moment) -> Option<u64>
        requires reached { floor ≤ spec.own_floor_in self.old (OfAccount buffer.now.account) }
        ensures one { IfSome result (λ n. TakesFloor self.old buffer.now floor n self.new) }
        ensures done { result ≡ None → HasNoFloorTo buffer.now floor self.new }
        ensures kept { result ≡ None → self.new ≡ self.old }
    {
        let held = self.held.get_mut(buffer)?;
        take_floor_to(&mut held.floor, floor)
    }

    /// All buffers of an account of which something is held, as clones that share their memory, in no particular order.
    ///
    /// It looks at no buffer of another account but at the nearest on either side, where its walks end.
    pub fn buffers_of(&self, alloc: Global, account: &Account) -> Result<Vec<Buffer>, AllocError>
        ensures { IfOk result (λ buffers. AreBuffersOf self.now account.now buffers.items) }
    {
        // the buffers of an account stand side by side, so the others lie right below any one of them and right above
        let middle = some_buffer_of(alloc, account)?;
        let mut buffers = Vec::new(alloc);
        let mut below = self.held.range(..&middle);
        while push_of(account, below.next_back(), &mut buffers)? {}
        let mut above = self.held.range(&middle..);
        while push_of(account, above.next(), &mut buffers)? {}
        Ok(buffers)
    }
}

// Adds the buffer of an entry where it is of an account. The answer is whether it is.
fn push_of(
    account: &Account,
    entry: Option<(&Buffer, &Held)>,
    buffers: &mut Vec<Buffer>,
) -> Result<bool, AllocError>
    ensures { IfOk result (IsAddedOf account.now (option_map (λ e. e.0.now) entry.entry)
        buffers.old.items buffers.new.items) }
{
    match entry {
        Some((buffer, _)) if buffer.owner().is_same(account) => {
            buffers.push(buffer.try_clone()?)?;
            Ok(true)
        }
        _ => Ok(false),
    }
}

// A buffer of an account, of which nothing need be held. It fails for want of memory alone.
fn some_buffer_of(alloc: Global, account: &Account) -> Result<Buffer, AllocError>
    ensures { IfOk result (λ b. b.account ≡ account.now) }
{
    match Buffer::new(alloc, account.name(), b"-", b"-") {
        Ok(buffer) => Ok(buffer),
        Err(ChangeFault::NoMemory) => Err(AllocError),
        Err(_) => unreachable!(),
    }
}
