//! A worker's attachments, each under a key.
ghost use Rattle.std.specs.Prelude.{◌≡◌, ◌++◌, ◌↔◌, None, Some, IfOk, IfErr, OnOk, OnErr, length, IfSome, IfNone, IsSomeAnd, min, take, drop};
ghost use Rattle.attach.specs.Attachment.{Exceeds, with_line, without_first};
ghost use Rattle.attach.specs.Hall.{Changes};
ghost use Rattle.std.specs.FinMap as map;

use crate::attachment::{Attachment, Overrun};
use crate::boxed::Boxed;
use slab::Slab;
use std::alloc::Global;
use std::marker::Model;
use thiserror::Error;

/// Why a hall refused a line.
#[derive(Debug, Drop, PartialEq, Error)]
pub enum HallFault {
    /// No attachment is under the key.
    #[error("no attachment is under the key")]
    NoSuch,
    /// What is owed and the line together exceed the attachment's bound. It is still there, unchanged.
    #[error("the line and the bytes that are owed exceed the bound")]
    Overrun,
}

impl From<Overrun> for HallFault {
    ghost use Rattle.std.specs.Prelude.{◌≡◌};
    ghost use Rattle.attach.specs.declared.hall.HallFault.{HallFault};

    ghost from_gives = { λ _ fault. fault ≡ HallFault.Overrun };

    fn from(_: Overrun) -> HallFault {
        HallFault::Overrun
    }
}

/// Attachments under keys that the hall picks. A contract sees the finite map from keys to attachments.
#[derive(Drop)]
pub struct Hall<X = Boxed> {
    attachments: Slab<X>,
}

impl<X> Model for Hall<X> {
    ghost use Rattle.std.specs.Ordering.{nat_cmp};
    ghost use Rattle.std.specs.Coded.{coded_ℕ};
    ghost use Rattle.std.specs.FinMap.{FinMap, code};
    ghost use Rattle.attach.specs.Hall.{value_of};

    ghost Value = { FinMap nat_cmp X };

    ghost coded = { code coded_ℕ X.code };

    ghost view = { λ h. value_of h.attachments };
}

impl<X: Attachment> Hall<X> {
    /// An empty hall, which takes its memory from that allocator as attachments are added. Takes none itself.
    pub fn new(alloc: Global) -> Hall<X>
        ensures { result ≡ map.empty }
    {
        Hall {
            attachments: Slab::new(alloc),
        }
    }

    /// Puts an attachment under a vacant key and answers the key. It is handed back where there was no memory.
    pub fn add(&mut self, attachment: X) -> Result<usize, X>
        ensures vacant { IfOk result (λ key. map.get self.old key ≡ None) }
        ensures added { IfOk result (λ key. self.new ≡ map.insert self.old key attachment) }
        ensures err { IfErr result (λ back. (back ≡ attachment) × (self.new ≡ self.old)) }
    {
        match self.attachments.insert(attachment) {
            Ok(key) => Ok(key),
            Err(failed) => Err(failed.value),
        }
    }

    /// Offers a line to the attachment under this key, which appends all of it to what is owed, or nothing.
    /// Takes no memory.
    pub fn offer(&mut self, key: usize, line: &[u8]) -> Result<(), HallFault>
        ensures no_such { (result ≡ Err HallFault.NoSuch) ↔ (map.get self.old key ≡ None) }
        ensures overrun { (result ≡ Err HallFault.Overrun)
            ↔ IsSomeAnd (map.get self.old key) (λ a. Exceeds (X.state a) line.now) }
        ensures ok { OnOk result (Changes self.old self.new key
            (λ a b. X.state b ≡ with_line (X.state a) line.now)) }
        ensures err { OnErr result (self.new ≡ self.old) }
    {
        let Some(attachment) = self.attachments.get_mut(key) else {
            return Err(HallFault::NoSuch);
        };
        attachment.offer(line)?;
        Ok(())
    }

    /// Moves the first bytes that are owed under this key to the start of `out`, as many as fit, and answers
    /// their number. `None` where the key is vacant.
    pub fn flush_into(&mut self, key: usize, out: &mut [u8]) -> Option<usize>
        ensures none { (result ≡ None) ↔ (map.get self.old key ≡ None) }
        ensures count { IfSome result (λ n. IsSomeAnd (map.get self.old key)
            (λ a. n ≡ min (length out.old) (length (X.state a).owed))) }
        ensures moved { IfSome result (λ n. IsSomeAnd (map.get self.old key)
            (λ a. out.new ≡ take n (X.state a).owed ++ drop n out.old)) }
        ensures left { IfSome result (λ n. Changes self.old self.new key
            (λ a b. X.state b ≡ without_first (X.state a) n)) }
        ensures absent { IfNone result ((self.new ≡ self.old) × (out.new ≡ out.old)) }
    {
        let Some(attachment) = self.attachments.get_mut(key) else {
            return None;
        };
        let count = attachment.flush_into(out);
        Some(count)
    }

    /// Takes the attachment out from under this key. `None` where the key is vacant.
    pub fn remove(&mut self, key: usize) -> Option<X>
        ensures removed { result ≡ map.get self.old key }
        ensures left { self.new ≡ map.remove self.old key }
    {
        self.attachments.try_remove(key)
    }
}
