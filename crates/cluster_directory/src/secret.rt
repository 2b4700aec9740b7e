//! Secrets of accounts.
ghost use Rattle.std.specs.Prelude.{◌≡◌, ◌↔◌, IfOk, IsTrue};
ghost use Rattle.cluster_directory.specs.Secret as spec;

use byte_text::{NoMemory, Text};
use std::alloc::Global;
use std::marker::Model;

/// A secret. Contracts see it as the list of its bytes.
///
/// No call gives these out: whoever holds a secret learns by [`Secret::differing`] how far a guess is from it, and no more.
/// It has no `Debug` and no `Display`.
#[derive(Drop)]
pub struct Secret {
    text: Text,
}

impl Model for Secret {
    ghost use Rattle.std.specs.Prelude.{ℕ, List};

    ghost Value = { List ℕ };

    ghost view = { λ s. s.text };
}

impl Secret {
    /// The secret of these bytes, without a copy.
    pub fn of(text: Text) -> Secret
        ensures { result ≡ text }
    {
        Secret { text }
    }

    /// An equal secret.
    pub(crate) fn try_clone(&self, alloc: Global) -> Result<Secret, NoMemory>
        ensures { IfOk result (λ copy. copy ≡ self.now) }
    {
        Ok(Secret {
            text: self.text.try_clone(alloc)?,
        })
    }

    /// In how many places what was given differs from the secret: where both have a byte, and another one, and where only
    /// the longer one has a byte.
    ///
    /// No look at the first bytes answers that, so the time that it takes depends on the two lengths, and not on where
    /// the first difference stands.
    pub fn differing(&self, given: &[u8]) -> usize
        ensures { result ≡ spec.differing self.now given.now }
    {
        let secret = self.text.as_bytes();
        let mut differing = secret.len().abs_diff(given.len());
        for i in 0..secret.len().min(given.len()) {
            differing += usize::from(secret[i] != given[i]);
        }
        differing
    }

    /// Whether what was given is the secret.
    pub fn is_same(&self, given: &[u8]) -> bool
        ensures { IsTrue result ↔ (self.now ≡ given.now) }
    {
        self.differing(given) == 0
    }
}
