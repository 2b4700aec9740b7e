//! A boxed attachment of any kind is an attachment.
use crate::attachment::{Attachment, Overrun};

/// An attachment of any kind, which may cross threads. The caller makes the box.
pub type Boxed = Box<dyn Attachment + Send>;

impl Attachment for Box<dyn Attachment + Send> {
    ghost state = { λ b. (Attachment-box b).state b.value };

    fn place(&self) -> usize {
        (**self).place()
    }

    fn owed(&self) -> usize {
        (**self).owed()
    }

    fn bound(&self) -> usize {
        (**self).bound()
    }

    fn offer(&mut self, line: &[u8]) -> Result<(), Overrun> {
        (**self).offer(line)
    }

    fn flush_into(&mut self, out: &mut [u8]) -> usize {
        (**self).flush_into(out)
    }

    fn first_owed(&self) -> &[u8] {
        (**self).first_owed()
    }

    fn settle(&mut self, count: usize) {
        (**self).settle(count);
    }
}
