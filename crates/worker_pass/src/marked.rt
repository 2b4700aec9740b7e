//! Buffers whose read markers peers set.
use chat_change::Buffer;
use std::alloc::Global;
use std::collections::VecDeque;

/// The buffers of read markers, each once, in their order.
#[derive(Drop)]
pub(crate) struct MarkedBuffers {
    buffers: VecDeque<Buffer>,
}

impl MarkedBuffers {
    /// None.
    pub(crate) fn new(alloc: Global) -> MarkedBuffers {
        MarkedBuffers {
            buffers: VecDeque::new(alloc),
        }
    }

    /// Notes a buffer, once. Where there is no memory, it is left out.
    pub(crate) fn note(&mut self, buffer: &Buffer) {
        if self.buffers.iter().any(|noted| noted.is_same(buffer)) {
            return;
        }
        if let Ok(buffer) = buffer.try_clone() {
            let _ = self.buffers.push_back(buffer);
        }
    }

    /// Takes the first one out.
    pub(crate) fn next(&mut self) -> Option<Buffer> {
        self.buffers.pop_front()
    }
}
