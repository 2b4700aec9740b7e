//! A reader and a writer that move a few bytes at a time, and fail at some call.
use std::alloc::Global;
use std::io;
use std::io::{ErrorKind, Read, Write};

/// A reader that gives these bytes. At first it gives as many a read as there is room for, and never fails.
#[derive(Drop)]
pub struct BytesReader<'a> {
    rest: &'a [u8],
    most: usize,
    reads_left: usize,
}

impl<'a> BytesReader<'a> {
    /// A reader of all the bytes.
    pub fn new(bytes: &'a [u8]) -> BytesReader<'a> {
        BytesReader {
            rest: bytes,
            most: usize::MAX,
            reads_left: usize::MAX,
        }
    }

    /// It gives so many bytes a read at most, and at least one while there are some.
    pub fn at_most(self, most: usize) -> BytesReader<'a> {
        BytesReader {
            most: most.max(1),
            ..self
        }
    }

    /// It fails at each read once it has made so many (`ErrorKind::BrokenPipe`).
    pub fn failing_after(self, reads: usize) -> BytesReader<'a> {
        BytesReader {
            reads_left: reads,
            ..self
        }
    }
}

impl<'a> Read for BytesReader<'a> {
    fn read(&mut self, buf: &mut [u8]) -> io::Result<usize> {
        if self.reads_left == 0 {
            return Err(io::Error::from(ErrorKind::BrokenPipe));
        }
        let all = self.rest;
        let n = all.len().min(self.most).min(buf.len());
        buf[..n].copy_from_slice(&all[..n]);
        self.rest = &all[n..];
        self.reads_left -= 1;
        Ok(n)
    }
}

/// A reader that is interrupted at each read (`ErrorKind::Interrupted`).
#[derive(Drop)]
pub struct Interrupted {
    reads: u64,
}

impl Interrupted {
    /// A reader that wasn't read yet.
    pub fn new() -> Interrupted {
        Interrupted { reads: 0 }
    }

    /// How often it was read.
    pub fn reads(&self) -> u64 {
        self.reads
    }
}

impl Read for Interrupted {
    fn read(&mut self, _: &mut [u8]) -> io::Result<usize> {
        self.reads = self.reads.saturating_add(1);
        Err(io::Error::from(ErrorKind::Interrupted))
    }
}

/// A writer that keeps the bytes that it takes. At first it takes all that it is given, and never fails.
#[derive(Drop)]
pub struct Sink {
    bytes: Vec<u8>,
    most: usize,
    writes_left: usize,
    flushes_left: usize,
}

impl Sink {
    /// A writer that has no bytes yet.
    pub fn new(alloc: Global) -> Sink {
        Sink {
            bytes: Vec::new(alloc),
            most: usize::MAX,
            writes_left: usize::MAX,
            flushes_left: usize::MAX,
        }
    }

    /// It takes so many bytes a write at most.
    pub fn at_most(self, most: usize) -> Sink {
        Sink { most, ..self }
    }

    /// It fails at each write once it has made so many (`ErrorKind::BrokenPipe`).
    pub fn failing_after(self, writes: usize) -> Sink {
        Sink {
            writes_left: writes,
            ..self
        }
    }

    /// It fails at each flush once it has made so many (`ErrorKind::BrokenPipe`).
    pub fn failing_after_flushes(self, flushes: usize) -> Sink {
        Sink {
            flushes_left: flushes,
            ..self
        }
    }

    /// The bytes that it has taken.
    pub fn bytes(&self) -> &[u8] {
        self.bytes.as_slice()
    }
}

impl Write for Sink {
    fn write(&mut self, buf: &[u8]) -> io::Result<usize> {
        if self.writes_left == 0 {
            return Err(io::Error::from(ErrorKind::BrokenPipe));
        }
        let n = buf.len().min(self.most);
        match self.bytes.extend_from_slice(&buf[..n]) {
            Ok(()) => {
                self.writes_left -= 1;
                Ok(n)
            }
            Err(_) => Err(io::Error::from(ErrorKind::OutOfMemory)),
        }
    }

    fn flush(&mut self) -> io::Result<()> {
        if self.flushes_left == 0 {
            return Err(io::Error::from(ErrorKind::BrokenPipe));
        }
        self.flushes_left -= 1;
        Ok(())
    }
}
