// Bytes that wait: they are put at the back and taken from the front.
ghost use Rattle.std.specs.Prelude.{◌≤◌, length, vec_len};

use std::alloc::{AllocError, Global};

/// Bytes in order. Those that were taken stay in memory until it is emptied.
#[derive(Drop)]
pub(crate) struct Buffer {
    bytes: Vec<u8>,
    taken: usize,
    ghost within: { taken ≤ vec_len bytes },
}

impl Buffer {
    /// A buffer with no bytes.
    pub(crate) fn new(alloc: Global) -> Buffer {
        Buffer {
            bytes: Vec::new(alloc),
            taken: 0,
        }
    }

    /// The bytes that wait.
    pub(crate) fn rest(&self) -> &[u8] {
        &self.bytes[self.taken..]
    }

    /// Puts bytes behind those that wait. `AllocError`: none was put.
    pub(crate) fn put(&mut self, bytes: &[u8]) -> Result<(), AllocError> {
        self.bytes.extend_from_slice(bytes)
    }

    /// Takes as many bytes, or all where fewer wait.
    pub(crate) fn pass(&mut self, count: usize) {
        self.taken = self.taken.saturating_add(count).min(self.bytes.len());
    }

    /// Takes as many bytes as there is room for, and answers how many.
    pub(crate) fn give(&mut self, into: &mut [u8]) -> usize
        ensures bound { result ≤ length into.new }
    {
        let rest = &self.bytes[self.taken..];
        let count = into.len().min(rest.len());
        into[..count].copy_from_slice(&rest[..count]);
        self.taken += count;
        count
    }

    /// Takes all bytes, and makes room.
    pub(crate) fn clear(&mut self) {
        self.taken = 0;
        self.bytes.clear();
    }
}
