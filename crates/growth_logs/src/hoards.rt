//! Memory that is used up.

use std::alloc::{AllocError, Global};

/// How many blocks a hoard has room for.
const MOST_BLOCKS: usize = 200_000;

/// How many bytes a hoard takes at most: so that it ends where memory does not run out.
const MOST_BYTES: usize = 1 << 28;

/// The sizes of the blocks, one after another.
const SIZES: [usize; 8] = [
    1 << 22,
    1 << 18,
    1 << 14,
    1 << 10,
    1 << 8,
    1 << 6,
    1 << 4,
    1,
];

/// Memory that nobody else gets. Its own room is taken at first.
#[derive(Drop)]
pub struct Hoard {
    blocks: Vec<Vec<u8>>,
    bytes: usize,
}

impl Hoard {
    /// One that has taken nothing.
    pub fn new(alloc: Global) -> Result<Hoard, AllocError> {
        Ok(Hoard {
            blocks: Vec::with_capacity(alloc, MOST_BLOCKS)?,
            bytes: 0,
        })
    }

    /// Takes memory until none is given, and says whether not a byte is given then.
    pub fn take_all(&mut self, alloc: Global) -> bool {
        for size in SIZES {
            self.take(alloc, size);
        }
        let byte: Result<Vec<u8>, AllocError> = Vec::with_capacity(alloc, 1);
        byte.is_err()
    }

    /// Takes blocks of this size until one is refused.
    fn take(&mut self, alloc: Global, size: usize) {
        for _ in 0..MOST_BLOCKS {
            if self.blocks.len() >= MOST_BLOCKS || self.bytes >= MOST_BYTES {
                return;
            }
            let Ok(block) = Vec::with_capacity(alloc, size) else {
                return;
            };
            if self.blocks.push(block).is_err() {
                return;
            }
            self.bytes = self.bytes.saturating_add(size);
        }
    }
}
