//! Bytes and numbers to measure with.

use std::alloc::{AllocError, Global};

/// How many words of 8 bytes are of one kind.
const STRETCH: usize = 32;

/// Numbers that look random, by SplitMix64.
#[derive(Drop)]
pub struct Random {
    state: u64,
}

impl Random {
    pub fn new(seed: u64) -> Random {
        Random { state: seed }
    }

    pub fn next(&mut self) -> u64 {
        self.state = self.state.wrapping_add(0x9e37_79b9_7f4a_7c15);
        let mixed = (self.state ^ (self.state >> 30)).wrapping_mul(0xbf58_476d_1ce4_e5b9);
        let mixed = (mixed ^ (mixed >> 27)).wrapping_mul(0x94d0_49bb_1331_11eb);
        mixed ^ (mixed >> 31)
    }
}

/// A word of a stretch: of zeros, of data, or of both, where an even number makes a word of zeros.
fn word_of(kind: u64, number: u64) -> u64 {
    match kind {
        0 => 0,
        1 => number,
        _ => number * (number % 2),
    }
}

/// Zeros and data in turn, in whole words of 8 bytes.
pub fn mixed(alloc: Global, size: usize) -> Result<Vec<u8>, AllocError> {
    let mut random = Random::new(1);
    let mut kind = 0;
    let mut bytes = Vec::with_capacity(alloc, size)?;
    for index in 0..size / 8 {
        if index % STRETCH == 0 {
            kind = random.next() % 4;
        }
        bytes.extend_from_slice(&word_of(kind, random.next()).to_le_bytes())?;
    }
    Ok(bytes)
}

/// A number that depends on each byte and its place.
pub fn sum_of(bytes: &[u8]) -> u64 {
    let mut sum = 0u64;
    for byte in bytes {
        sum = sum.wrapping_mul(31).wrapping_add(u64::from(*byte));
    }
    sum
}
