//! The bytes of one page.

ghost use Rattle.std.specs.Prelude.{◌≡◌, ◌+◌, ◌-◌, ◌≤◌, length, take, drop};
ghost use Rattle.cdf_area.specs.OldBytes.{AllLieBelow, back};
ghost use Rattle.cdf_base.specs.Bytes.{put};

use cdf_area::UndoLog;
use std::marker::Model;

/// How many bytes a page has.
pub const PAGE: u64 = 65_536;

/// The bytes of a page, which may reach past the end of the image. What it has there says nothing.
#[derive(Drop)]
pub struct Page {
    bytes: Vec<u8>,
}

impl Model for Page {
    ghost use Rattle.std.specs.Prelude.{◌≡◌, ℕ, List, length};

    ghost Value = { List ℕ };

    ghost view = { λ page. page.bytes.items };

    ghost invariant = { λ page. length page.bytes.items ≡ 65536 };
}

impl Page {
    /// These bytes.
    pub fn new(bytes: Vec<u8>) -> Page
        requires { length bytes.items ≡ 65536 }
        ensures { result ≡ bytes.items }
    {
        Page { bytes }
    }

    /// The bytes.
    pub fn into_bytes(self) -> Vec<u8>
        ensures bytes { result.items ≡ self }
        ensures size { length result.items ≡ 65536 }
    {
        self.bytes
    }

    /// Puts old bytes back, the last first.
    #[tactic(auto, using(crate::proofs::Covered::length_back))]
    pub fn put_back(&mut self, log: UndoLog)
        requires { AllLieBelow 65536 log }
        ensures { self.new ≡ back log self.old }
    {
        log.put_back(&mut self.bytes);
    }

    /// Writes bytes over those from a place on.
    #[tactic(auto, unfolding(cdf_base::specs::Bytes::put))]
    pub fn write(&mut self, place: usize, bytes: &[u8])
        requires { place + length bytes.now ≤ 65536 }
        ensures written { self.new ≡ put self.old place bytes.now }
        ensures whole { length self.old ≡ 65536 }
    {
        let end = place + bytes.len();
        self.bytes[place..end].copy_from_slice(bytes);
    }

    /// Copies the bytes from a place on.
    pub fn read(&self, place: usize, out: &mut [u8])
        requires { place + length out.old ≤ 65536 }
        ensures bytes { out.new ≡ take (length out.old) (drop place self.now) }
        ensures size { length out.new ≡ length out.old }
        ensures whole { length self.now ≡ 65536 }
    {
        out.copy_from_slice(&self.bytes[place..place + out.len()]);
    }

    /// The bytes from a place up to another.
    pub fn piece(&self, from: usize, upto: usize) -> &[u8]
        requires order { from ≤ upto }
        requires room { upto ≤ 65536 }
        ensures bytes { result.now ≡ take (upto - from) (drop from self.now) }
        ensures size { length result.now ≡ upto - from }
        ensures whole { length self.now ≡ 65536 }
    {
        &self.bytes[from..upto]
    }

    /// The first bytes.
    pub fn front(&self, count: usize) -> &[u8]
        requires { count ≤ 65536 }
        ensures bytes { result.now ≡ take count self.now }
        ensures size { length result.now ≡ count }
        ensures whole { length self.now ≡ 65536 }
    {
        &self.bytes[..count]
    }
}
