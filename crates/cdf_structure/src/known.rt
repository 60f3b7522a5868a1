//! What is known of indexes that were met, and of their packed blocks.

ghost use Rattle.std.specs.Prelude.{◌≡◌, ℕ, Some, true, None, IsSomeAnd};
ghost use Rattle.cdf_structure.specs.Known.{KeepsRoom, KeepsSize, room_known, size_known};
ghost use Rattle.cdf_structure.specs.Rooms.{Fits};

use crate::room::Room;
use std::alloc::Global;
use std::collections::BTreeMap;

/// By the links to them, the indexes that keep all rules, each with the bytes that a record may take for that. By their places,
/// the packed blocks that were unpacked, each with the number of their plain bytes.
#[derive(Drop)]
pub struct KnownIndexes {
    rooms: BTreeMap<u64, Room>,
    sizes: BTreeMap<u64, u64>,
}

impl KnownIndexes {
    /// Nothing is known.
    pub fn new(alloc: Global) -> KnownIndexes
        ensures rooms { (head : ℕ) → room_known result head ≡ None }
        ensures sizes { (place : ℕ) → size_known result place ≡ None }
    {
        KnownIndexes {
            rooms: BTreeMap::new(alloc),
            sizes: BTreeMap::new(alloc),
        }
    }

    /// Whether the index from a link is known to keep all rules where a record takes so many bytes, of a variable that is compressed or not.
    pub fn has(&self, head: u64, is_compressed: bool, rec_bytes: u64) -> bool
        ensures { result ≡ true → IsSomeAnd (room_known self.now head) (λ room. Fits room is_compressed rec_bytes) }
    {
        match self.rooms.get(&head) {
            Some(room) => room.fits(is_compressed, rec_bytes),
            None => false,
        }
    }

    /// Keeps in mind an index that keeps all rules, where there is memory for it.
    pub fn add(&mut self, head: u64, room: Room)
        ensures { KeepsRoom self.old head room self.new }
    {
        let _kept = self.rooms.insert(head, room);
    }

    /// Whether the packed block at a place is known to stand for so many bytes.
    pub fn has_size(&self, place: u64, size: u64) -> bool
        ensures { result ≡ true → size_known self.now place ≡ Some size }
    {
        match self.sizes.get(&place) {
            Some(known) => *known == size,
            None => false,
        }
    }

    /// Keeps in mind a packed block that was unpacked, where there is memory for it.
    pub fn add_size(&mut self, place: u64, size: u64)
        ensures { KeepsSize self.old place size self.new }
    {
        let _kept = self.sizes.insert(place, size);
    }
}
