//! The bytes of a file in pieces.

ghost use Rattle.std.specs.Prelude.{◌≡◌, ◌+◌, ◌*◌, ◌%◌, ◌≤◌, ◌<◌, [], ◌++◌, length, max, take, drop, OnOk, OnErr, vec_capacity};
ghost use Rattle.cdf_base.specs.Bytes.{put};
ghost use Rattle.cdf_store.specs.Pieces.{Roomed};
ghost use Rattle.cdf_store.specs.Reading.{ReadsPiece};

use crate::copy;
use std::alloc::{AllocError, Global};
use std::marker::Model;

/// How many bytes a piece has.
pub const PIECE: u64 = 65_536;

/// The bytes of a file in pieces of 65,536 bytes, so that a page of that size can become a piece and is not copied.
///
/// Pieces are made before they are written, and the memory of one that has no bytes yet is not touched.
#[derive(Drop)]
pub struct Pieces {
    alloc: Global,
    /// Each is full, but for the last that has bytes and the empty ones behind it.
    list: Vec<Vec<u8>>,
    /// How many bytes there are in all.
    size: u64,
    /// Up to which end there is room for bytes.
    room: u64,
}

impl Model for Pieces {
    ghost use Rattle.std.specs.Prelude.{◌≡◌, ◌*◌, ◌≤◌, length};
    ghost use Rattle.cdf_store.specs.Pieces.{ArePieces, Roomed, joined};

    ghost Value = { Roomed };

    ghost view = { λ a. record { bytes = joined a.list.items; room = a.room } };

    ghost invariant = { λ a. ArePieces a.list.items × (a.size ≡ length (joined a.list.items)) × (a.room ≤ length a.list.items * 65536) };
}

impl Pieces {
    /// No bytes, and no room.
    #[tactic(auto, unfolding(crate::specs::Pieces::ArePieces, crate::specs::Pieces::joined))]
    pub fn new(alloc: Global) -> Pieces
        ensures { result ≡ record { bytes = []; room = 0 } }
    {
        Pieces {
            alloc,
            list: Vec::new(alloc),
            size: 0,
            room: 0,
        }
    }

    /// How many bytes there are.
    pub fn len(&self) -> u64
        ensures { result ≡ length self.now.bytes }
    {
        self.size
    }

    /// Copies bytes from a place on, no further than to the end of a piece, and answers how many.
    pub fn copy_from(&self, place: u64, out: &mut [u8]) -> usize
        ensures { ReadsPiece self.now.bytes place out.new result }
    {
        if place >= self.size {
            return 0;
        }
        copy::copy_from(&self.list[(place / PIECE) as usize], place % PIECE, out)
    }

    /// Bytes that lie in one piece, where they stand.
    pub fn part(&self, place: u64, count: usize) -> &[u8]
        requires inside { place + count ≤ length self.now.bytes }
        requires piece { place % 65536 + count ≤ 65536 }
        ensures { result.now ≡ take count (drop place self.now.bytes) }
    {
        if count == 0 {
            return &[];
        }
        let piece = &self.list[(place / PIECE) as usize];
        let start = (place % PIECE) as usize;
        &piece[start..start + count]
    }

    /// Makes room up to an end.
    #[tactic(auto, using(crate::proofs::Joined::joined_push, crate::proofs::Joined::pieces_push))]
    pub fn reserve(&mut self, end: u64) -> Result<(), AllocError>
        ensures bytes { self.new.bytes ≡ self.old.bytes }
        ensures room { OnOk result (end ≤ self.new.room) }
        ensures kept { self.old.room ≤ self.new.room }
        ensures err { OnErr result (self.new.room ≡ self.old.room) }
    {
        let count = end.div_ceil(PIECE) as usize;
        while self.list.len() < count {
            let piece = Vec::with_capacity(self.alloc, PIECE as usize)?;
            self.list.push(piece)?;
        }
        self.room = self.room.max(end);
        Ok(())
    }

    /// Appends bytes.
    pub fn push(&mut self, bytes: &[u8]) -> Result<(), AllocError>
        requires { length bytes.now ≤ 65536 }
        ensures ok { OnOk result (self.new.bytes ≡ self.old.bytes ++ bytes.now) }
        ensures err { OnErr result (self.new.bytes ≡ self.old.bytes) }
        ensures room { self.old.room ≤ self.new.room }
    {
        let place = self.size;
        let Some(end) = place.checked_add(bytes.len() as u64) else {
            return Err(AllocError);
        };
        self.reserve(end)?;
        self.put_in(place, bytes);
        Ok(())
    }

    /// Puts bytes at a place, where there is room.
    pub fn put_in(&mut self, place: u64, bytes: &[u8])
        requires size { length bytes.now ≤ 65536 }
        requires place { place ≤ length self.old.bytes }
        requires room { place + length bytes.now ≤ self.old.room }
        ensures bytes { self.new.bytes ≡ put self.old.bytes place bytes.now }
        ensures room { self.new.room ≡ self.old.room }
    {
        // Read so that the end, which lies within the room, is known to fit in 64 bits.
        let _ = &self.room;
        let front = bytes.len().min((PIECE - place % PIECE) as usize);
        self.put_within(place, &bytes[..front]);
        self.put_within(place + front as u64, &bytes[front..]);
    }

    /// Puts bytes at a place, where they all lie in one piece.
    fn put_within(&mut self, place: u64, bytes: &[u8])
        requires within { place % 65536 + length bytes.now ≤ 65536 }
        requires place { place ≤ length self.old.bytes }
        requires room { place + length bytes.now ≤ self.old.room }
        ensures bytes { self.new.bytes ≡ put self.old.bytes place bytes.now }
        ensures room { self.new.room ≡ self.old.room }
    {
        if bytes.is_empty() {
            return;
        }
        let at = (place / PIECE) as usize;
        copy::put_in(&mut self.list[at], (place % PIECE) as usize, bytes);
        self.size = self.size.max(place + bytes.len() as u64);
    }

    /// Puts the bytes of a page at a place, where there is room. Where they cover all that a piece has, the page becomes that
    /// piece, and none is copied.
    pub fn put_page(&mut self, place: u64, page: Vec<u8>)
        requires whole { 65536 ≤ vec_capacity page }
        requires size { length page.items ≤ 65536 }
        requires place { place ≤ length self.old.bytes }
        requires room { place + length page.items ≤ self.old.room }
        ensures bytes { self.new.bytes ≡ put self.old.bytes place page.items }
        ensures room { self.new.room ≡ self.old.room }
    {
        let at = (place / PIECE) as usize;
        if place % PIECE == 0 && at < self.list.len() && self.list[at].len() <= page.len() {
            self.size = self.size.max(place + page.len() as u64);
            self.list[at] = page;
        } else {
            self.put_in(place, &page);
        }
    }

    /// Leaves the first `n` bytes. The room stays.
    pub fn truncate(&mut self, n: u64)
        ensures bytes { self.new.bytes ≡ take n self.old.bytes }
        ensures room { self.new.room ≡ self.old.room }
    {
        while self.size > n {
            self.cut_last(n);
        }
    }

    /// Cuts the last piece that has bytes, so that it has at least the first `n` bytes of all.
    fn cut_last(&mut self, n: u64)
        requires { n < length self.old.bytes }
        ensures bytes { self.new.bytes ≡ take (length self.new.bytes) self.old.bytes }
        ensures least { n ≤ length self.new.bytes }
        ensures less { length self.new.bytes < length self.old.bytes }
        ensures room { self.new.room ≡ self.old.room }
    {
        let at = (self.size - 1) / PIECE;
        let end = n.max(at * PIECE);
        self.list[at as usize].truncate((end - at * PIECE) as usize);
        self.size = end;
    }
}
