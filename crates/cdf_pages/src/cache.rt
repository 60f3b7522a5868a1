//! The pages of the file that were read, as many as are kept.

ghost use Rattle.std.specs.Prelude.{◌≡◌, ◌<◌, ◌^◌, [], length, nat_eq, Some, OnOk, OnErr, IfOk, slice_get};
ghost use Rattle.std.specs.Option.{is_some, option_map};
ghost use Rattle.std.specs.Map.Iter.{deref_pair};
ghost use Rattle.std.specs.Map.{lookup, remove_entry};
ghost use Rattle.lru.specs.LruCache.{IsValid, lru_cache, promoted, put_entries};

use crate::page::{PAGE, Page};
use lru::LruCache;
use std::alloc::{AllocError, Global};
use std::marker::Model;
use std::num::NonZeroUsize;

/// How many pages that were only read are kept.
const CLEAN_PAGES: usize = 256;

/// At most 256 pages by their numbers, the one that was used last in front. `None` stands for one that the device lends, of which
/// no bytes are kept.
#[derive(Drop)]
pub struct Cache {
    pages: LruCache<u64, Option<Page>>,
    /// The page that left last, whose memory serves the next one that is read.
    spare: Option<Page>,
}

impl Model for Cache {
    ghost use Rattle.std.specs.Prelude.{◌≡◌, ℕ, List, Option};
    ghost use Rattle.lru.specs.LruCache.{LruCache};

    ghost Value = { LruCache ℕ (Option (List ℕ)) };

    ghost view = { λ cache. cache.pages };
}

impl Cache {
    /// No page.
    pub fn new(alloc: Global) -> Result<Cache, AllocError>
        ensures { IfOk result (λ cache. cache ≡ lru_cache [] 256) }
    {
        let cap = NonZeroUsize::new(CLEAN_PAGES).unwrap();
        let pages = LruCache::new(alloc, cap)?;
        Ok(Cache { pages, spare: None })
    }

    /// How many pages there are.
    pub fn len(&self) -> usize
        ensures len { result ≡ length self.now.entries }
        ensures fits { result < 2 ^ 63 }
        ensures valid { IsValid nat_eq self.now }
    {
        self.pages.len()
    }

    /// Brings a page to the front, and says whether it is there.
    pub fn promote(&mut self, number: &u64) -> bool
        ensures value { result ≡ is_some (lookup (nat_eq number.now) self.old.entries) }
        ensures entries { self.new ≡ lru_cache (promoted (nat_eq number.now) self.old.entries) self.old.cap }
    {
        self.pages.promote(number)
    }

    /// The page in front.
    pub fn first(&self) -> Option<(&u64, &Option<Page>)>
        ensures { option_map deref_pair result ≡ slice_get self.now.entries 0 }
    {
        self.pages.peek_mru()
    }

    /// Takes a page out.
    pub fn pop(&mut self, number: &u64) -> Option<Option<Page>>
        ensures value { result ≡ lookup (nat_eq number.now) self.old.entries }
        ensures entries { self.new ≡ lru_cache (remove_entry (nat_eq number.now) self.old.entries) self.old.cap }
    {
        self.pages.pop(number)
    }

    /// Puts a page in front, and lets the last one go where there are too many.
    pub fn put(&mut self, number: u64, page: Option<Page>) -> Result<(), AllocError>
        ensures entries { OnOk result (self.new ≡ lru_cache (put_entries nat_eq self.old number page) self.old.cap) }
        ensures err { OnErr result (self.new ≡ self.old) }
    {
        if let Some((_, Some(last))) = self.pages.push(number, page)? {
            self.spare = Some(last);
        }
        Ok(())
    }

    /// Bytes for a page, whatever they are: those of the page that left last, or new ones.
    pub fn room(&mut self, alloc: Global) -> Result<Vec<u8>, AllocError>
        ensures size { IfOk result (λ bytes. length bytes.items ≡ 65536) }
        ensures stays { self.new ≡ self.old }
    {
        match self.spare.take() {
            Some(page) => Ok(page.into_bytes()),
            None => {
                let mut bytes = Vec::new(alloc);
                bytes.resize(PAGE as usize, 0)?;
                Ok(bytes)
            }
        }
    }
}
