//! Writing bytes of an image whose pages are changed ones, which cannot fail.

ghost use Rattle.std.specs.Prelude.{◌≡◌, ◌+◌, ◌*◌, ◌/◌, ◌≤◌, ◌<◌, ◌^◌, ◌⊎◌, ◌++◌, ℕ, List, length, replicate, IsSome, None};
ghost use Rattle.std.specs.Ordering.{nat_cmp};
ghost use Rattle.std.specs.BTreeMap.{get};
ghost use Rattle.cdf_base.specs.Bytes.{put};
ghost use Rattle.cdf_pages.specs.Pages.{Covers, image_of, part_from, part_upto, was};
ghost use Rattle.cdf_pages.specs.Table.{page_at};

use crate::page::PAGE;
use crate::sheets::Sheets;

/// How many zeros are written at once.
const ZEROS: usize = 4096;

/// Writes bytes over those from a place on, page by page.
pub fn write_range(sheets: &mut Sheets, place: u64, bytes: &[u8])
    requires inside { place + length bytes.now ≤ sheets.old.length }
    requires there { (number : ℕ) → place / 65536 ≤ number → number * 65536 < place + length bytes.now → page_at sheets.old.changed number ≡ None → ⊥ }
    requires ready { (number : ℕ) → place / 65536 ≤ number → number * 65536 < place + length bytes.now → IsSome sheets.old.marked → Covers (get nat_cmp sheets.old.kept number) (part_from place number) (part_upto (place + length bytes.now) number) }
    ensures image { (file : List ℕ) → image_of (page_at sheets.new.changed) file sheets.old.length ≡ put (image_of (page_at sheets.old.changed) file sheets.old.length) place bytes.now }
    ensures less { (number : ℕ) → page_at sheets.new.changed number ≡ None → page_at sheets.old.changed number ≡ None }
    ensures others { (other : ℕ) → (other < place / 65536) ⊎ (place + length bytes.now ≤ other * 65536) → page_at sheets.new.changed other ≡ page_at sheets.old.changed other }
    ensures kept { sheets.new.kept ≡ sheets.old.kept }
    ensures was { IsSome sheets.old.marked → (number : ℕ) → was (get nat_cmp sheets.old.kept number) (page_at sheets.new.changed number) ≡ was (get nat_cmp sheets.old.kept number) (page_at sheets.old.changed number) }
    ensures length { sheets.new.length ≡ sheets.old.length }
    ensures marked { sheets.new.marked ≡ sheets.old.marked }
{
    let _size = sheets.length;
    let mut done: usize = 0;
    while done < bytes.len() {
        let start = place + done as u64;
        let number = start / PAGE;
        let within = (start % PAGE) as usize;
        let count = (bytes.len() - done).min(PAGE as usize - within);
        sheets.write(number, within, &bytes[done..done + count]);
        done += count;
    }
}

/// Appends bytes that are 0.
pub fn zero_range(sheets: &mut Sheets, n: u64)
    requires room { sheets.old.length + n < 2 ^ 64 }
    requires there { (number : ℕ) → sheets.old.length / 65536 ≤ number → number * 65536 < sheets.old.length + n → page_at sheets.old.changed number ≡ None → ⊥ }
    requires ready { (number : ℕ) → sheets.old.length / 65536 ≤ number → number * 65536 < sheets.old.length + n → IsSome sheets.old.marked → Covers (get nat_cmp sheets.old.kept number) (part_from sheets.old.length number) (part_upto (sheets.old.length + n) number) }
    ensures image { (file : List ℕ) → image_of (page_at sheets.new.changed) file sheets.new.length ≡ image_of (page_at sheets.old.changed) file sheets.old.length ++ replicate n 0 }
    ensures less { (number : ℕ) → page_at sheets.new.changed number ≡ None → page_at sheets.old.changed number ≡ None }
    ensures others { (other : ℕ) → (other < sheets.old.length / 65536) ⊎ (sheets.old.length + n ≤ other * 65536) → page_at sheets.new.changed other ≡ page_at sheets.old.changed other }
    ensures kept { sheets.new.kept ≡ sheets.old.kept }
    ensures was { IsSome sheets.old.marked → (number : ℕ) → was (get nat_cmp sheets.old.kept number) (page_at sheets.new.changed number) ≡ was (get nat_cmp sheets.old.kept number) (page_at sheets.old.changed number) }
    ensures length { sheets.new.length ≡ sheets.old.length + n }
    ensures marked { sheets.new.marked ≡ sheets.old.marked }
{
    let zeros = [0; ZEROS];
    let place = sheets.length;
    sheets.length = place + n;
    let mut done: u64 = 0;
    while done < n {
        let count = (n - done).min(ZEROS as u64);
        write_range(sheets, place + done, &zeros[..count as usize]);
        done += count;
    }
}
