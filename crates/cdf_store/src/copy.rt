//! Copying a piece of bytes.

ghost use Rattle.std.specs.Prelude.{◌≡◌, ◌+◌, ◌≤◌, length, min, take, vec_len, vec_capacity};
ghost use Rattle.cdf_base.specs.Bytes.{put};
ghost use Rattle.cdf_store.specs.Reading.{ReadsPiece};

/// Copies the front of the bytes to the front of `out`, at most `most`, and answers how many.
pub fn copy_front(bytes: &[u8], most: usize, out: &mut [u8]) -> usize
    ensures count { result ≡ min (min (length out.new) most) (length bytes.now) }
    ensures front { take result out.new ≡ take result bytes.now }
{
    let count = out.len().min(most).min(bytes.len());
    out[..count].copy_from_slice(&bytes[..count]);
    count
}

/// Copies bytes from a place on, and answers how many.
pub fn copy_from(bytes: &[u8], place: u64, out: &mut [u8]) -> usize
    ensures { ReadsPiece bytes.now place out.new result }
{
    if place >= bytes.len() as u64 {
        return 0;
    }
    let room = out.len();
    copy_front(&bytes[place as usize..], room, out)
}

/// Puts bytes at a place, where there is room.
#[tactic(auto, unfolding(cdf_base::specs::Bytes::put))]
pub fn put_in(kept: &mut Vec<u8>, place: usize, bytes: &[u8])
    requires place { place ≤ vec_len kept.old }
    requires room { place + length bytes.now ≤ vec_capacity kept.old }
    ensures items { kept.new.items ≡ put kept.old.items place bytes.now }
    ensures room { vec_capacity kept.old ≤ vec_capacity kept.new }
{
    let over = bytes.len().min(kept.len() - place);
    kept[place..place + over].copy_from_slice(&bytes[..over]);
    kept.extend_from_slice(&bytes[over..]).unwrap();
}
