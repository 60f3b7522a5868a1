//! Reads packed bytes.

ghost use Rattle.std.specs.Prelude.{◌≡◌, ◌↔◌, ℕ, false, length, IsOk, IsTrue, MatchResult, OnOk};
ghost use Rattle.cdf_model.specs.RunLengths.{Packs, is_cut, plain_of};
ghost use Rattle.cdf_rle.specs.Filling.{Fills, IsMisfit, PassesEnd, StopsShort};

use crate::stretches::data_end;

/// Why packed bytes do not stand for as many bytes as were asked for.
#[derive(Clone, Copy, Debug, PartialEq, Eq)]
pub enum RleError {
    /// A last 0 has no count.
    Cut,
    /// They stand for more, and the item at this place of them is the first that passes the end.
    TooLong { at: u64 },
    /// They stand for only so many.
    TooShort { got: u64 },
}

/// Reads packed bytes into `out`, which they must fill. After an error `out` may hold anything.
pub fn decode_into(bytes: &[u8], out: &mut [u8]) -> Result<(), RleError>
    ensures ok { IsOk result ↔ Fills bytes.now (length out.old) }
    ensures filled { OnOk result (Packs bytes.now out.new) }

    // A last 0 without a count is told whatever else is wrong.
    ensures cut { (result ≡ Err RleError.Cut) ↔ IsTrue (is_cut bytes.now) }
    ensures too_long { (at : ℕ) → (result ≡ Err (RleError.TooLong at)) ↔ PassesEnd bytes.now (length out.old) at }
    ensures too_short { (got : ℕ) → (result ≡ Err (RleError.TooShort got)) ↔ StopsShort bytes.now (length out.old) got }
{
    if lacks_count(bytes) {
        return Err(RleError::Cut);
    }
    unpack_into(bytes, out)
}

/// Whether a last 0 has no count. A byte other than 0 ends an item wherever it stands, so the zeros behind the last such
/// byte are pairs, of which the last is not whole where their number is odd.
fn lacks_count(bytes: &[u8]) -> bool
    ensures { result ≡ is_cut bytes.now }
{
    let mut end = bytes.len();
    let mut is_odd = false;
    while end > 0 && bytes[end - 1] == 0 {
        end -= 1;
        is_odd = !is_odd;
    }
    is_odd
}

/// Reads packed bytes in which each 0 has its count.
fn unpack_into(bytes: &[u8], out: &mut [u8]) -> Result<(), RleError>
    requires { is_cut bytes.now ≡ false }
    ensures { MatchResult result (λ _. plain_of bytes.now ≡ out.new) (IsMisfit bytes.now (length out.old)) }
{
    let mut place = 0;
    let mut filled = 0;
    while place < bytes.len() {
        let room = out.len() - filled;
        if bytes[place] == 0 {
            let zeros = bytes[place + 1] as usize + 1;
            if zeros > room {
                return Err(RleError::TooLong { at: place as u64 });
            }
            out[filled..filled + zeros].fill(0);
            filled += zeros;
            place += 2;
        } else {
            let end = data_end(bytes, place);
            let count = end - place;
            if count > room {
                return Err(RleError::TooLong {
                    at: (place + room) as u64,
                });
            }
            out[filled..filled + count].copy_from_slice(&bytes[place..end]);
            filled += count;
            place = end;
        }
    }
    if filled < out.len() {
        return Err(RleError::TooShort { got: filled as u64 });
    }
    Ok(())
}
