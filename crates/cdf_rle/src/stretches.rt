//! Stretches of zeros and of other bytes.

ghost use Rattle.std.specs.Prelude.{◌≡◌, ◌+◌, ◌≤◌, ◌<◌, length, drop, min, slice_index};
ghost use Rattle.cdf_rle.specs.Stretches.{data_length, zero_length};

/// The most zeros that one pair stands for.
pub const LONGEST_RUN: usize = 256;

/// Where the bytes other than 0 end that begin at a place.
pub fn data_end(bytes: &[u8], from: usize) -> usize
    requires { from ≤ length bytes.now }
    ensures end { result ≡ from + data_length (drop from bytes.now) }
    ensures within { result ≤ length bytes.now }
    ensures further { 0 < slice_index bytes.now from → from < result }
{
    let mut end = from;
    while end < bytes.len() && bytes[end] != 0 {
        end += 1;
    }
    end
}

/// Where the zeros of one pair end that begin at a place.
pub fn run_end(bytes: &[u8], from: usize) -> usize
    requires { from ≤ length bytes.now }
    ensures { result ≡ from + min LONGEST_RUN (zero_length (drop from bytes.now)) }
{
    let limit = from + (bytes.len() - from).min(LONGEST_RUN);
    let mut end = from;
    while end < limit && bytes[end] == 0 {
        end += 1;
    }
    end
}
