//! The byte order of values.

ghost use Rattle.std.specs.Prelude.{◌≡◌, ◌/◌, ◌%◌, ◌<◌, length, reverse};
ghost use Rattle.std.specs.List.{flat_map};
ghost use Rattle.cdf_model.specs.ByteOrder.{parts, turned, unit_of};
ghost use Rattle.cdf_model.specs.Types.{size_of};

use cdf_model::{DataType, Encoding};

/// Turns the elements of an encoding into network order, in place.
pub fn to_network(t: DataType, enc: Encoding, bytes: &mut [u8])
    requires { length bytes.old % size_of t ≡ 0 }
    ensures { bytes.new ≡ turned t enc.little bytes.old }
{
    if enc.little {
        reverse_parts(unit_size(t), bytes);
    }
}

/// Turns elements in network order into those of an encoding, in place.
pub fn from_network(t: DataType, enc: Encoding, bytes: &mut [u8])
    requires { length bytes.old % size_of t ≡ 0 }
    ensures { bytes.new ≡ turned t enc.little bytes.old }
{
    // An element is turned round in either direction.
    to_network(t, enc, bytes);
}

/// How many bytes are turned round together: those of an element, but each half of an EPOCH16 by itself.
fn unit_size(t: DataType) -> usize
    ensures { result ≡ unit_of t }
{
    match t {
        DataType::Epoch16 => 8,
        _ => t.size() as usize,
    }
}

/// Turns round each part of `size` bytes.
fn reverse_parts(size: usize, bytes: &mut [u8])
    requires some { 0 < size }
    requires whole { length bytes.old % size ≡ 0 }
    ensures { bytes.new ≡ flat_map reverse (parts size (length bytes.old / size) bytes.old) }
{
    if size == 1 {
        return;
    }
    for i in 0..bytes.len() / size {
        bytes[i * size..(i + 1) * size].reverse();
    }
}
