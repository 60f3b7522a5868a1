//! The value that stands where none was written.

ghost use Rattle.std.specs.Prelude.{◌≡◌, ◌*◌, length};
ghost use Rattle.cdf_model.specs.Pads.{default_element, default_value};
ghost use Rattle.cdf_model.specs.Types.{size_of};

use crate::DataType;

/// The element that stands where none was written, in network order.
fn default_element(t: DataType) -> &'static [u8]
    ensures { result.now ≡ default_element t }
{
    match t {
        DataType::Int1 | DataType::Byte => &[0x81],
        DataType::Int2 => &[0x80, 0x01],
        DataType::Int4 => &[0x80, 0, 0, 0x01],
        DataType::Int8 | DataType::TimeTt2000 => &[0x80, 0, 0, 0, 0, 0, 0, 0x01],
        DataType::UInt1 => &[0xfe],
        DataType::UInt2 => &[0xff, 0xfe],
        DataType::UInt4 => &[0xff, 0xff, 0xff, 0xfe],
        DataType::Real4 | DataType::Float => &[0xf1, 0x49, 0xf2, 0xca],
        DataType::Real8 | DataType::Double => &[0xc6, 0x29, 0x3e, 0x59, 0x39, 0xa0, 0x8c, 0xea],
        DataType::Epoch => &[0; 8],
        DataType::Epoch16 => &[0; 16],
        DataType::Char | DataType::UChar => b" ",
    }
}

/// Writes the value that stands where none was written, of `elems` elements in network order.
pub fn default_pad(t: DataType, elems: u32, out: &mut [u8])
    requires { length out.old ≡ elems * size_of t }
    ensures { out.new ≡ default_value t elems }
{
    let element = default_element(t);
    let size = element.len();
    for i in 0..elems as usize {
        out[i * size..(i + 1) * size].copy_from_slice(element);
    }
}
