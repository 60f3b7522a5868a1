//! The shape of a record, and its size.

ghost use Rattle.std.specs.Prelude.{◌≡◌, ◌≤◌, ◌*◌, ◌-◌, ◌^◌, length, min};
ghost use Rattle.std.specs.Option.{SomeIff};
ghost use Rattle.cdf_model.specs.Place.{record_limit, record_size, value_count};

use cdf_model::limits::RECORD_LIMIT;
use cdf_model::{DataType, Nums, Varys};

/// What a record of a variable holds: a value for each combination of indices of the dimensions that vary.
#[derive(Drop)]
pub struct Shape {
    /// The type of the elements of a value, and their number.
    pub t: DataType,
    pub elems: u32,
    /// The size of each dimension, and whether it varies.
    pub dims: Nums,
    pub varys: Varys,
}

/// The number of bytes of a record; none where it is more than a record can have.
pub fn record_bytes(shape: &Shape) -> Option<u64>
    requires { length shape.now.varys ≡ length shape.now.dims }
    ensures { let size = record_size shape.now.t shape.now.elems shape.now.dims shape.now.varys in
        SomeIff result (size ≤ record_limit) size }
{
    let value_bytes = u64::from(shape.t.size()) * u64::from(shape.elems);
    let bytes = times_varying(value_bytes, shape.dims.as_slice(), shape.varys.as_slice());
    (bytes <= RECORD_LIMIT).then_some(bytes)
}

/// A number times the sizes that vary, or the greatest u64 where that is less. A size of 0 makes it 0, whatever stands before.
fn times_varying(number: u64, dims: &[u32], varys: &[bool]) -> u64
    requires { length varys.now ≡ length dims.now }
    ensures { result ≡ min (number * value_count dims.now varys.now) (2 ^ 64 - 1) }
{
    let mut product = number;
    for (size, varies) in dims.iter().zip(varys) {
        if *varies {
            product = product.saturating_mul(u64::from(*size));
        }
    }
    product
}
