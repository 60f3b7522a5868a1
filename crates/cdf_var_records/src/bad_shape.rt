//! Which shapes the records of a variable may not have.

ghost use Rattle.std.specs.Prelude.{◌≡◌, ◌&&◌, ◌||◌, ◌==◌, nat_lt, not};
ghost use Rattle.std.specs.List.{list_any};
ghost use Rattle.cdf_model.specs.Limits.{signed_limit};
ghost use Rattle.cdf_model.specs.Values.{notation_of};
ghost use Rattle.cdf_model.specs.VariableSteps.{are_bad_sizes, is_bad_shape, is_characters};

use cdf_model::DataType;
use cdf_model::limits::{DIMENSION_LIMIT, SIGNED_LIMIT};
use cdf_shape::{Shape, record_bytes};

/// Whether a dimension has no size, or one past 31 bits.
fn has_bad_size(dims: &[u32]) -> bool
    ensures { result ≡ list_any (λ size. (size == 0) || nat_lt signed_limit size) dims.now }
{
    dims.iter().any(|size| *size == 0 || *size > SIGNED_LIMIT)
}

/// Whether there are too many dimensions, or one of a size that it may not have.
pub fn are_bad_sizes(dims: &[u32]) -> bool
    ensures { result ≡ are_bad_sizes dims.now }
{
    dims.len() > DIMENSION_LIMIT as usize || has_bad_size(dims)
}

/// Whether values have no element, or several that are no characters.
fn is_bad_count(t: DataType, elems: u32) -> bool
    ensures { result ≡ ((elems == 0) || (not (elems == 1) && not (is_characters (notation_of t)))) }
{
    match t {
        DataType::Char | DataType::UChar => elems == 0,
        _ => elems != 1,
    }
}

/// Whether no variable may have records of this shape.
pub fn is_bad_shape(shape: &Shape) -> bool
    ensures { result ≡ is_bad_shape shape.now.t shape.now.elems shape.now.dims shape.now.varys }
{
    let (dims, varys) = (shape.dims.as_slice(), shape.varys.as_slice());
    if is_bad_count(shape.t, shape.elems) || are_bad_sizes(dims) || varys.len() != dims.len() {
        return true;
    }
    record_bytes(shape).is_none()
}
