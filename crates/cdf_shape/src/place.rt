//! The place of a value in a record.

ghost use Rattle.std.specs.Prelude.{◌≡◌, ◌≤◌, length, IsTrue};
ghost use Rattle.cdf_model.specs.Place.{column_place, has_place, place, record_limit, row_place, value_count};

use crate::Shape;
use cdf_model::Majority;

/// The number of the value that an index leads to, counted from 0 within the record; none where the number of indices
/// is not that of the dimensions, or one is not below its size.
pub fn place_of(shape: &Shape, majority: Majority, index: &[u32]) -> Option<u64>
    requires one_each { length shape.now.varys ≡ length shape.now.dims }
    requires fits { value_count shape.now.dims shape.now.varys ≤ record_limit }
    ensures { result ≡ place majority shape.now.dims shape.now.varys index.now }
{
    let (dims, varys) = (shape.dims.as_slice(), shape.varys.as_slice());
    if !has_place(dims, index) {
        return None;
    }
    Some(match majority {
        Majority::Row => row_place(dims, varys, index),
        Majority::Column => column_place(dims, varys, index),
    })
}

fn has_place(dims: &[u32], index: &[u32]) -> bool
    ensures { result ≡ has_place dims.now index.now }
{
    if index.len() != dims.len() {
        return false;
    }
    for (size, i) in dims.iter().zip(index) {
        if i >= size {
            return false;
        }
    }
    true
}

fn row_place(dims: &[u32], varys: &[bool], index: &[u32]) -> u64
    requires one_each { length varys.now ≡ length dims.now }
    requires has { IsTrue (has_place dims.now index.now) }
    requires fits { value_count dims.now varys.now ≤ record_limit }
    ensures { result ≡ row_place dims.now varys.now index.now }
{
    let mut place = 0;
    for k in 0..dims.len() {
        if varys[k] {
            place = place * u64::from(dims[k]) + u64::from(index[k]);
        }
    }
    place
}

fn column_place(dims: &[u32], varys: &[bool], index: &[u32]) -> u64
    requires one_each { length varys.now ≡ length dims.now }
    requires has { IsTrue (has_place dims.now index.now) }
    requires fits { value_count dims.now varys.now ≤ record_limit }
    ensures { result ≡ column_place 1 dims.now varys.now index.now }
{
    let mut place = 0;
    let mut before = 1;
    for k in 0..dims.len() {
        if varys[k] {
            place += u64::from(index[k]) * before;
            before *= u64::from(dims[k]);
        }
    }
    place
}
