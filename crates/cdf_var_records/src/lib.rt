//! What is read of one variable: what is told of it, how its records are laid out, what each reads as, which is stored next, and whether there is room for a put of one.
#![tactic(auto)]

mod bad_shape;
mod extent;
mod form;
mod next;
mod packed_room;
mod pad_place;
mod previous;
mod put_room;
mod record;
mod unpacked;
mod variable;

pub use bad_shape::{are_bad_sizes, is_bad_shape};
pub use extent::read_extent;
pub use form::{Form, read_dims, read_form, read_majority};
pub use next::{RecordReader, Stored};
pub use pad_place::{PadPlace, descriptor_size, read_pad_place};
pub use previous::last_before;
pub use put_room::{has_put_room, read_block_count, read_first_written};
pub use record::{
    is_out_of_range, read_pad_record, read_record, record_size_of, value_size, values_of,
};
pub use unpacked::Unpacked;
pub use variable::{read_sparse, read_variable};
