//! The internal records of a file, read through an area.
#![tactic(auto)]

mod aedr;
mod cdr;
mod cpr;
mod cvvr;
mod field;
mod gdr;
pub mod laws;
mod name;
mod numbers;
mod steps;
mod stored;
mod uir;
mod vdr;
mod vxr;

pub use aedr::{Aedr, read_aedr};
pub use cdf_fields::{
    set_adr_max_gr_entry, set_adr_max_z_entry, set_adr_name, set_cdr_encoding, set_cdr_flags,
    set_cdr_gdr_offset, set_cvvr_c_size, set_gdr_eof, set_gdr_r_max_rec, set_gdr_r_num_dims,
    set_record_size, set_record_type, set_signed4, set_signed8, set_uir_next_uir, set_uir_prev_uir,
    set_unsigned4, set_unsigned8, set_vdr_blocking_factor, set_vdr_cpr_or_spr_offset,
    set_vdr_flags, set_vdr_max_rec, set_vdr_name, set_vdr_num, set_vdr_s_records, set_vdr_vxr_head,
    set_vdr_vxr_tail, set_vxr_n_used_entries, set_vxr_vxr_next,
};
pub use cdr::{Cdr, read_cdr};
pub use cpr::{Cpr, read_cpr};
pub use cvvr::{Cvvr, read_cvvr};
pub use gdr::{Gdr, read_gdr};
pub use name::read_name;
pub use numbers::{read_nums, read_signed4, read_unsigned4, read_unsigned8};
pub use steps::Steps;
pub use stored::{read_bytes, read_encoding};
pub use uir::{Uir, read_uir};
pub use vdr::{Vdr, read_vdr};
pub use vxr::{Vxr, read_vxr};
