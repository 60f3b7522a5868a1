//! The fields of internal records, written one at a time through an area.
#![tactic(auto)]

mod adr;
mod any;
mod cdr;
mod cvvr;
mod gdr;
pub mod laws;
mod name;
mod uir;
mod vdr;
mod vxr;
mod width;

pub use adr::{set_adr_max_gr_entry, set_adr_max_z_entry, set_adr_name};
pub use any::{set_record_size, set_record_type};
pub use cdr::{set_cdr_encoding, set_cdr_flags, set_cdr_gdr_offset};
pub use cvvr::set_cvvr_c_size;
pub use gdr::{set_gdr_eof, set_gdr_r_max_rec, set_gdr_r_num_dims};
pub use name::padded;
pub use uir::{set_uir_next_uir, set_uir_prev_uir};
pub use vdr::{
    set_vdr_blocking_factor, set_vdr_cpr_or_spr_offset, set_vdr_flags, set_vdr_max_rec,
    set_vdr_name, set_vdr_num, set_vdr_s_records, set_vdr_vxr_head, set_vdr_vxr_tail,
};
pub use vxr::{set_vxr_n_used_entries, set_vxr_vxr_next};
pub use width::{set_signed4, set_signed8, set_unsigned4, set_unsigned8};
