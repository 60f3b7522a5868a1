//! What a write of a field leaves: the laws of cdf_fields, handed on.

pub use cdf_fields::laws::{
    field_reads_back, length_stays, name_reads_back, other_bytes_stay, other_words_stay,
    signed4_reads_back, signed8_reads_back, words_beside_a_name_stay, words_outside_stay,
};
