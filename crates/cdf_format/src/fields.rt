//! Where the fields of internal records stand, in bytes from the beginning of the record, and the types and sizes of records.

ghost use Rattle.std.specs.Prelude.{◌≡◌, ◌∷◌, [], map};
ghost use Rattle.cdf_format.specs.Records.{places, past, magic_version_3, magic_uncompressed, cdr_place, linked_size, record_size, record_type, cdr_gdr_offset, cdr_version, cdr_release, cdr_encoding, cdr_flags, cdr_majority_bit, cdr_single_file_bit, cdr_checksum_bit, cdr_md5_bit, cdr_rfu_a, cdr_rfu_b, cdr_increment, cdr_identifier, cdr_rfu_e, cdr_copyright, gdr_r_vdr_head, gdr_z_vdr_head, gdr_adr_head, gdr_eof, gdr_nr_vars, gdr_num_attr, gdr_r_max_rec, gdr_r_num_dims, gdr_nz_vars, gdr_uir_head, gdr_rfu_c, gdr_leap_second_last_updated, gdr_rfu_e, gdr_r_dim_size, adr_adr_next, adr_agr_edr_head, adr_scope, adr_num, adr_ngr_entries, adr_max_gr_entry, adr_rfu_a, adr_az_edr_head, adr_nz_entries, adr_max_z_entry, adr_rfu_e, adr_name, aedr_aedr_next, aedr_attr_num, aedr_data_type, aedr_num, aedr_num_elems, aedr_num_strings, aedr_rfu_b, aedr_rfu_c, aedr_rfu_d, aedr_rfu_e, aedr_value, vdr_vdr_next, vdr_data_type, vdr_max_rec, vdr_vxr_head, vdr_vxr_tail, vdr_flags, vdr_variance_bit, vdr_pad_bit, vdr_compression_bit, vdr_s_records, vdr_rfu_b, vdr_rfu_c, vdr_rfu_f, vdr_num_elems, vdr_num, vdr_cpr_or_spr_offset, vdr_blocking_factor, vdr_name, vdr_r_dim_vary, vdr_z_num_dims, vdr_z_dim_size, vxr_vxr_next, vxr_n_entries, vxr_n_used_entries, vxr_first, vxr_entry_size, vvr_records, cvvr_rfu_a, cvvr_c_size, cvvr_packed, cpr_c_type, cpr_rfu_a, cpr_p_count, cpr_parameter, uir_next_uir, uir_prev_uir};
ghost use Rattle.cdf_format.specs.RecordTypes.{fixed_size, cdr_type, gdr_type, r_vdr_type, adr_type, agr_edr_type, vxr_type, vvr_type, z_vdr_type, az_edr_type, ccr_type, cpr_type, spr_type, cvvr_type, uir_type};
ghost use Rattle.cdf_format.specs.Sealed.{trailer_size};
ghost use Rattle.cdf_model.specs.Names.{name_limit};

use cdf_model::limits::NAME_LIMIT;

/// The first number of a file of version 3.
pub const MAGIC_VERSION_3: u32 = 0xcdf3_0001;

/// The second number of a file that is not compressed as a whole.
pub const MAGIC_UNCOMPRESSED: u32 = 0x0000_ffff;

/// RecordSize: the bytes of the record.
pub const RECORD_SIZE: u64 = 0;

/// RecordType.
pub const RECORD_TYPE: u64 = 8;

/// GDRoffset: where the Global Descriptor Record stands.
pub const CDR_GDR_OFFSET: u64 = 12;

/// Version.
pub const CDR_VERSION: u64 = 20;

/// Release.
pub const CDR_RELEASE: u64 = 24;

/// Encoding.
pub const CDR_ENCODING: u64 = 28;

/// Flags.
pub const CDR_FLAGS: u64 = 32;

/// The bit of Flags that says that values stand row by row.
pub const CDR_MAJORITY_BIT: u32 = 0;

/// The bit that says that the file is a whole data set.
pub const CDR_SINGLE_FILE_BIT: u32 = 1;

/// The bit that says that there is a checksum.
pub const CDR_CHECKSUM_BIT: u32 = 2;

/// The bit that says that the checksum is MD5.
pub const CDR_MD5_BIT: u32 = 3;

/// rfuA.
pub const CDR_RFU_A: u64 = 36;

/// rfuB.
pub const CDR_RFU_B: u64 = 40;

/// Increment.
pub const CDR_INCREMENT: u64 = 44;

/// Identifier.
pub const CDR_IDENTIFIER: u64 = 48;

/// rfuE.
pub const CDR_RFU_E: u64 = 52;

/// Copyright.
pub const CDR_COPYRIGHT: u64 = 56;

/// rVDRhead: the first r variable.
pub const GDR_R_VDR_HEAD: u64 = 12;

/// zVDRhead: the first z variable.
pub const GDR_Z_VDR_HEAD: u64 = 20;

/// ADRhead: the first attribute.
pub const GDR_ADR_HEAD: u64 = 28;

/// eof: where the image ends.
pub const GDR_EOF: u64 = 36;

/// NrVars: how many r variables there are.
pub const GDR_NR_VARS: u64 = 44;

/// NumAttr: how many attributes there are.
pub const GDR_NUM_ATTR: u64 = 48;

/// rMaxRec.
pub const GDR_R_MAX_REC: u64 = 52;

/// rNumDims: how many dimensions the r variables share.
pub const GDR_R_NUM_DIMS: u64 = 56;

/// NzVars: how many z variables there are.
pub const GDR_NZ_VARS: u64 = 60;

/// UIRhead: the first record of the unused list.
pub const GDR_UIR_HEAD: u64 = 64;

/// rfuC.
pub const GDR_RFU_C: u64 = 72;

/// LeapSecondLastUpdated.
pub const GDR_LEAP_SECOND_LAST_UPDATED: u64 = 76;

/// rfuE.
pub const GDR_RFU_E: u64 = 80;

/// rDimSizes: the size of the first dimension; the others follow.
pub const GDR_R_DIM_SIZE: u64 = 84;

/// ADRnext: the next attribute.
pub const ADR_ADR_NEXT: u64 = 12;

/// AgrEDRhead: the first gr entry.
pub const ADR_AGR_EDR_HEAD: u64 = 20;

/// Scope.
pub const ADR_SCOPE: u64 = 28;

/// Num: the number of the attribute.
pub const ADR_NUM: u64 = 32;

/// NgrEntries: how many gr entries there are.
pub const ADR_NGR_ENTRIES: u64 = 36;

/// MAXgrEntry.
pub const ADR_MAX_GR_ENTRY: u64 = 40;

/// rfuA.
pub const ADR_RFU_A: u64 = 44;

/// AzEDRhead: the first z entry.
pub const ADR_AZ_EDR_HEAD: u64 = 48;

/// NzEntries: how many z entries there are.
pub const ADR_NZ_ENTRIES: u64 = 56;

/// MAXzEntry.
pub const ADR_MAX_Z_ENTRY: u64 = 60;

/// rfuE.
pub const ADR_RFU_E: u64 = 64;

/// Name.
pub const ADR_NAME: u64 = 68;

/// AEDRnext: the next entry.
pub const AEDR_AEDR_NEXT: u64 = 12;

/// AttrNum: the number of the attribute.
pub const AEDR_ATTR_NUM: u64 = 20;

/// DataType.
pub const AEDR_DATA_TYPE: u64 = 24;

/// Num: the number of the entry.
pub const AEDR_NUM: u64 = 28;

/// NumElems: how many elements the value has.
pub const AEDR_NUM_ELEMS: u64 = 32;

/// NumStrings.
pub const AEDR_NUM_STRINGS: u64 = 36;

/// rfuB.
pub const AEDR_RFU_B: u64 = 40;

/// rfuC.
pub const AEDR_RFU_C: u64 = 44;

/// rfuD.
pub const AEDR_RFU_D: u64 = 48;

/// rfuE.
pub const AEDR_RFU_E: u64 = 52;

/// The value.
pub const AEDR_VALUE: u64 = 56;

/// VDRnext: the next variable.
pub const VDR_VDR_NEXT: u64 = 12;

/// DataType.
pub const VDR_DATA_TYPE: u64 = 20;

/// MaxRec.
pub const VDR_MAX_REC: u64 = 24;

/// VXRhead: the first node of the index.
pub const VDR_VXR_HEAD: u64 = 28;

/// VXRtail.
pub const VDR_VXR_TAIL: u64 = 36;

/// Flags.
pub const VDR_FLAGS: u64 = 44;

/// The bit of Flags that says that records vary.
pub const VDR_VARIANCE_BIT: u32 = 0;

/// The bit that says that there is a pad value.
pub const VDR_PAD_BIT: u32 = 1;

/// The bit that says that the variable is compressed.
pub const VDR_COMPRESSION_BIT: u32 = 2;

/// SRecords.
pub const VDR_S_RECORDS: u64 = 48;

/// rfuB.
pub const VDR_RFU_B: u64 = 52;

/// rfuC.
pub const VDR_RFU_C: u64 = 56;

/// rfuF.
pub const VDR_RFU_F: u64 = 60;

/// NumElems: how many elements a value has.
pub const VDR_NUM_ELEMS: u64 = 64;

/// Num: the number of the variable.
pub const VDR_NUM: u64 = 68;

/// CPRorSPRoffset: the parameters of a compressed variable.
pub const VDR_CPR_OR_SPR_OFFSET: u64 = 72;

/// BlockingFactor.
pub const VDR_BLOCKING_FACTOR: u64 = 80;

/// Name.
pub const VDR_NAME: u64 = 84;

/// DimVarys of an r variable, from its first dimension on.
pub const VDR_R_DIM_VARY: u64 = 340;

/// zNumDims: how many dimensions a z variable has.
pub const VDR_Z_NUM_DIMS: u64 = 340;

/// zDimSizes, from the first dimension on.
pub const VDR_Z_DIM_SIZE: u64 = 344;

/// VXRnext: the next node of the chain.
pub const VXR_VXR_NEXT: u64 = 12;

/// Nentries: how many entries there is room for.
pub const VXR_N_ENTRIES: u64 = 20;

/// NusedEntries: how many entries are in use.
pub const VXR_N_USED_ENTRIES: u64 = 24;

/// First of the first entry; the others follow, then each Last, then each Offset.
pub const VXR_FIRST: u64 = 28;

/// The bytes of First, Last and Offset of an entry.
pub const VXR_ENTRY_SIZE: u64 = 16;

/// The records.
pub const VVR_RECORDS: u64 = 12;

/// rfuA.
pub const CVVR_RFU_A: u64 = 12;

/// cSize: how many packed bytes there are.
pub const CVVR_C_SIZE: u64 = 16;

/// The packed bytes.
pub const CVVR_PACKED: u64 = 24;

/// cType.
pub const CPR_C_TYPE: u64 = 12;

/// rfuA.
pub const CPR_RFU_A: u64 = 16;

/// pCount: how many parameters there are.
pub const CPR_P_COUNT: u64 = 20;

/// The first parameter; the others follow.
pub const CPR_PARAMETER: u64 = 24;

/// NextUIR: the next record of the unused list.
pub const UIR_NEXT_UIR: u64 = 12;

/// PrevUIR: the one before it.
pub const UIR_PREV_UIR: u64 = 20;

/// The type of the CDF Descriptor Record.
pub const CDR_TYPE: u32 = 1;

/// The type of the Global Descriptor Record.
pub const GDR_TYPE: u32 = 2;

/// The type of a Variable Descriptor Record of an r variable.
pub const R_VDR_TYPE: u32 = 3;

/// The type of an Attribute Descriptor Record.
pub const ADR_TYPE: u32 = 4;

/// The type of an Attribute Entry Descriptor Record of a gr entry.
pub const AGR_EDR_TYPE: u32 = 5;

/// The type of a Variable Index Record.
pub const VXR_TYPE: u32 = 6;

/// The type of a Variable Values Record.
pub const VVR_TYPE: u32 = 7;

/// The type of a Variable Descriptor Record of a z variable.
pub const Z_VDR_TYPE: u32 = 8;

/// The type of an Attribute Entry Descriptor Record of a z entry.
pub const AZ_EDR_TYPE: u32 = 9;

/// The type of a Compressed CDF Record.
pub const CCR_TYPE: u32 = 10;

/// The type of a Compressed Parameters Record.
pub const CPR_TYPE: u32 = 11;

/// The type of a Sparseness Parameters Record.
pub const SPR_TYPE: u32 = 12;

/// The type of a Compressed Variable Values Record.
pub const CVVR_TYPE: u32 = 13;

/// The type of an Unused Internal Record, -1.
pub const UIR_TYPE: u32 = u32::MAX;

/// The bytes of the fixed part of a CDF Descriptor Record.
pub const CDR_SIZE: u64 = 312;

/// The bytes of the fixed part of a Global Descriptor Record.
pub const GDR_SIZE: u64 = 84;

/// The bytes of the fixed part of a Variable Descriptor Record of an r variable.
pub const R_VDR_SIZE: u64 = 340;

/// The bytes of the fixed part of an Attribute Descriptor Record.
pub const ADR_SIZE: u64 = 324;

/// The bytes of the fixed part of an Attribute Entry Descriptor Record.
pub const AEDR_SIZE: u64 = 56;

/// The bytes of the fixed part of a Variable Index Record.
pub const VXR_SIZE: u64 = 28;

/// The bytes of the fixed part of a Variable Values Record.
pub const VVR_SIZE: u64 = 12;

/// The bytes of the fixed part of a Variable Descriptor Record of a z variable.
pub const Z_VDR_SIZE: u64 = 344;

/// The least bytes of a Compressed CDF Record.
pub const CCR_SIZE: u64 = 12;

/// The bytes of the fixed part of a Compressed Parameters Record.
pub const CPR_SIZE: u64 = 24;

/// The least bytes of a Sparseness Parameters Record.
pub const SPR_SIZE: u64 = 12;

/// The bytes of the fixed part of a Compressed Variable Values Record.
pub const CVVR_SIZE: u64 = 24;

/// The bytes of the fixed part of an Unused Internal Record.
pub const UIR_SIZE: u64 = 12;

/// Where the CDF Descriptor Record stands in a file.
pub const CDR_PLACE: u64 = 8;

/// The bytes of the size and the type of a record, which each has.
pub const LEAST_SIZE: u64 = 12;

/// The least size of a record with a link to the next one of its chain.
pub const LINKED_SIZE: u64 = 28;

/// The bytes of a Name, which may be as long.
pub const NAME_SIZE: usize = NAME_LIMIT;

/// The bytes of a trailer: the checksum that may stand after the image.
pub const TRAILER_SIZE: u64 = 16;

/// The places, types and sizes are those of the definitions.
pub fn table_is_defined()
    ensures magic { magic_version_3 ∷ magic_uncompressed ∷ [] ≡ MAGIC_VERSION_3 ∷ MAGIC_UNCOMPRESSED ∷ [] }
    ensures any { places (record_size ∷ record_type ∷ []) ≡ RECORD_SIZE ∷ RECORD_TYPE ∷ [] }
    ensures cdr { places (cdr_gdr_offset ∷ cdr_version ∷ cdr_release ∷ cdr_encoding ∷ cdr_flags ∷ cdr_rfu_a ∷ cdr_rfu_b ∷ cdr_increment ∷ cdr_identifier ∷ cdr_rfu_e ∷ cdr_copyright ∷ []) ≡ CDR_GDR_OFFSET ∷ CDR_VERSION ∷ CDR_RELEASE ∷ CDR_ENCODING ∷ CDR_FLAGS ∷ CDR_RFU_A ∷ CDR_RFU_B ∷ CDR_INCREMENT ∷ CDR_IDENTIFIER ∷ CDR_RFU_E ∷ CDR_COPYRIGHT ∷ [] }
    ensures gdr { places (gdr_r_vdr_head ∷ gdr_z_vdr_head ∷ gdr_adr_head ∷ gdr_eof ∷ gdr_nr_vars ∷ gdr_num_attr ∷ gdr_r_max_rec ∷ gdr_r_num_dims ∷ gdr_nz_vars ∷ gdr_uir_head ∷ gdr_rfu_c ∷ gdr_leap_second_last_updated ∷ gdr_rfu_e ∷ gdr_r_dim_size 0 ∷ []) ≡ GDR_R_VDR_HEAD ∷ GDR_Z_VDR_HEAD ∷ GDR_ADR_HEAD ∷ GDR_EOF ∷ GDR_NR_VARS ∷ GDR_NUM_ATTR ∷ GDR_R_MAX_REC ∷ GDR_R_NUM_DIMS ∷ GDR_NZ_VARS ∷ GDR_UIR_HEAD ∷ GDR_RFU_C ∷ GDR_LEAP_SECOND_LAST_UPDATED ∷ GDR_RFU_E ∷ GDR_R_DIM_SIZE ∷ [] }
    ensures adr { places (adr_adr_next ∷ adr_agr_edr_head ∷ adr_scope ∷ adr_num ∷ adr_ngr_entries ∷ adr_max_gr_entry ∷ adr_rfu_a ∷ adr_az_edr_head ∷ adr_nz_entries ∷ adr_max_z_entry ∷ adr_rfu_e ∷ adr_name ∷ []) ≡ ADR_ADR_NEXT ∷ ADR_AGR_EDR_HEAD ∷ ADR_SCOPE ∷ ADR_NUM ∷ ADR_NGR_ENTRIES ∷ ADR_MAX_GR_ENTRY ∷ ADR_RFU_A ∷ ADR_AZ_EDR_HEAD ∷ ADR_NZ_ENTRIES ∷ ADR_MAX_Z_ENTRY ∷ ADR_RFU_E ∷ ADR_NAME ∷ [] }
    ensures aedr { places (aedr_aedr_next ∷ aedr_attr_num ∷ aedr_data_type ∷ aedr_num ∷ aedr_num_elems ∷ aedr_num_strings ∷ aedr_rfu_b ∷ aedr_rfu_c ∷ aedr_rfu_d ∷ aedr_rfu_e ∷ aedr_value 0 ∷ []) ≡ AEDR_AEDR_NEXT ∷ AEDR_ATTR_NUM ∷ AEDR_DATA_TYPE ∷ AEDR_NUM ∷ AEDR_NUM_ELEMS ∷ AEDR_NUM_STRINGS ∷ AEDR_RFU_B ∷ AEDR_RFU_C ∷ AEDR_RFU_D ∷ AEDR_RFU_E ∷ AEDR_VALUE ∷ [] }
    ensures vdr { places (vdr_vdr_next ∷ vdr_data_type ∷ vdr_max_rec ∷ vdr_vxr_head ∷ vdr_vxr_tail ∷ vdr_flags ∷ vdr_s_records ∷ vdr_rfu_b ∷ vdr_rfu_c ∷ vdr_rfu_f ∷ vdr_num_elems ∷ vdr_num ∷ vdr_cpr_or_spr_offset ∷ vdr_blocking_factor ∷ vdr_name ∷ vdr_r_dim_vary 0 ∷ vdr_z_num_dims ∷ vdr_z_dim_size 0 ∷ []) ≡ VDR_VDR_NEXT ∷ VDR_DATA_TYPE ∷ VDR_MAX_REC ∷ VDR_VXR_HEAD ∷ VDR_VXR_TAIL ∷ VDR_FLAGS ∷ VDR_S_RECORDS ∷ VDR_RFU_B ∷ VDR_RFU_C ∷ VDR_RFU_F ∷ VDR_NUM_ELEMS ∷ VDR_NUM ∷ VDR_CPR_OR_SPR_OFFSET ∷ VDR_BLOCKING_FACTOR ∷ VDR_NAME ∷ VDR_R_DIM_VARY ∷ VDR_Z_NUM_DIMS ∷ VDR_Z_DIM_SIZE ∷ [] }
    ensures vxr { places (vxr_vxr_next ∷ vxr_n_entries ∷ vxr_n_used_entries ∷ vxr_first 0 ∷ []) ≡ VXR_VXR_NEXT ∷ VXR_N_ENTRIES ∷ VXR_N_USED_ENTRIES ∷ VXR_FIRST ∷ [] }
    ensures vvr { places (vvr_records 0 ∷ []) ≡ VVR_RECORDS ∷ [] }
    ensures cvvr { places (cvvr_rfu_a ∷ cvvr_c_size ∷ cvvr_packed 0 ∷ []) ≡ CVVR_RFU_A ∷ CVVR_C_SIZE ∷ CVVR_PACKED ∷ [] }
    ensures cpr { places (cpr_c_type ∷ cpr_rfu_a ∷ cpr_p_count ∷ cpr_parameter 0 ∷ []) ≡ CPR_C_TYPE ∷ CPR_RFU_A ∷ CPR_P_COUNT ∷ CPR_PARAMETER ∷ [] }
    ensures uir { places (uir_next_uir ∷ uir_prev_uir ∷ []) ≡ UIR_NEXT_UIR ∷ UIR_PREV_UIR ∷ [] }
    ensures cdr_bits { cdr_majority_bit ∷ cdr_single_file_bit ∷ cdr_checksum_bit ∷ cdr_md5_bit ∷ [] ≡ CDR_MAJORITY_BIT ∷ CDR_SINGLE_FILE_BIT ∷ CDR_CHECKSUM_BIT ∷ CDR_MD5_BIT ∷ [] }
    ensures vdr_bits { vdr_variance_bit ∷ vdr_pad_bit ∷ vdr_compression_bit ∷ [] ≡ VDR_VARIANCE_BIT ∷ VDR_PAD_BIT ∷ VDR_COMPRESSION_BIT ∷ [] }
    ensures types { cdr_type ∷ gdr_type ∷ r_vdr_type ∷ adr_type ∷ agr_edr_type ∷ vxr_type ∷ vvr_type ∷ z_vdr_type ∷ az_edr_type ∷ ccr_type ∷ cpr_type ∷ spr_type ∷ cvvr_type ∷ uir_type ∷ [] ≡ CDR_TYPE ∷ GDR_TYPE ∷ R_VDR_TYPE ∷ ADR_TYPE ∷ AGR_EDR_TYPE ∷ VXR_TYPE ∷ VVR_TYPE ∷ Z_VDR_TYPE ∷ AZ_EDR_TYPE ∷ CCR_TYPE ∷ CPR_TYPE ∷ SPR_TYPE ∷ CVVR_TYPE ∷ UIR_TYPE ∷ [] }
    ensures sizes { map fixed_size (cdr_type ∷ gdr_type ∷ r_vdr_type ∷ adr_type ∷ agr_edr_type ∷ vxr_type ∷ vvr_type ∷ z_vdr_type ∷ az_edr_type ∷ ccr_type ∷ cpr_type ∷ spr_type ∷ cvvr_type ∷ uir_type ∷ []) ≡ CDR_SIZE ∷ GDR_SIZE ∷ R_VDR_SIZE ∷ ADR_SIZE ∷ AEDR_SIZE ∷ VXR_SIZE ∷ VVR_SIZE ∷ Z_VDR_SIZE ∷ AEDR_SIZE ∷ CCR_SIZE ∷ CPR_SIZE ∷ SPR_SIZE ∷ CVVR_SIZE ∷ UIR_SIZE ∷ [] }
    ensures widths { vxr_entry_size ≡ VXR_ENTRY_SIZE }
    ensures least { cdr_place ∷ past record_type ∷ linked_size ∷ [] ≡ CDR_PLACE ∷ LEAST_SIZE ∷ LINKED_SIZE ∷ [] }
    ensures names { name_limit ∷ map (λ f. f.width) (adr_name ∷ vdr_name ∷ []) ≡ NAME_SIZE ∷ NAME_SIZE ∷ NAME_SIZE ∷ [] }
    ensures trailer { trailer_size ≡ TRAILER_SIZE }
{}
