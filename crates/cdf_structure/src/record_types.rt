//! What is known of the types of records.

ghost use Rattle.std.specs.Prelude.{◌≡◌};
ghost use Rattle.cdf_format.specs.RecordTypes.{is_record_type, fixed_size};

use cdf_format::fields::{
    ADR_SIZE, ADR_TYPE, AEDR_SIZE, AGR_EDR_TYPE, AZ_EDR_TYPE, CCR_SIZE, CCR_TYPE, CDR_SIZE,
    CDR_TYPE, CPR_SIZE, CPR_TYPE, CVVR_SIZE, CVVR_TYPE, GDR_SIZE, GDR_TYPE, R_VDR_SIZE, R_VDR_TYPE,
    SPR_SIZE, SPR_TYPE, UIR_SIZE, UIR_TYPE, VVR_SIZE, VVR_TYPE, VXR_SIZE, VXR_TYPE, Z_VDR_SIZE,
    Z_VDR_TYPE,
};

/// Whether records have this type.
pub fn is_record_type(record_type: u32) -> bool
    ensures { result ≡ is_record_type record_type }
{
    (record_type >= CDR_TYPE && record_type <= CVVR_TYPE) || record_type == UIR_TYPE
}

/// The least size of a record of a type; of no type there is none.
pub fn fixed_size(record_type: u32) -> u64
    ensures { result ≡ fixed_size record_type }
{
    match record_type {
        CDR_TYPE => CDR_SIZE,
        GDR_TYPE => GDR_SIZE,
        R_VDR_TYPE => R_VDR_SIZE,
        ADR_TYPE => ADR_SIZE,
        AGR_EDR_TYPE | AZ_EDR_TYPE => AEDR_SIZE,
        VXR_TYPE => VXR_SIZE,
        VVR_TYPE => VVR_SIZE,
        Z_VDR_TYPE => Z_VDR_SIZE,
        CCR_TYPE => CCR_SIZE,
        CPR_TYPE => CPR_SIZE,
        SPR_TYPE => SPR_SIZE,
        CVVR_TYPE => CVVR_SIZE,
        UIR_TYPE => UIR_SIZE,
        _ => 0,
    }
}
