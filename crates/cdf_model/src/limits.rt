//! The limits of what is read and written.

ghost use Rattle.std.specs.Prelude.{◌≡◌};
ghost use Rattle.cdf_model.specs.Limits.{image_limit, script_limit, line_limit, record_number_limit, signed_limit, dimension_limit, level_limit};
ghost use Rattle.cdf_model.specs.Names.{name_limit};
ghost use Rattle.cdf_model.specs.Place.{record_limit};

/// The most bytes of an image.
pub const IMAGE_LIMIT: u64 = 1_073_741_824;

/// The most bytes of a script.
pub const SCRIPT_LIMIT: u64 = 1_073_741_824;

/// The most bytes of a line of it.
pub const LINE_LIMIT: usize = 16_777_216;

/// The most bytes of a record of a variable, of a block and of an entry.
pub const RECORD_LIMIT: u64 = 67_108_864;

/// The greatest number of a record, or of an entry of an attribute.
pub const RECORD_NUMBER_LIMIT: u32 = 2_147_483_646;

/// The greatest number of 32 bits with a sign.
pub const SIGNED_LIMIT: u32 = 2_147_483_647;

/// The most dimensions.
pub const DIMENSION_LIMIT: u32 = 10;

/// The most levels of nodes of an index.
pub const LEVEL_LIMIT: u64 = 8;

/// The most bytes of a name.
pub const NAME_LIMIT: usize = 256;

/// The limits are those of the definitions.
pub fn limits_are_defined()
    ensures image { image_limit ≡ IMAGE_LIMIT }
    ensures script { script_limit ≡ SCRIPT_LIMIT }
    ensures line { line_limit ≡ LINE_LIMIT }
    ensures record { record_limit ≡ RECORD_LIMIT }
    ensures record_number { record_number_limit ≡ RECORD_NUMBER_LIMIT }
    ensures signed { signed_limit ≡ SIGNED_LIMIT }
    ensures dimension { dimension_limit ≡ DIMENSION_LIMIT }
    ensures level { level_limit ≡ LEVEL_LIMIT }
    ensures name { name_limit ≡ NAME_LIMIT }
{}
