//! Records that are taken and freed.

ghost use Rattle.cdf_edits.specs.Space.Placement.{Takes, Gives};
ghost use Rattle.cdf_format.specs.Shape.{shape};
ghost use Rattle.cdf_examples.specs.Attributes.{freed100_file};
ghost use Rattle.cdf_examples.specs.DeletedVariable.{two_variables};
ghost use Rattle.cdf_examples.specs.Spaces.{taken_in_list, taken_at_end, half_deleted};

/// Of 100 unused bytes 72 are taken, and the rest stays on the list.
pub fn taken_from_list()
    ensures taken { Takes freed100_file taken_in_list (shape freed100_file) (shape taken_in_list) 72 728 }
{}

/// 80 bytes are taken at the end.
pub fn end_raised()
    ensures taken { Takes freed100_file taken_at_end (shape freed100_file) (shape taken_at_end) 80 828 }
{}

/// The VDR of a deleted variable is freed, and stands before the entry that was freed before it.
pub fn freed()
    ensures freed { Gives half_deleted two_variables (shape half_deleted) (shape two_variables) 728 }
{}
