//! First and Last of an index entry are read with their sign.

ghost use Rattle.cdf_format.specs.Sealed.{sealed};
ghost use Rattle.cdf_examples.specs.Damage.{EachBreaks, changed};
ghost use Rattle.cdf_examples.specs.Signs.{HoldsEverywhere, index_rules, last_below_zero, last_broken};
ghost use Rattle.cdf_examples.specs.Usual.{usual_image};

/// The usual file with -1 as the first Last of the node at 1140: the entries of this node are not in order, and each block has room for the records of its entry, none of the first.
pub fn last_below_zero()
    ensures verdict { EachBreaks (sealed usual_image) last_broken }
    ensures room { HoldsEverywhere (index_rules (changed usual_image last_below_zero)) 5 }
{}
