//! What the taps say and which are left, once they were shown the events of a data set.

ghost use Rattle.std.specs.Prelude.{◌≡◌, ℕ, List, map};
ghost use Rattle.cdf_model.specs.DataSet.{DataSet};
ghost use Rattle.cdf_model.specs.Events.{events_of};
ghost use Rattle.cdf_model.specs.Taps.{left_after, told};
ghost use Rattle.cdf_tap.specs.Meanings.{Meaning, kinds_of, left_of, others_of, texts_of};
ghost use Rattle.cdf_tap.specs.Reports.{after_all, begun};

/// Their texts are what a report of the data set tells, those that are left are what it leaves, and taps of other names are as before.
pub fn reports()
    ensures texts { (name : List ℕ) (d : DataSet) (ms : List Meaning) → texts_of name (map (λ tap. tap.0) (after_all name (events_of d) (begun name ms))) ≡ told (kinds_of ms) name d }
    ensures left { (name : List ℕ) (d : DataSet) (ms : List Meaning) → kinds_of (left_of (after_all name (events_of d) (begun name ms))) ≡ left_after (kinds_of ms) name d }
    ensures others { (name : List ℕ) (d : DataSet) (ms : List Meaning) → others_of name (left_of (after_all name (events_of d) (begun name ms))) ≡ others_of name ms }
{}
