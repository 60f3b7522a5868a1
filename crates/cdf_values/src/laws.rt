//! What follows from the definitions, each law as the clause of a function.

ghost use Rattle.std.specs.Prelude.{◌≡◌, ℕ, ◌%◌, List, length, Bool};
ghost use Rattle.cdf_model.specs.declared.data_type.DataType.{DataType};
ghost use Rattle.cdf_model.specs.ByteOrder.{turned};
ghost use Rattle.cdf_model.specs.Types.{size_of};

/// Elements that are turned into network order and back, or the other way round, are what they were; turned, they are as
/// many bytes.
pub fn turned_back()
    ensures back { (t : DataType) (little : Bool) (bytes : List ℕ) → length bytes % size_of t ≡ 0 → turned t little (turned t little bytes) ≡ bytes }
    ensures size { (t : DataType) (little : Bool) (bytes : List ℕ) → length bytes % size_of t ≡ 0 → length (turned t little bytes) ≡ length bytes }
{}
