//! What a write of a field leaves, each law as the clause of a function.

ghost use Rattle.std.specs.Prelude.{◌≡◌, ◌⊎◌, ◌+◌, ◌^◌, ◌<◌, ◌≤◌, ◌≢◌, ℕ, ℤ, List, length, slice_index};
ghost use Rattle.std.specs.Int.{w32, w64, cast_unsigned};
ghost use Rattle.std.specs.Int.RustNames.{FitsSigned};
ghost use Rattle.std.specs.List.{All};
ghost use Rattle.cdf_base.specs.Bytes.{put};
ghost use Rattle.cdf_format.specs.Fields.{LiesIn, integer4, integer8, name_in, number, with_field, with_name, word};
ghost use Rattle.cdf_format.specs.Records.{Field};

/// A field that was written reads as what was written.
pub fn field_reads_back()
    ensures { (b : List ℕ) (place : ℕ) (f : Field) (n : ℕ) → LiesIn b place f → n < 256 ^ f.width → number (with_field b place f n) place f ≡ n }
{}

/// The same of 4 bytes with a sign.
pub fn signed4_reads_back()
    ensures { (b : List ℕ) (place : ℕ) (f : Field) (z : ℤ) → f.width ≡ 4 → LiesIn b place f → FitsSigned w32 z → integer4 (with_field b place f (cast_unsigned w32 z)) place f ≡ z }
{}

/// The same of 8 bytes with a sign.
pub fn signed8_reads_back()
    ensures { (b : List ℕ) (place : ℕ) (f : Field) (z : ℤ) → f.width ≡ 8 → LiesIn b place f → FitsSigned w64 z → integer8 (with_field b place f (cast_unsigned w64 z)) place f ≡ z }
{}

/// A name without a byte 0 that was written reads as what was written.
pub fn name_reads_back()
    ensures { (b : List ℕ) (place : ℕ) (f : Field) (name : List ℕ) → LiesIn b place f → length name ≤ f.width → All (λ byte. byte ≢ 0) name → name_in (with_name b place f name) place f ≡ name }
{}

/// A number that does not overlap a field that was written reads as before.
pub fn other_words_stay()
    ensures { (b : List ℕ) (place : ℕ) (f : Field) (m other n : ℕ) → LiesIn b place f → (other + n ≤ place + f.place) ⊎ (place + f.place + f.width ≤ other) → word (with_field b place f m) other n ≡ word b other n }
{}

/// The same of a name that was written.
pub fn words_beside_a_name_stay()
    ensures { (b : List ℕ) (place : ℕ) (f : Field) (name : List ℕ) (other n : ℕ) → LiesIn b place f → length name ≤ f.width → (other + n ≤ place + f.place) ⊎ (place + f.place + f.width ≤ other) → word (with_name b place f name) other n ≡ word b other n }
{}

/// The bytes outside a field that was written stay.
pub fn other_bytes_stay()
    ensures { (b : List ℕ) (place : ℕ) (f : Field) (n i : ℕ) → LiesIn b place f → (i < place + f.place) ⊎ (place + f.place + f.width ≤ i) → slice_index (with_field b place f n) i ≡ slice_index b i }
{}

/// A number that does not overlap bytes that were written reads as before.
pub fn words_outside_stay()
    ensures { (b xs : List ℕ) (place other n : ℕ) → place + length xs ≤ length b → (other + n ≤ place) ⊎ (place + length xs ≤ other) → word (put b place xs) other n ≡ word b other n }
{}

/// The number of bytes stays.
pub fn length_stays()
    ensures { (b : List ℕ) (place : ℕ) (f : Field) (n : ℕ) → LiesIn b place f → length (with_field b place f n) ≡ length b }
{}
