//! The greatest number of the entries of a chain.

ghost use Rattle.std.specs.Prelude.{◌≡◌, ◌≤◌, ◌↔◌, [], All, Contains, IfSome, IsNone, pos, max};
ghost use Rattle.std.specs.List.{fold};
ghost use Rattle.cdf_model.specs.Limits.{signed_limit};

/// The greatest of the numbers of entries and of one more.
pub fn greatest_with(num: u32, numbers: &[u32]) -> i32
    requires { fold max num numbers.now ≤ signed_limit }
    ensures { result ≡ pos (fold max num numbers.now) }
{
    numbers.iter().fold(num, |most, n| most.max(*n)) as i32
}

/// The greatest of some numbers.
pub fn greatest(numbers: &[u32]) -> Option<u32>
    ensures empty { IsNone result ↔ (numbers.now ≡ []) }
    ensures member { IfSome result (Contains numbers.now) }
    ensures greatest { IfSome result (λ most. All (λ n. n ≤ most) numbers.now) }
{
    numbers.iter().copied().max()
}
