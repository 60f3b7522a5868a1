//! What an area is: the bytes of one file, and why a call of it may fail.

ghost use Rattle.std.specs.Prelude.{◌≡◌, ◌+◌, ◌-◌, ◌≤◌, ◌++◌, ℕ, Bool, List, length, take, drop, replicate, OnOk, OnErr, IsSome, Some, None};
ghost use Rattle.cdf_base.specs.Bytes.{put};
ghost use Rattle.cdf_area.specs.Calls.{Edits, Overwrites, Reads};
ghost use Rattle.cdf_area.specs.Frame.{Frame, with_base};

use std::alloc::{AllocError, AllocFailed};

/// Why a call of an area was not done.
#[derive(Clone, Copy, Debug, PartialEq, Eq)]
pub enum AreaError {
    /// What stands beneath the area failed.
    Fault,
    /// There was no memory left.
    NoMemory,
}

impl From<AllocError> for AreaError {
    ghost use Rattle.cdf_area.specs.declared.area.AreaError.TheVariants.{NoMemory};

    ghost from_gives = { λ _ e. e ≡ NoMemory };

    fn from(_: AllocError) -> Self {
        AreaError::NoMemory
    }
}

impl<T: Drop> From<AllocFailed<T>> for AreaError {
    ghost use Rattle.cdf_area.specs.declared.area.AreaError.TheVariants.{NoMemory};

    ghost from_gives = { λ _ e. e ≡ NoMemory };

    fn from(_: AllocFailed<T>) -> Self {
        AreaError::NoMemory
    }
}

/// The bytes of one file, read and written in place, with one mark to which all changes can be taken back.
///
/// The meanings are the image, which is all the bytes; the frame, which no reading, writing or growing changes; the number of
/// faults; and whether it was edited. Places and numbers of bytes are counted from the start of the image.
pub trait Area {
    /// All the bytes.
    ghost image: { Self → List ℕ };

    /// The kind of what stands beneath.
    ghost Under: { Type 0 };

    /// The image at the mark, if there is one, the limit, and what stands beneath.
    ghost frame: { Self → Frame Under };

    /// How often what stands beneath has failed.
    ghost faults: { Self → ℕ };

    /// Whether a write or a growth may have been made. Only these calls change it.
    ghost edited: { Self → Bool };

    /// The number of bytes.
    fn size(&self) -> u64
        ensures { result ≡ length (image self.now) };

    /// How many bytes the area may grow to.
    fn limit(&self) -> u64
        ensures { result ≡ (frame self.now).limit };

    /// Reads as many bytes as `out` has room for, from `place` on. After an error `out` may hold anything.
    fn get(&mut self, place: u64, out: &mut [u8]) -> Result<(), AreaError>
        requires { place + length out.old ≤ length (image self.old) }
        ensures bytes { OnOk result (out.new ≡ take (length out.new) (drop place (image self.old))) }
        ensures area { Reads image frame faults edited self.old self.new result };

    /// Writes `bytes` over those from `place` on.
    fn set(&mut self, place: u64, bytes: &[u8]) -> Result<(), AreaError>
        requires { place + length bytes.now ≤ length (image self.old) }
        ensures written { OnOk result (image self.new ≡ put (image self.old) place bytes.now) }
        ensures area { Overwrites image frame faults self.old self.new result };

    /// Appends `n` bytes that are 0.
    fn extend(&mut self, n: u64) -> Result<(), AreaError>
        requires { length (image self.old) + n ≤ (frame self.old).limit }
        ensures longer { OnOk result (image self.new ≡ image self.old ++ replicate n 0) }
        ensures stays { OnErr result (image self.new ≡ image self.old) }
        ensures area { Edits frame faults self.old self.new result };

    /// Drops the last `n` bytes, which cannot be taken back.
    fn shorten(&mut self, n: u64)
        requires room { n ≤ length (image self.old) }
        requires unmarked { (frame self.old).base ≡ None }
        ensures shorter { image self.new ≡ take (length (image self.old) - n) (image self.old) }
        ensures frame { frame self.new ≡ frame self.old }
        ensures edited { edited self.new ≡ edited self.old }
        ensures faults { faults self.new ≡ faults self.old };

    /// Marks the image as it is: from now on `undo` leads back to it. An earlier mark is forgotten.
    fn mark(&mut self)
        ensures image { image self.new ≡ image self.old }
        ensures frame { frame self.new ≡ with_base (frame self.old) (Some (image self.old)) }
        ensures edited { edited self.new ≡ edited self.old }
        ensures faults { faults self.new ≡ faults self.old };

    /// Forgets the mark, and keeps what was changed since.
    fn keep(&mut self)
        requires { IsSome (frame self.old).base }
        ensures image { image self.new ≡ image self.old }
        ensures frame { frame self.new ≡ with_base (frame self.old) None }
        ensures edited { edited self.new ≡ edited self.old }
        ensures faults { faults self.new ≡ faults self.old };

    /// Goes back to the marked image, and forgets the mark. It takes no memory.
    fn undo(&mut self)
        requires { IsSome (frame self.old).base }
        ensures image { (frame self.old).base ≡ Some (image self.new) }
        ensures frame { frame self.new ≡ with_base (frame self.old) None }
        ensures edited { edited self.new ≡ edited self.old }
        ensures faults { faults self.new ≡ faults self.old };
}
