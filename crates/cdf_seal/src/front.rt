//! The first bytes of an area as an area of their own, so that who reads an image need not know of what stands behind it.

ghost use Rattle.std.specs.Prelude.{◌≡◌, ◌≤◌, take, length, false};
ghost use Rattle.cdf_seal.specs.Fronts.{Beneath, front_frame};

use cdf_area::{Area, AreaError};

/// The first bytes of an area, which is read through it and never changed: a write or a growth is refused.
#[derive(Drop)]
pub struct Front<'a, A: Area> {
    area: &'a mut A,
    size: u64,
    marked: bool,
}

impl<'a, A: Area> Front<'a, A> {
    /// The first `size` bytes, without a mark.
    pub fn new(area: &'a mut A, size: u64) -> Front<'a, A>
        ensures image { ⟦<Front<'a, A> as Area>⟧.image result ≡ take size (A.image area.old) }
        ensures frame { ⟦<Front<'a, A> as Area>⟧.frame result ≡ front_frame size false (record { name = area.entry.ghost_name; image = A.image area.old; frame = A.frame area.old }) }
        ensures faults { ⟦<Front<'a, A> as Area>⟧.faults result ≡ A.faults area.old }
        ensures edited { ⟦<Front<'a, A> as Area>⟧.edited result ≡ A.edited area.old }
    {
        Front {
            area,
            size,
            marked: false,
        }
    }
}

impl<A: Area> Area for Front<'_, A> {
    ghost image = { λ front. take front.size (A.image front.area.now) };

    ghost Under = { Beneath A.Under };

    ghost frame = { λ front. front_frame front.size front.marked (record { name = front.area.ghost_name; image = A.image front.area.now; frame = A.frame front.area.now }) };

    ghost faults = { λ front. A.faults front.area.now };

    ghost edited = { λ front. A.edited front.area.now };

    fn size(&self) -> u64 {
        self.size.min(self.area.size())
    }

    fn limit(&self) -> u64 {
        0
    }

    fn get(&mut self, place: u64, out: &mut [u8]) -> Result<(), AreaError> {
        self.area.get(place, out)
    }

    fn set(&mut self, _place: u64, _bytes: &[u8]) -> Result<(), AreaError> {
        Err(AreaError::NoMemory)
    }

    fn extend(&mut self, _n: u64) -> Result<(), AreaError> {
        Err(AreaError::NoMemory)
    }

    fn shorten(&mut self, n: u64) {
        self.size = self.size() - n;
    }

    fn mark(&mut self) {
        self.marked = true;
    }

    fn keep(&mut self) {
        self.marked = false;
    }

    fn undo(&mut self) {
        self.marked = false;
    }
}
