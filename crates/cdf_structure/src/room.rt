//! How many bytes a record may take in blocks that keep all rules.

ghost use Rattle.std.specs.Prelude.{◌≡◌, true};
ghost use Rattle.cdf_structure.specs.Rooms.{Fits, IsBoth};

/// How many bytes a record may take in blocks that keep all rules.
#[derive(Clone, Copy)]
pub enum Room {
    /// So many at most. No block is packed.
    AtMost(u64),
    /// Just so many, of a variable that is compressed. A block is packed.
    Just(u64),
}

impl Room {
    /// Whether records of so many bytes fit, of a variable that is compressed or not.
    pub fn fits(self, is_compressed: bool, rec_bytes: u64) -> bool
        ensures { result ≡ true → Fits self is_compressed rec_bytes }
    {
        match self {
            Room::AtMost(most) => rec_bytes <= most,
            Room::Just(bytes) => is_compressed && rec_bytes == bytes,
        }
    }

    /// What fits both, where there is such a thing.
    pub fn narrowed(self, other: Room) -> Room
        ensures { IsBoth self other result }
    {
        match self {
            Room::Just(_) => self,
            Room::AtMost(one) => match other {
                Room::Just(_) => other,
                Room::AtMost(two) => Room::AtMost(one.min(two)),
            },
        }
    }
}
