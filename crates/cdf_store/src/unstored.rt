//! What of the attached file is not stored.

ghost use Rattle.std.specs.Prelude.{◌≡◌};
ghost use Rattle.cdf_store.specs.Unstored.{after_cut, after_write, nothing};

/// What was done to the attached file since it was stored, which a stop of the machine may undo.
#[derive(Clone, Copy, Debug, PartialEq, Eq)]
pub struct Unstored {
    /// Bytes were added behind its end.
    pub growth: bool,
    /// Bytes that it had were written over or cut off.
    pub change: bool,
}

impl Unstored {
    /// Nothing was done.
    pub fn nothing() -> Unstored
        ensures { result ≡ nothing }
    {
        Unstored {
            growth: false,
            change: false,
        }
    }

    /// So many bytes were written from a place on, in a file of this size.
    pub fn write(&mut self, size: u64, place: u64, count: u64)
        ensures { self.new ≡ after_write size place count self.old }
    {
        let behind = size.saturating_sub(place);
        self.growth = self.growth || behind < count;
        self.change = self.change || behind > 0 && count > 0;
    }

    /// A file of this size was cut to `n` bytes.
    pub fn cut(&mut self, size: u64, n: u64)
        ensures { self.new ≡ after_cut size n self.old }
    {
        self.change = self.change || n < size;
    }
}
