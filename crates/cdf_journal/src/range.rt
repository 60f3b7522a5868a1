//! Ranges of a file.

ghost use Rattle.std.specs.Prelude.{◌≡◌};
ghost use Rattle.cdf_journal.specs.Ranges.{member_of};

/// A range of a file that was written, by its place and how many bytes it has. Where the file was cut since, it has the part before
/// the file's end.
#[derive(Clone, Copy, Debug, PartialEq, Eq)]
pub struct Range {
    pub place: usize,
    pub count: usize,
}

impl Range {
    ghost use Rattle.std.specs.Prelude.{◌≡◌};

    /// Where the range begins in a file.
    pub fn place_in(self, file: &[u8]) -> u64
        ensures { result ≡ (member_of file.now self).0 }
    {
        self.place.min(file.len()) as u64
    }

    /// The bytes that a file has in the range.
    pub fn bytes_of(self, file: &[u8]) -> &[u8]
        ensures { result.now ≡ (member_of file.now self).1 }
    {
        let place = self.place.min(file.len());
        let count = self.count.min(file.len() - place);
        &file[place..place + count]
    }
}
