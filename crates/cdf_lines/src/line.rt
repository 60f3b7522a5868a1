//! A line of a script.

/// A line of a script, without its newline.
#[derive(Clone, Copy)]
pub struct Line<'a> {
    /// Counted from 1.
    pub number: u64,
    /// The bytes; none of a line that is too long.
    pub text: &'a [u8],
    /// The line has more bytes than a line may have.
    pub long: bool,
}
