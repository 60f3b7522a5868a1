//! What is told of a file whose log is open, where a run did not ask for it.

use crate::quoted::Quoted;
use std::fmt;

/// The file of this name has a log that is open.
#[derive(Clone, Copy, Debug)]
pub struct OpenLog<'a>(pub &'a str);

impl fmt::Display for OpenLog<'_> {
    fn fmt<W: fmt::Write>(&self, f: &mut fmt::Formatter<W>) -> fmt::Result {
        write!(
            f,
            "cdfedit: {}: a save of it was cut short, and its log is open: it is to be opened with --journal first, which writes the log into it",
            Quoted(self.0)
        )
    }
}
