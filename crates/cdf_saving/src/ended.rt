//! How a run ended.

use crate::Status;
use crate::notes::Notes;

/// How a run ended, and the store that was lent to it.
#[derive(Drop)]
pub struct Ended<S> {
    pub status: Status,
    pub notes: Notes,
    pub store: S,
}
