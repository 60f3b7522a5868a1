//! What the check of one phase finds.

/// A rule of one phase that is broken, and where.
#[derive(Clone, Copy)]
pub struct Finding {
    pub rule: u8,
    pub place: u64,
}
