//! What a drive answers.

/// What a drive answers.
#[derive(Clone, Copy, Debug, PartialEq, Eq)]
pub struct Drive {
    /// How many of the items that it offered the pool stored: those whose push or enqueue has the reply
    /// Done.
    pub shared: u64,
    /// How many of the items that it offered came back and were kept: those whose push or enqueue has the
    /// reply Full, and those that have no entry. After 2^64 - 1 the number stands there.
    pub kept: u64,
    /// Whether it ended because the bay was quiet, and not because its pass was spent.
    pub quiet: bool,
}
