//! Watches, which see when callers begin and end.

/// What callers tell of their begin and their end, to be timed apart from the set-up. It says nothing of
/// the calls.
pub trait Watch {
    /// A caller is about to make its first call. It returns, after a while if it holds the caller until
    /// others came, and takes no memory.
    fn begins(&self);

    /// A caller has made its last call. It returns, and takes no memory.
    fn ends(&self);
}
