//! Gates, which hold nobody or, in a test, each caller until others came.

/// A gate that callers ask before a call. It says nothing of the call: a test hands one in that
/// holds each caller for a while, and so sees which callers are under way at the same time.
pub trait Gate {
    /// Caller `worker` is about to make its call number `take`, counted from 0. It answers nothing.
    /// It returns, after a while if it holds the caller, and takes no memory.
    fn ask(&self, worker: u32, take: u64);
}

/// The gate that holds nobody.
#[derive(Clone, Copy, Debug, PartialEq, Eq)]
pub struct OpenGate;

impl Gate for OpenGate {
    fn ask(&self, _worker: u32, _take: u64) {}
}
