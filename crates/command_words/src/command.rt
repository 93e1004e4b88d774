//! What the words can tell the program to do.

use bay_core::Layout;

/// What the program can be told to do.
#[derive(Clone, Copy, Debug, PartialEq, Eq)]
pub enum Command {
    /// Reads an image and writes its slide.
    Compact(Options),
    /// Marks an image, which is read, or made up where it is said of how many objects and from which
    /// seed, and prints a summary.
    Mark(Options, Option<Made>),
    /// Reads an image and prints how large it is.
    Check,
    /// Makes an image up and writes it.
    Make(Made),
    /// Reads the scripts of a bay's callers, runs them, and prints the one history of their calls.
    Trial,
    /// Reads a schedule and prints the run of the protocol on its acts.
    Schedule,
}

/// How the workers of a crew share their work.
#[derive(Clone, Copy, Debug, PartialEq, Eq)]
pub struct Options {
    /// How many workers there are, 1 to 16.
    pub workers: u32,
    /// How many blocks their bay has, 1 to 16384, and with pages at least 2.
    pub blocks: u32,
    /// How the bay lays its blocks out.
    pub layout: Layout,
}

/// Which image is made up.
#[derive(Clone, Copy, Debug, PartialEq, Eq)]
pub struct Made {
    /// How many objects it has, at most 2^20.
    pub objects: u32,
    /// What its words are made of.
    pub seed: u64,
}
