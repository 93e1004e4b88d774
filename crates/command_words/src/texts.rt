//! The texts that the words give.

/// The text of each option, of the command and of its operands, where it is given.
#[derive(Drop)]
pub struct Texts<'a> {
    /// Of `--workers`.
    pub workers: Option<&'a str>,
    /// Of `--blocks`.
    pub blocks: Option<&'a str>,
    /// Of `--layout`.
    pub layout: Option<&'a str>,
    /// The first word that is no option.
    pub command: Option<&'a str>,
    /// The second.
    pub objects: Option<&'a str>,
    /// The third.
    pub seed: Option<&'a str>,
}
