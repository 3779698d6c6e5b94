//! What a text that was written is.

/// What the text that was written is.
#[derive(Debug, Drop, Clone, Copy, PartialEq, Eq)]
pub enum Status {
    /// The report that the words ask for.
    Report,
    /// The line of a fault.
    Fault,
    /// Why the command line refuses the words.
    Words,
    /// The help or the version that the words ask for.
    Help,
}
