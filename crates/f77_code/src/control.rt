//! Where control is, and what active DOs have left to do.

/// Where control is. Statements are numbered from 0.
#[derive(Clone, Copy, Debug, PartialEq, Eq)]
pub enum Place {
    /// At a statement that is to be executed next.
    Execute(usize),
    /// At a DO that is to be incremented next.
    Increment(usize),
}

/// The counter of an active DO: its remaining passes, and its incrementation parameter.
#[derive(Clone, Copy, Debug, PartialEq, Eq)]
pub struct Turn {
    /// The passes that it still has to make. They have 64 bits: a DO from -2147483648 to 2147483647 has more than 32
    /// bits hold.
    pub passes: u64,
    /// The incrementation parameter (11.10.3).
    pub step: i32,
}
